// The ground functions, which refuse nothing: numbers in, a number out.
ghost use Rattle.std.specs.Prelude.{◌≡◌, T};
ghost use Rattle.std.specs.Float.Ieee.Positive.{positive};
ghost use Rattle.ieee.specs.Fused.{fused_of};
ghost use Rattle.ieee.specs.Rows.{Gives};
ghost use Rattle.ieee.specs.Sqrt.{sqrt_of, ClosestRoot};
ghost use Rattle.math_exponential.specs.Density.{density_of};
ghost use Rattle.math_exponential.specs.ExactCases.{exact_cases};
ghost use Rattle.math_exponential.specs.Exp.{exp_of, exp_m1_of};
ghost use Rattle.math_elementary.specs.Ln.{significand_of, exponent_of, ExactSplit, ln_of};
ghost use Rattle.math_elementary.specs.Simple.{midpoint_of, signum_of, max_of, min_of};
ghost use Rattle.math_normal.specs.AsWritten.{norm_cdf_dual_as_written};
ghost use Rattle.math_normal.specs.Between.{Probability};
ghost use Rattle.math_normal.specs.NormCdf.{norm_cdf_of, norm_cdf_dual_of};

// a * b + c, rounded once.
#[unsafe(no_mangle)]
pub extern "C" fn calstwid_fused(a: f64, b: f64, c: f64) -> f64
    ensures { result ≡ fused_of a b c }
{
    ieee::fused(a, b, c)
}

// √x, rounded once.
#[unsafe(no_mangle)]
pub extern "C" fn calstwid_sqrt(x: f64) -> f64
    ensures value { result ≡ sqrt_of x }
    ensures closest { T (positive x) → ClosestRoot x result }
{
    ieee::sqrt(x)
}

#[unsafe(no_mangle)]
pub extern "C" fn calstwid_exp(x: f64) -> f64
    ensures value { result ≡ exp_of x }
    ensures exact { Gives exact_cases x result }
{
    math_exponential::exp(x)
}

#[unsafe(no_mangle)]
pub extern "C" fn calstwid_exp_m1(y: f64) -> f64
    ensures { result ≡ exp_m1_of y }
{
    math_exponential::exp_m1(y)
}

#[unsafe(no_mangle)]
pub extern "C" fn calstwid_ln(x: f64) -> f64
    ensures value { result ≡ ln_of x }
    ensures split { T (positive x) → ExactSplit x (significand_of x) (exponent_of x) }
{
    math_elementary::ln(x)
}

// The density of the normal distribution.
#[unsafe(no_mangle)]
pub extern "C" fn calstwid_norm_pdf(d: f64) -> f64
    ensures { result ≡ density_of d }
{
    math_exponential::norm_pdf(d)
}

// The normal distribution function with fused steps, as the f64 pricers take it.
#[unsafe(no_mangle)]
pub extern "C" fn calstwid_norm_cdf(x: f64) -> f64
    ensures value { result ≡ norm_cdf_of x }
    ensures between { Probability x result }
{
    math_normal::norm_cdf(x)
}

// The normal distribution function with a product and then a sum, as the DualFwd pricer takes it.
#[unsafe(no_mangle)]
pub extern "C" fn calstwid_norm_cdf_dual(x: f64) -> f64
    ensures value { result ≡ norm_cdf_dual_of x }
    ensures between { Probability x result }
    ensures as_written { result ≡ norm_cdf_dual_as_written x }
{
    math_normal::norm_cdf_dual(x)
}

// (a + b) / 2.
#[unsafe(no_mangle)]
pub extern "C" fn calstwid_midpoint(a: f64, b: f64) -> f64
    ensures { result ≡ midpoint_of a b }
{
    math_elementary::midpoint(a, b)
}

// 1 for +0, -1 for -0, a NaN for a NaN.
#[unsafe(no_mangle)]
pub extern "C" fn calstwid_signum(x: f64) -> f64
    ensures { result ≡ signum_of x }
{
    math_elementary::signum(x)
}

// The larger; a NaN is passed over.
#[unsafe(no_mangle)]
pub extern "C" fn calstwid_max(a: f64, b: f64) -> f64
    ensures { result ≡ max_of a b }
{
    math_elementary::max(a, b)
}

// The smaller; a NaN is passed over.
#[unsafe(no_mangle)]
pub extern "C" fn calstwid_min(a: f64, b: f64) -> f64
    ensures { result ≡ min_of a b }
{
    math_elementary::min(a, b)
}
