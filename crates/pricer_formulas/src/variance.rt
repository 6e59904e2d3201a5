// The state's deviation at the option time, and A of each term by the state's variance.
ghost use Rattle.std.specs.Prelude.{◌≡◌, length};
ghost use Rattle.pricer_formulas.specs.Affine.{pricer_deviation_of, affine_aOf, affine_aList_of};

// The root of the variance; 0 where there is none to take.
pub fn pricer_deviation(variance: f64) -> f64
    ensures { result ≡ pricer_deviation_of variance }
{
    if variance > 0.0 {
        ieee::sqrt(variance)
    } else {
        0.0
    }
}

fn affine_a(variance: f64, forward: f64, p_t: f64, b: f64, p: f64) -> f64
    ensures { result ≡ affine_aOf variance forward p_t b p }
{
    let adjustment = variance * (0.5 * b * b);
    math_exponential::exp(math_elementary::ln(p / p_t) + forward * b - adjustment)
}

// A of each term. A caller that has worked the terms has a factor for each B, and lends a place for each A.
pub fn affine_a_list(variance: f64, forward: f64, p_t: f64, b: &[f64], p: &[f64], out: &mut [f64])
    requires { (length out.old ≡ length b.now) × (length p.now ≡ length b.now) }
    ensures { out.new ≡ affine_aList_of variance forward p_t b.now p.now }
{
    for i in 0..b.len() {
        out[i] = affine_a(variance, forward, p_t, b[i], p[i]);
    }
}
