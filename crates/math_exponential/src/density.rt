// The density of the normal distribution.
ghost use Rattle.std.specs.Prelude.{◌≡◌};
ghost use Rattle.math_exponential.specs.Density.{density_of};

use super::exponential;

// √(2π) as norm_cdf.rs prints it.
pub const SQRT_2PI: f64 = 2.5066282746310005;

pub fn norm_pdf(d: f64) -> f64
    ensures { result ≡ density_of d }
{
    exponential::exp((-0.5 * d) * d) / SQRT_2PI
}
