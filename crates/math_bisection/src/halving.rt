// One halving of a fit: which end the midpoint is put for, whether it is close enough to be the answer, and
// whether anything can still move.
ghost use Rattle.std.specs.Prelude.{◌≡◌, true};
ghost use Rattle.math_bisection.specs.Solve.{same_sign, close_enough, ends_moved_to};

use math_elementary::surely_same;

// The last two ends with their residuals.
#[derive(Clone, Copy, Default)]
pub struct Ends {
    pub low: f64,
    pub high: f64,
    pub low_residual: f64,
    pub high_residual: f64,
}

// Whether two residuals have equal signum; +0 and -0 have not.
pub fn same_sign(x: f64, y: f64) -> bool
    ensures { result ≡ same_sign x y }
{
    math_elementary::signum(x) == math_elementary::signum(y)
}

// Whether a residual is below 1e-12 in size.
pub fn is_close(residual: f64) -> bool
    ensures { result ≡ close_enough residual }
{
    math_elementary::abs(residual) < 1e-12
}

// The midpoint is put for the end whose residual has its sign.
pub fn moved(ends: Ends, sigma: f64, residual: f64) -> Ends
    ensures { result ≡ ends_moved_to ends sigma residual }
{
    if same_sign(residual, ends.low_residual) {
        Ends {
            low: sigma,
            high: ends.high,
            low_residual: residual,
            high_residual: ends.high_residual,
        }
    } else {
        Ends {
            low: ends.low,
            high: sigma,
            low_residual: ends.low_residual,
            high_residual: residual,
        }
    }
}

// Whether a halving surely left everything as it was: then no further one moves anything.
pub fn unmoved(x: Ends, y: Ends) -> bool
    ensures { result ≡ true → x ≡ y }
{
    surely_same(x.low, y.low)
        & surely_same(x.high, y.high)
        & surely_same(x.low_residual, y.low_residual)
        & surely_same(x.high_residual, y.high_residual)
}
