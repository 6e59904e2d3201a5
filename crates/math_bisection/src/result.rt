// What a fit gives back.
ghost use Rattle.std.specs.Prelude.{◌≡◌};
ghost use Rattle.refusals.specs.Refusals.{following};
ghost use Rattle.math_bisection.specs.Result.{finishing_fit};

use super::halving::Ends;
use refusals::Refusal;

// The volatility fitted, whether it converged, the halvings made (200 where it did not converge), the
// residual at the volatility, and the last two ends with theirs.
#[derive(Clone, Copy, Default)]
pub struct Fit {
    pub sigma: f64,
    pub converged: bool,
    pub halvings: u64,
    pub residual: f64,
    pub ends: Ends,
}

// Rule 13 looks at every float of the answer. A fit has no root of a search in it, so `search::Root::is_finite` does
// not serve here: its ends bear residuals, not coupon sums.
pub fn finished(fitted: Result<Fit, Refusal>) -> Result<Fit, Refusal>
    ensures { result ≡ following fitted finishing_fit }
{
    let Ok(fit) = fitted else {
        return fitted;
    };
    let ends = fit.ends;
    let finite = math_elementary::is_finite(fit.sigma)
        & math_elementary::is_finite(fit.residual)
        & math_elementary::is_finite(ends.low)
        & math_elementary::is_finite(ends.high)
        & math_elementary::is_finite(ends.low_residual)
        & math_elementary::is_finite(ends.high_residual);
    if finite {
        fitted
    } else {
        Err(Refusal::Overflow)
    }
}
