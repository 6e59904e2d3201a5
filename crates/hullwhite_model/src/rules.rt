// Rules 1 to 7 for theta and the forward rate: whether each applies, in document 01's order.
ghost use Rattle.std.specs.Prelude.{◌≡◌};
ghost use Rattle.refusals.specs.Refusals.{first_of};
ghost use Rattle.hullwhite_model.specs.Rules.{no_faults, theta_rules, forward_rules};

use refusals::{Faults, Refusal};

// The faults of a list that the call does not use.
pub fn no_faults() -> Faults
    ensures { result ≡ no_faults }
{
    Faults {
        size: false,
        not_finite: false,
        order: false,
        domain: false,
    }
}

pub fn theta_rules(curve: Faults, alpha: f64, t: f64, sigma: f64) -> Result<(), Refusal>
    ensures { result ≡ first_of (theta_rules curve alpha t sigma) }
{
    let finite = math_elementary::is_finite(alpha)
        & math_elementary::is_finite(t)
        & math_elementary::is_finite(sigma);
    refusals::first_of(&[
        Refusal::Size.when(curve.size),
        Refusal::NotFinite.when(curve.not_finite | !finite),
        Refusal::MeanReversion.when(alpha <= 0.0),
        Refusal::Order.when(curve.order),
        Refusal::Times.when(t < 0.0),
        Refusal::Domain.when((sigma < 0.0) | curve.domain),
    ])
}

pub fn forward_rules(curve: Faults, t: f64) -> Result<(), Refusal>
    ensures { result ≡ first_of (forward_rules curve t) }
{
    let finite = math_elementary::is_finite(t);
    refusals::first_of(&[
        Refusal::Size.when(curve.size),
        Refusal::NotFinite.when(curve.not_finite | !finite),
        Refusal::Order.when(curve.order),
        Refusal::Times.when(t < 0.0),
        Refusal::Domain.when(curve.domain),
    ])
}
