// Rules 1 to 7 for a call with an option time and an end: whether each applies, in document 01's order.
ghost use Rattle.std.specs.Prelude.{◌≡◌};
ghost use Rattle.refusals.specs.Refusals.{first_of};
ghost use Rattle.hullwhite_options.specs.Rules.{option_rules};

use refusals::{Faults, Refusal};

// Calls with an option time t and a bond or end time; `other` is a further number that the call uses, 0
// where there is none.
pub fn option_rules(
    curve: Faults,
    alpha: f64,
    t: f64,
    end: f64,
    sigma: f64,
    other: f64,
) -> Result<(), Refusal>
    ensures { result ≡ first_of (option_rules curve alpha t end sigma other) }
{
    let finite = math_elementary::is_finite(alpha)
        & math_elementary::is_finite(t)
        & math_elementary::is_finite(end)
        & math_elementary::is_finite(sigma)
        & math_elementary::is_finite(other);
    refusals::first_of(&[
        Refusal::Size.when(curve.size),
        Refusal::NotFinite.when(curve.not_finite | !finite),
        Refusal::MeanReversion.when(alpha <= 0.0),
        Refusal::Order.when(curve.order),
        Refusal::Times.when((t < 0.0) | (end <= t)),
        Refusal::Domain.when((sigma < 0.0) | curve.domain),
    ])
}
