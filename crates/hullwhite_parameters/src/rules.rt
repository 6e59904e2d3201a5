// Rules 1 to 7 for each sort of call: whether each applies, in document 01's order.
ghost use Rattle.std.specs.Prelude.{◌≡◌};
ghost use Rattle.refusals.specs.Refusals.{first_of};
ghost use Rattle.hullwhite_parameters.specs.Rules.{variance_rules, volatility_rules};

use refusals::{Faults, Refusal};

// Any finite alpha, and no pillars too.
pub fn variance_rules(pillars: Faults, alpha: f64, start: f64, end: f64) -> Result<(), Refusal>
    ensures { result ≡ first_of (variance_rules pillars alpha start end) }
{
    let finite = math_elementary::is_finite(alpha)
        & math_elementary::is_finite(start)
        & math_elementary::is_finite(end);
    refusals::first_of(&[
        Refusal::Size.when(pillars.size),
        Refusal::NotFinite.when(pillars.not_finite | !finite),
        Refusal::Order.when(pillars.order),
        Refusal::Times.when((start < 0.0) | (end <= start)),
        Refusal::Domain.when(pillars.domain),
    ])
}

pub fn volatility_rules(pillars: Faults, empty: bool, t: f64) -> Result<(), Refusal>
    ensures { result ≡ first_of (volatility_rules pillars empty t) }
{
    let finite = math_elementary::is_finite(t);
    refusals::first_of(&[
        Refusal::Size.when(pillars.size),
        Refusal::NotFinite.when(pillars.not_finite | !finite),
        Refusal::Order.when(pillars.order),
        Refusal::Times.when(t < 0.0),
        Refusal::Domain.when(pillars.domain),
        Refusal::Empty.when(empty),
    ])
}
