// Rules 1 to 7 for each sort of call: whether each applies, in document 01's order.
ghost use Rattle.std.specs.Prelude.{◌≡◌};
ghost use Rattle.refusals.specs.Refusals.{first_of};
ghost use Rattle.quotes.specs.Rules.{quote_rules, annuity_rules};

use refusals::{Faults, Refusal};

// A quoted volatility's price; a Black strike is above 0, a normal one need not be.
pub fn quote_rules(black: bool, fwd: f64, strike: f64, vol: f64, tau: f64) -> Result<(), Refusal>
    ensures { result ≡ first_of (quote_rules black fwd strike vol tau) }
{
    let finite = math_elementary::is_finite(fwd)
        & math_elementary::is_finite(strike)
        & math_elementary::is_finite(vol)
        & math_elementary::is_finite(tau);
    refusals::first_of(&[
        Refusal::NotFinite.when(!finite),
        Refusal::Times.when(tau <= 0.0),
        Refusal::Domain.when((vol <= 0.0) | (black & (strike <= 0.0))),
    ])
}

pub fn annuity_rules(curve: Faults, coupons: Faults) -> Result<(), Refusal>
    ensures { result ≡ first_of (annuity_rules curve coupons) }
{
    refusals::first_of(&[
        Refusal::Size.when(curve.size | coupons.size),
        Refusal::NotFinite.when(curve.not_finite | coupons.not_finite),
        Refusal::Order.when(curve.order),
        Refusal::Domain.when(curve.domain),
    ])
}
