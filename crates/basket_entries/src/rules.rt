// Rules 1 to 7 over all entries of a basket.
ghost use Rattle.std.specs.Prelude.{◌≡◌};
ghost use Rattle.refusals.specs.Refusals.{first_of};
ghost use Rattle.basket_entries.specs.Entries.{volatility_type_of, size_wrong, numbers_wrong, times_wrong, domain_wrong, basket_rules};

use fit::VolatilityType;
use refusals::{Faults, Refusal, Test};

// How the type of a quote is lent: true is a normal one.
pub fn volatility_type_of(normal: bool) -> VolatilityType
    ensures { result ≡ volatility_type_of normal }
{
    if normal {
        VolatilityType::Normal
    } else {
        VolatilityType::Black
    }
}

pub fn size_wrong(
    normals: &[bool],
    strikes: &[f64],
    starts: &[f64],
    ends: &[f64],
    vols: &[f64],
) -> bool
    ensures { result ≡ size_wrong normals.now strikes.now starts.now ends.now vols.now }
{
    let n = normals.len();
    (64 < n) | (n != strikes.len()) | (n != starts.len()) | (n != ends.len()) | (n != vols.len())
}

pub fn numbers_wrong(strikes: &[f64], starts: &[f64], ends: &[f64], vols: &[f64]) -> bool
    ensures { result ≡ numbers_wrong strikes.now starts.now ends.now vols.now }
{
    let finite = refusals::all(strikes, Test::Finite)
        & refusals::all(starts, Test::Finite)
        & refusals::all(ends, Test::Finite)
        & refusals::all(vols, Test::Finite);
    !finite
}

// Whether an entry's start is not above 0, or its end not above its start.
pub fn times_wrong(starts: &[f64], ends: &[f64]) -> bool
    ensures { result ≡ times_wrong starts.now ends.now }
{
    for (start, end) in starts.iter().zip(ends) {
        if (*start <= 0.0) | (*end <= *start) {
            return true;
        }
    }
    false
}

// Whether an entry's volatility is not above 0, or the strike of a Black one.
pub fn domain_wrong(normals: &[bool], strikes: &[f64], vols: &[f64]) -> bool
    ensures { result ≡ domain_wrong normals.now strikes.now vols.now }
{
    for ((normal, strike), vol) in normals.iter().zip(strikes).zip(vols) {
        let vol_type = volatility_type_of(*normal);
        if (*vol <= 0.0) | fit::strike_wrong(vol_type, *strike) {
            return true;
        }
    }
    false
}

pub fn basket_rules(
    curve: Faults,
    alpha: f64,
    size: bool,
    numbers: bool,
    times: bool,
    domain: bool,
) -> Result<(), Refusal>
    ensures { result ≡ first_of (basket_rules curve alpha size numbers times domain) }
{
    let finite = math_elementary::is_finite(alpha);
    refusals::first_of(&[
        Refusal::Size.when(curve.size | size),
        Refusal::NotFinite.when(curve.not_finite | !finite | numbers),
        Refusal::MeanReversion.when(alpha <= 0.0),
        Refusal::Order.when(curve.order),
        Refusal::Times.when(times),
        Refusal::Domain.when(curve.domain | domain),
    ])
}
