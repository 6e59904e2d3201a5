// A ladder of rates: 61 rungs, each twice as far out as the one before, left at the first good one.
ghost use Rattle.std.specs.Prelude.{◌≡◌};
ghost use Rattle.search_sum.specs.Sum.{weighted_sum};
ghost use Rattle.search.specs.Rate.{rate_at, good, ladder_of};
ghost use Rattle.search.specs.declared.Unfound.TheVariants.{NotANumber};

use super::Unfound;

// The first rung is number 0.
const LAST_RUNG: u64 = 60;

// A rung: its number, its rate and the sum there.
#[derive(Clone, Copy)]
pub struct Rung {
    pub number: u64,
    pub rate: f64,
    pub sum: f64,
}

// A sum that is NaN, for which a search stops wherever it meets one.
#[derive(Clone, Copy, Debug, PartialEq, Eq)]
pub struct NanSum;

impl From<NanSum> for Unfound {
    ghost from_gives = { λ _ unfound. unfound ≡ NotANumber };

    fn from(_: NanSum) -> Unfound {
        Unfound::NotANumber
    }
}

// The rate of rung 0.
fn first_rate(below: bool) -> f64
    ensures { result ≡ rate_at below 0 }
{
    if below { -0.5 } else { 0.5 }
}

// Whether a sum makes its rate good: at least 1 on the lower ladder, at most 1 on the upper.
fn is_good(below: bool, sum: f64) -> bool
    ensures { result ≡ good below sum }
{
    if below { sum >= 1.0 } else { sum <= 1.0 }
}

// The first good rung of the lower ladder where `below` is true, else of the upper one, if it has one. A NaN is
// asked for before the rest: it is neither good nor a reason to go on.
pub fn climb(weights: &[f64], b: &[f64], below: bool) -> Result<Option<Rung>, NanSum>
    ensures { result ≡ ladder_of (weighted_sum weights.now b.now) below 61 }
{
    let mut rate = first_rate(below);
    let mut number: u64 = 0;
    // Document 01 has the ladder left from inside: the loop yields what it comes to by break.
    let climbed = loop {
        let sum = search_sum::coupon_sum(weights, b, rate);
        let is_nan = sum != sum;
        if is_nan {
            break Err(NanSum);
        }
        if is_good(below, sum) {
            break Ok(Some(Rung { number, rate, sum }));
        }
        if number == LAST_RUNG {
            break Ok(None);
        }
        rate = rate * 2.0;
        number += 1;
    };
    climbed
}
