// The critical rate of a list of coupon terms, `find_critical_rate` of the Rust: two ladders of
// rates, and 200 halvings between their first good rungs. One search serves every kind of swaption.
#![tactic(auto)]

ghost use Rattle.std.specs.Prelude.{◌≡◌};
ghost use Rattle.search_sum.specs.Sum.{weighted_sum};
ghost use Rattle.search.specs.Values.{root_finite, refusal_by};
ghost use Rattle.search.specs.Facts.{Searched};

mod halving;
mod ladder;

use refusals::Refusal;

// Two rates with their sums.
#[derive(Clone, Copy, Default)]
pub struct Bracket {
    pub lower: f64,
    pub upper: f64,
    pub lower_sum: f64,
    pub upper_sum: f64,
}

// Where a critical rate lies: the rate, its final bracket, and the rungs that the search left its ladders at.
#[derive(Clone, Copy, Default)]
pub struct Root {
    pub rate: f64,
    pub bracket: Bracket,
    pub low_rung: u64,
    pub high_rung: u64,
}

impl Root {
    // Whether every float of it is finite, as rule 13 asks where the root is part of an answer.
    pub fn is_finite(self) -> bool
        ensures { result ≡ root_finite self.rate self.bracket }
    {
        let bracket = self.bracket;
        math_elementary::is_finite(self.rate)
            & math_elementary::is_finite(bracket.lower)
            & math_elementary::is_finite(bracket.upper)
            & math_elementary::is_finite(bracket.lower_sum)
            & math_elementary::is_finite(bracket.upper_sum)
    }
}

// Why a search finds no rate: a sum that it reached is NaN, or one of its ladders has no good rate.
#[derive(Clone, Copy, Debug, PartialEq, Eq)]
pub enum Unfound {
    NotANumber,
    NoBracket,
}

impl From<Unfound> for Refusal {
    ghost from_gives = { λ unfound refusal. refusal ≡ refusal_by unfound };

    fn from(unfound: Unfound) -> Refusal {
        match unfound {
            Unfound::NotANumber => Refusal::NanReached,
            Unfound::NoBracket => Refusal::NoBracket,
        }
    }
}

// The search over terms that are given by their weights, coefficient × A, and their B. Both ladders
// are run before a missing rung is refused, since a NaN on the upper one comes first.
pub fn critical_rate_of_weights(weights: &[f64], b: &[f64]) -> Result<Root, Unfound>
    ensures { Searched (weighted_sum weights.now b.now) result }
{
    let low = ladder::climb(weights, b, true)?;
    let high = ladder::climb(weights, b, false)?;
    let (Some(low), Some(high)) = (low, high) else {
        return Err(Unfound::NoBracket);
    };
    let start = Bracket {
        lower: low.rate,
        upper: high.rate,
        lower_sum: low.sum,
        upper_sum: high.sum,
    };
    let bracket = halving::halvings(weights, b, start)?;
    Ok(Root {
        rate: math_elementary::midpoint(bracket.lower, bracket.upper),
        bracket,
        low_rung: low.number,
        high_rung: high.number,
    })
}
