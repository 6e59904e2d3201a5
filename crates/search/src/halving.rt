// The halvings of a bracket.
ghost use Rattle.std.specs.Prelude.{◌≡◌, true};
ghost use Rattle.search_sum.specs.Sum.{weighted_sum};
ghost use Rattle.search.specs.Rate.{halve_of, halvings_of};

use super::Bracket;
use super::ladder::NanSum;
use math_elementary::surely_same;

const HALVINGS: u64 = 200;

// One halving. A sum above 1 has the root above it, so the midpoint becomes the lower end.
fn halve(weights: &[f64], b: &[f64], bracket: Bracket) -> Result<Bracket, NanSum>
    ensures { result ≡ halve_of (weighted_sum weights.now b.now) bracket }
{
    let rate = math_elementary::midpoint(bracket.lower, bracket.upper);
    let sum = search_sum::coupon_sum(weights, b, rate);
    if sum != sum {
        return Err(NanSum);
    }
    if sum > 1.0 {
        Ok(Bracket {
            lower: rate,
            upper: bracket.upper,
            lower_sum: sum,
            upper_sum: bracket.upper_sum,
        })
    } else {
        Ok(Bracket {
            lower: bracket.lower,
            upper: rate,
            lower_sum: bracket.lower_sum,
            upper_sum: sum,
        })
    }
}

// Whether two brackets surely have the same ends.
fn same_ends(x: Bracket, y: Bracket) -> bool
    ensures { result ≡ true → (x.lower ≡ y.lower) × (x.upper ≡ y.upper) }
{
    surely_same(x.lower, y.lower) && surely_same(x.upper, y.upper)
}

// 200 halvings. After one that leaves the ends as they were, no further one changes anything: most
// searches stop there, near the 60th.
pub fn halvings(weights: &[f64], b: &[f64], start: Bracket) -> Result<Bracket, NanSum>
    ensures { result ≡ halvings_of (weighted_sum weights.now b.now) 200 start }
{
    let mut bracket = start;
    for _ in 0..HALVINGS {
        let next = halve(weights, b, bracket)?;
        if same_ends(next, bracket) {
            return Ok(next);
        }
        bracket = next;
    }
    Ok(bracket)
}
