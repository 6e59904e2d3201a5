// The critical rate of terms that are given by their coefficients, A and B.
ghost use Rattle.std.specs.Prelude.{◌≡◌, ◌≤◌, length};
ghost use Rattle.search_sum.specs.Sum.{coupon_sum};
ghost use Rattle.search.specs.Facts.{Searched};

use super::columns;
use search::{Root, Unfound};

// No rate changes a term's weight, coefficient × A, so the weights are worked once and the search runs over
// them. A caller that has asked rule 1 has an A for each coefficient, at most 64.
pub fn find_critical_rate_of(c: &[f64], a: &[f64], b: &[f64]) -> Result<Root, Unfound>
    requires { (length c.now ≤ 64) × (length a.now ≡ length c.now) }
    ensures { Searched (coupon_sum c.now a.now b.now) result }
{
    let n = c.len();
    let mut w = [0.0; 64];
    columns::weights(c, a, &mut w[..n]);
    search::critical_rate_of_weights(&w[..n], b)
}
