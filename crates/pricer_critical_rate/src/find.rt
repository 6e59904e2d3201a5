// find_critical_rate: the search over terms.
ghost use Rattle.std.specs.Prelude.{◌≡◌};
ghost use Rattle.refusals.specs.Refusals.{reported, following};
ghost use Rattle.search.specs.Values.{no_root, critical_outcome};
ghost use Rattle.pricer_critical_rate.specs.Find.{finishing_rate, find_outcome};
ghost use Rattle.pricer_critical_rate.specs.Demand3.{RateRootLocated, RateNoBracketExactly};

use super::rules;
use refusals::Refusal;
use search::{Root, Unfound};

// The critical rate of terms, at most 64: an entry of each list a term. No terms have the sum 0 at every rate, and the
// lower ladder no good one.
pub fn find_critical_rate(coefficients: &[f64], affines: &[f64], b: &[f64]) -> Result<Root, Refusal>
    ensures answer { result ≡ find_outcome coefficients.now affines.now b.now }
    ensures rooted { RateRootLocated coefficients.now affines.now b.now result }
    ensures bracket { RateNoBracketExactly coefficients.now affines.now b.now result }
    ensures report { reported no_root result ≡ reported no_root (find_outcome coefficients.now affines.now b.now) }
{
    rules::search_rules(coefficients, affines, b)?;
    // Document 01 has the answer of a search taken apart by let .. else.
    let found = hullwhite_terms::find_critical_rate_of(coefficients, affines, b);
    if let Err(Unfound::NotANumber) = found {
        return Err(Refusal::NanReached);
    }
    let Ok(root) = found else {
        return Err(Refusal::NoBracket);
    };
    finished(root)
}

// Rule 13 looks at every float of the answer.
fn finished(root: Root) -> Result<Root, Refusal>
    ensures { result ≡ finishing_rate root }
{
    if root.is_finite() {
        Ok(root)
    } else {
        Err(Refusal::Overflow)
    }
}
