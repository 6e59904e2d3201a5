// implicit_critical_rate: the search over terms, and one Newton step from the rate that it finds.
ghost use Rattle.std.specs.Prelude.{◌≡◌, length};
ghost use Rattle.refusals.specs.Refusals.{reported, following};
ghost use Rattle.search.specs.Values.{critical_outcome};
ghost use Rattle.pricer_critical_rate.specs.Implicit.{no_implicit_rate, finishing_implicit, stepped_from, implicit_outcome};
ghost use Rattle.pricer_critical_rate.specs.Demand3.{ImplicitRootLocated, ImplicitNoBracketExactly};

use super::rules;
use refusals::Refusal;
use search::Root;

// The critical rate after the Newton step, and where the root lies: the rate before the step, the final bracket, and the rungs.
#[derive(Clone, Copy, Default)]
pub struct ImplicitRate {
    pub after_step: f64,
    pub root: Root,
}

pub fn implicit_critical_rate(
    coefficients: &[f64],
    affines: &[f64],
    b: &[f64],
) -> Result<ImplicitRate, Refusal>
    ensures answer { result ≡ implicit_outcome coefficients.now affines.now b.now }
    ensures rooted { ImplicitRootLocated coefficients.now affines.now b.now result }
    ensures bracket { ImplicitNoBracketExactly coefficients.now affines.now b.now result }
    ensures report { reported no_implicit_rate result ≡ reported no_implicit_rate (implicit_outcome coefficients.now affines.now b.now) }
{
    rules::search_rules(coefficients, affines, b)?;
    let root = hullwhite_terms::find_critical_rate_of(coefficients, affines, b)?;
    let after_step = pricer_formulas::implicit_critical_rate_of(
        root.rate,
        coefficients,
        affines,
        b,
    )?;
    finished(ImplicitRate { after_step, root })
}

// Rule 13 looks at every float of the answer.
fn finished(found: ImplicitRate) -> Result<ImplicitRate, Refusal>
    ensures { result ≡ finishing_implicit found }
{
    if found.root.is_finite() & math_elementary::is_finite(found.after_step) {
        Ok(found)
    } else {
        Err(Refusal::Overflow)
    }
}
