// Rules 1 and 2 on the terms.
ghost use Rattle.std.specs.Prelude.{◌≡◌};
ghost use Rattle.refusals.specs.Refusals.{first_of};
ghost use Rattle.pricer_critical_rate.specs.Find.{search_rules};

use refusals::{Refusal, Test};

pub fn search_rules(c: &[f64], a: &[f64], b: &[f64]) -> Result<(), Refusal>
    ensures { result ≡ first_of (search_rules c.now a.now b.now) }
{
    let size = (64 < c.len()) | (c.len() != a.len()) | (c.len() != b.len());
    let finite = refusals::all(c, Test::Finite)
        & refusals::all(a, Test::Finite)
        & refusals::all(b, Test::Finite);
    refusals::first_of(&[Refusal::Size.when(size), Refusal::NotFinite.when(!finite)])
}
