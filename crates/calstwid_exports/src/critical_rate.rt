// closedformhullwhiteswaptionpricer.rs: the critical rate of given terms.
ghost use Rattle.std.specs.Prelude.{◌≡◌};
ghost use Rattle.pricer_critical_rate.specs.Find.{find_outcome};
ghost use Rattle.pricer_critical_rate.specs.Implicit.{implicit_outcome};
ghost use Rattle.pricer_critical_rate.specs.Demand3.{RateRootLocated, RateNoBracketExactly, ImplicitRootLocated, ImplicitNoBracketExactly};
ghost use Rattle.calstwid_exports.specs.Reports.{Told, critical_rate_report_of, implicit_rate_report_of};

use super::reports::{CriticalRateReport, ImplicitRateReport};

#[unsafe(no_mangle)]
pub extern "C" fn calstwid_find_critical_rate(
    coefficients: &[f64],
    affines: &[f64],
    b: &[f64],
) -> CriticalRateReport
    ensures answer { result ≡ critical_rate_report_of (find_outcome coefficients.now affines.now b.now) }
    ensures rooted { Told critical_rate_report_of result (RateRootLocated coefficients.now affines.now b.now) }
    ensures bracket { Told critical_rate_report_of result (RateNoBracketExactly coefficients.now affines.now b.now) }
{
    CriticalRateReport::from(pricer_critical_rate::find_critical_rate(coefficients, affines, b))
}

#[unsafe(no_mangle)]
pub extern "C" fn calstwid_implicit_critical_rate(
    coefficients: &[f64],
    affines: &[f64],
    b: &[f64],
) -> ImplicitRateReport
    ensures answer { result ≡ implicit_rate_report_of (implicit_outcome coefficients.now affines.now b.now) }
    ensures rooted { Told implicit_rate_report_of result (ImplicitRootLocated coefficients.now affines.now b.now) }
    ensures bracket { Told implicit_rate_report_of result (ImplicitNoBracketExactly coefficients.now affines.now b.now) }
{
    ImplicitRateReport::from(pricer_critical_rate::implicit_critical_rate(coefficients, affines, b))
}
