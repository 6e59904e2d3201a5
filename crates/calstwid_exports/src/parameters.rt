// parameters.rs: what a schedule of pillars gives.
ghost use Rattle.std.specs.Prelude.{◌≡◌, [], take};
ghost use Rattle.refusals.specs.Refusals.{reported, reported_price};
ghost use Rattle.hullwhite_parameters.specs.Parameters.{volatility_outcome, reached_outcome, piecewise_variance_outcome};
ghost use Rattle.calstwid_exports.specs.Reports.{count_report_of};

use super::reports;
use super::reports::CountReport;
use refusals::PriceReport;

#[unsafe(no_mangle)]
pub extern "C" fn calstwid_volatility(times: &[f64], sigmas: &[f64], t: f64) -> PriceReport
    ensures { result ≡ reported_price (volatility_outcome times.now sigmas.now t) }
{
    PriceReport::from(hullwhite_parameters::volatility(times, sigmas, t))
}

#[unsafe(no_mangle)]
pub extern "C" fn calstwid_hull_white_piecewise_variance(
    alpha: f64,
    times: &[f64],
    sigmas: &[f64],
    start: f64,
    end: f64,
) -> PriceReport
    ensures { result ≡ reported_price (piecewise_variance_outcome alpha times.now sigmas.now start end) }
{
    PriceReport::from(hullwhite_parameters::hull_white_piecewise_variance(
        alpha, times, sigmas, start, end,
    ))
}

// The pillar times at or before t are the first `count` of the caller's own list: those that `hullwhite_parameters::pillars_reached`
// hands back, as a part of the list that C has already.
#[unsafe(no_mangle)]
pub extern "C" fn calstwid_pillars_reached(times: &[f64], sigmas: &[f64], t: f64) -> CountReport
    ensures answer { result ≡ count_report_of (reached_outcome times.now sigmas.now t) }
    ensures part { take result.count times.now ≡ (reported [] (reached_outcome times.now sigmas.now t)).values }
    ensures as_volatility { result.answer ≡ (reported_price (volatility_outcome times.now sigmas.now t)).answer }
{
    let answer = hullwhite_parameters::reached_answer(times, sigmas, t);
    let part = hullwhite_parameters::reached_part(times, answer, t);
    reports::count_report(answer, part.len() as u64)
}
