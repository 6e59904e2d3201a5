// parameters.rs: what a schedule of pillars gives: the pillars up to a time, the variance over an
// interval, and the volatility at a time (`vol` of hullwhitecalibration.rs).
ghost use Rattle.std.specs.Prelude.{◌≡◌, [], Ok};
ghost use Rattle.refusals.specs.Refusals.{Priced, answer_of, value_or, first_of, after};
ghost use Rattle.curve.specs.Lookups.{up_to};
ghost use Rattle.hullwhite_parameters.specs.Parameters.{rules_at, volatility_found, volatility_outcome, lent, ReachedIs, piecewise_variance_outcome};

use super::{rules, variance};
use refusals::Refusal;

pub fn volatility(times: &[f64], sigmas: &[f64], t: f64) -> Result<f64, Refusal>
    ensures { Priced result (volatility_outcome times.now sigmas.now t) }
{
    let pillars = refusals::pillar_faults(times, sigmas);
    rules::volatility_rules(pillars, times.len() == 0, t)?;
    volatility_found(times, sigmas, t)
}

fn volatility_found(times: &[f64], sigmas: &[f64], t: f64) -> Result<f64, Refusal>
    ensures { result ≡ volatility_found times.now sigmas.now t }
{
    let Some(sigma) = curve::volatility_at(times, sigmas, t) else {
        return Err(Refusal::Empty);
    };
    refusals::served(sigma)
}

// The pillar times at or before t, as a part of the caller's own list; refused where `volatility` is on the same lists:
// `reached_answer` and `reached_part`, as one.
pub fn pillars_reached<'a>(times: &'a [f64], sigmas: &[f64], t: f64) -> Result<&'a [f64], Refusal>
    ensures { ReachedIs (answer_of (lent result)) (value_or [] (lent result)) times.now sigmas.now t }
{
    let answer = reached_answer(times, sigmas, t);
    let part = reached_part(times, answer, t);
    match answer {
        Ok(()) => Ok(part),
        Err(refusal) => Err(refusal),
    }
}

// The answer by itself.
pub fn reached_answer(times: &[f64], sigmas: &[f64], t: f64) -> Result<(), Refusal>
    ensures { result ≡ first_of (rules_at times.now sigmas.now t) }
{
    rules::volatility_rules(refusals::pillar_faults(times, sigmas), times.len() == 0, t)
}

// The part by itself, beside the answer that `reached_answer` gave.
pub fn reached_part(times: &[f64], answer: Result<(), Refusal>, t: f64) -> &[f64]
    ensures { result.now ≡ value_or [] (after answer (Ok (up_to t times.now))) }
{
    match answer {
        Err(_) => &times[..0],
        Ok(()) => curve::reached(times, t),
    }
}

pub fn hull_white_piecewise_variance(
    alpha: f64,
    times: &[f64],
    sigmas: &[f64],
    start: f64,
    end: f64,
) -> Result<f64, Refusal>
    ensures { Priced result (piecewise_variance_outcome alpha times.now sigmas.now start end) }
{
    let pillars = refusals::pillar_faults(times, sigmas);
    rules::variance_rules(pillars, alpha, start, end)?;
    refusals::served(variance::hull_white_piecewise_variance_of(alpha, times, sigmas, start, end))
}
