// parameters.rs, transition_variances: the variance over each of a number of steps of one length.
ghost use Rattle.std.specs.Prelude.{◌≡◌, [], ◌≤◌, length};
ghost use Rattle.refusals.specs.Refusals.{answer_of, answer_number, reported, first_of};
ghost use Rattle.hullwhite_transitions.specs.Written.{stored_of};
ghost use Rattle.hullwhite_transitions.specs.Transition.{transition_rules, step_variance, variances_of, transition_outcome};

use super::output;
use refusals::{Faults, Refusal};

pub fn transition_variances(
    alpha: f64,
    times: &[f64],
    sigmas: &[f64],
    steps: usize,
    time_step: f64,
    out: &mut [f64],
) -> Result<(), Refusal>
    ensures answer { result ≡ answer_of (transition_outcome alpha times.now sigmas.now steps time_step (length out.old)) }
    ensures output { out.new ≡ stored_of (transition_outcome alpha times.now sigmas.now steps time_step (length out.old)) out.old }
    ensures number { answer_number result ≡ (reported [] (transition_outcome alpha times.now sigmas.now steps time_step (length out.old))).answer }
{
    let pillars = refusals::pillar_faults(times, sigmas);
    transition_rules(
        pillars,
        times.len() == 0,
        alpha,
        steps,
        out.len(),
        time_step,
    )?;
    let mut work = [0.0; 1024];
    variances(alpha, times, sigmas, time_step, &mut work[..steps]);
    output::finish(&work[..steps], out)
}

fn transition_rules(
    pillars: Faults,
    empty: bool,
    alpha: f64,
    steps: usize,
    room: usize,
    time_step: f64,
) -> Result<(), Refusal>
    ensures { result ≡ first_of (transition_rules pillars empty alpha steps room time_step) }
{
    let finite = math_elementary::is_finite(alpha) & math_elementary::is_finite(time_step);
    refusals::first_of(&[
        Refusal::Size.when(pillars.size | (1024 < steps) | (room < steps)),
        Refusal::NotFinite.when(pillars.not_finite | !finite),
        Refusal::MeanReversion.when(alpha <= 0.0),
        Refusal::Order.when(pillars.order),
        Refusal::Times.when(time_step <= 0.0),
        Refusal::Domain.when(pillars.domain),
        Refusal::Empty.when(empty),
    ])
}

// The variance over one step.
fn step_variance(alpha: f64, times: &[f64], sigmas: &[f64], time_step: f64, step: u32) -> f64
    ensures { result ≡ step_variance alpha times.now sigmas.now time_step step }
{
    let start = (step as f64) * time_step;
    hullwhite_parameters::hull_white_piecewise_variance_of(
        alpha,
        times,
        sigmas,
        start,
        start + time_step,
    )
}

// The variances over as many steps as the list has places: a caller behind rule 1 lends at most 1,024.
fn variances(alpha: f64, times: &[f64], sigmas: &[f64], time_step: f64, out: &mut [f64])
    requires { length out.old ≤ 1024 }
    ensures { out.new ≡ variances_of alpha times.now sigmas.now time_step 0 (length out.old) }
{
    for (i, x) in out.iter_mut().enumerate() {
        *x = step_variance(alpha, times, sigmas, time_step, i as u32);
    }
}
