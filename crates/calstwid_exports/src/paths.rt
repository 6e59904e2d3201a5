// Lists that are written: the variances of equal steps, a short-rate path, centred in two ways and on listed draws or
// those of a seed, and such draws alone.
ghost use Rattle.std.specs.Prelude.{◌≡◌, length};
ghost use Rattle.refusals.specs.Refusals.{value_or};
ghost use Rattle.draws.specs.Draws.{reached_by, draws_outcome};
ghost use Rattle.hullwhite_transitions.specs.Written.{stored_of};
ghost use Rattle.hullwhite_transitions.specs.Transition.{transition_outcome};
ghost use Rattle.hullwhite_points.specs.declared.walk.Centre.TheVariants.{StateVariance, Published};
ghost use Rattle.hullwhite_paths.specs.Generate.{generate_outcome};
ghost use Rattle.hullwhite_paths.specs.Seeded.{seeded_outcome};
ghost use Rattle.calstwid_exports.specs.Reports.{count_report_of, draws_report_of};

use super::reports;
use super::reports::{CountReport, DrawsReport};
use hullwhite_points::Centre;

// The values are written over the front of `out`, as many as there are steps; a refusal leaves it as it was.
#[unsafe(no_mangle)]
pub extern "C" fn calstwid_transition_variances(
    alpha: f64,
    times: &[f64],
    sigmas: &[f64],
    steps: usize,
    time_step: f64,
    out: &mut [f64],
) -> CountReport
    ensures answer { result ≡ count_report_of (transition_outcome alpha times.now sigmas.now steps time_step (length out.old)) }
    ensures output { out.new ≡ stored_of (transition_outcome alpha times.now sigmas.now steps time_step (length out.old)) out.old }
{
    let answer = hullwhite_transitions::transition_variances(
        alpha, times, sigmas, steps, time_step, out,
    );
    reports::count_report(answer, steps as u64)
}

// Kind 12: a rate a grid point is written over the front of `out`; a refusal leaves it as it was.
#[unsafe(no_mangle)]
pub extern "C" fn calstwid_generate(
    alpha: f64,
    pillars: &[f64],
    sigmas: &[f64],
    times: &[f64],
    factors: &[f64],
    grid: &[f64],
    draws: &[f64],
    out: &mut [f64],
) -> CountReport
    ensures answer { result ≡ count_report_of (generate_outcome StateVariance alpha pillars.now sigmas.now times.now factors.now grid.now draws.now (length out.old)) }
    ensures output { out.new ≡ stored_of (generate_outcome StateVariance alpha pillars.now sigmas.now times.now factors.now grid.now draws.now (length out.old)) out.old }
{
    listed(
        Centre::StateVariance,
        alpha,
        pillars,
        sigmas,
        times,
        factors,
        grid,
        draws,
        out,
    )
}

// Kind 13: the same, centred as published.
#[unsafe(no_mangle)]
pub extern "C" fn calstwid_generate_published(
    alpha: f64,
    pillars: &[f64],
    sigmas: &[f64],
    times: &[f64],
    factors: &[f64],
    grid: &[f64],
    draws: &[f64],
    out: &mut [f64],
) -> CountReport
    ensures answer { result ≡ count_report_of (generate_outcome Published alpha pillars.now sigmas.now times.now factors.now grid.now draws.now (length out.old)) }
    ensures output { out.new ≡ stored_of (generate_outcome Published alpha pillars.now sigmas.now times.now factors.now grid.now draws.now (length out.old)) out.old }
{
    listed(
        Centre::Published,
        alpha,
        pillars,
        sigmas,
        times,
        factors,
        grid,
        draws,
        out,
    )
}

// Kind 12 on the draws of a seed: the state that they reach is told too, from which the next path may go on.
#[unsafe(no_mangle)]
pub extern "C" fn calstwid_generate_seeded(
    alpha: f64,
    pillars: &[f64],
    sigmas: &[f64],
    times: &[f64],
    factors: &[f64],
    grid: &[f64],
    seed: u64,
    out: &mut [f64],
) -> DrawsReport
    ensures answer { result ≡ draws_report_of (seeded_outcome StateVariance alpha pillars.now sigmas.now times.now factors.now grid.now seed (length out.old)) (reached_by (length grid.now) seed) }
    ensures output { out.new ≡ stored_of (seeded_outcome StateVariance alpha pillars.now sigmas.now times.now factors.now grid.now seed (length out.old)) out.old }
{
    seeded(
        Centre::StateVariance,
        alpha,
        pillars,
        sigmas,
        times,
        factors,
        grid,
        seed,
        out,
    )
}

// Kind 13 on the draws of a seed.
#[unsafe(no_mangle)]
pub extern "C" fn calstwid_generate_published_seeded(
    alpha: f64,
    pillars: &[f64],
    sigmas: &[f64],
    times: &[f64],
    factors: &[f64],
    grid: &[f64],
    seed: u64,
    out: &mut [f64],
) -> DrawsReport
    ensures answer { result ≡ draws_report_of (seeded_outcome Published alpha pillars.now sigmas.now times.now factors.now grid.now seed (length out.old)) (reached_by (length grid.now) seed) }
    ensures output { out.new ≡ stored_of (seeded_outcome Published alpha pillars.now sigmas.now times.now factors.now grid.now seed (length out.old)) out.old }
{
    let centre = Centre::Published;
    seeded(
        centre, alpha, pillars, sigmas, times, factors, grid, seed, out,
    )
}

// The draws of a seed fill `out`; a refusal leaves it as it was.
#[unsafe(no_mangle)]
pub extern "C" fn calstwid_draws(seed: u64, out: &mut [f64]) -> DrawsReport
    ensures answer { result ≡ draws_report_of (draws_outcome seed (length out.old)) (reached_by (length out.old) seed) }
    ensures output { out.new ≡ value_or out.old (draws_outcome seed (length out.old)) }
{
    let count = out.len() as u64;
    let drawn = draws::stated_draws(seed, out);
    reports::draws_report(drawn, count)
}

// A path on listed draws, of either centre.
fn listed(
    centre: Centre,
    alpha: f64,
    pillars: &[f64],
    sigmas: &[f64],
    times: &[f64],
    factors: &[f64],
    grid: &[f64],
    draws: &[f64],
    out: &mut [f64],
) -> CountReport
    ensures answer { result ≡ count_report_of (generate_outcome centre alpha pillars.now sigmas.now times.now factors.now grid.now draws.now (length out.old)) }
    ensures output { out.new ≡ stored_of (generate_outcome centre alpha pillars.now sigmas.now times.now factors.now grid.now draws.now (length out.old)) out.old }
{
    let answer = hullwhite_paths::generate(
        centre, alpha, pillars, sigmas, times, factors, grid, draws, out,
    );
    reports::count_report(answer, grid.len() as u64)
}

// A path on the draws of a seed, of either centre.
fn seeded(
    centre: Centre,
    alpha: f64,
    pillars: &[f64],
    sigmas: &[f64],
    times: &[f64],
    factors: &[f64],
    grid: &[f64],
    seed: u64,
    out: &mut [f64],
) -> DrawsReport
    ensures answer { result ≡ draws_report_of (seeded_outcome centre alpha pillars.now sigmas.now times.now factors.now grid.now seed (length out.old)) (reached_by (length grid.now) seed) }
    ensures output { out.new ≡ stored_of (seeded_outcome centre alpha pillars.now sigmas.now times.now factors.now grid.now seed (length out.old)) out.old }
{
    let drawn = hullwhite_paths::generate_seeded(
        centre, alpha, pillars, sigmas, times, factors, grid, seed, out,
    );
    reports::draws_report(drawn, grid.len() as u64)
}
