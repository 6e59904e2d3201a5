// hullwhitemodel.rs, generate: a short-rate path over a grid of times, from one standard-normal draw a
// point, listed or of a seed, centred as the Rust has it (kind 12) or as published (kind 13).
ghost use Rattle.std.specs.Prelude.{◌≡◌, true, [], ◌≤◌, eqb, ltb, length};
ghost use Rattle.refusals.specs.Refusals.{answer_of, answer_number, reported, first_of, following};
ghost use Rattle.refusals.specs.Checks.{in_order};
ghost use Rattle.refusals.specs.Faults.{curve_faults};
ghost use Rattle.draws.specs.Draws.{reached_by, reaching};
ghost use Rattle.hullwhite_points.specs.Path.{start_state, path_from};
ghost use Rattle.hullwhite_transitions.specs.Written.{stored_of, finishing_list};
ghost use Rattle.hullwhite_paths.specs.Generate.{several_for, starts_below, generate_outcome};
ghost use Rattle.hullwhite_paths.specs.Seeded.{seeded_rules, seeded_outcome};

use hullwhite_points::Centre;
use refusals::{Faults, Refusal};

// Kinds 12 and 13, by the centre: pillars (times and sigmas), the curve, and the grid (times and draws); `out`
// receives a rate a grid point.
pub fn generate(
    centre: Centre,
    alpha: f64,
    pillars: &[f64],
    sigmas: &[f64],
    times: &[f64],
    factors: &[f64],
    grid: &[f64],
    draws: &[f64],
    out: &mut [f64],
) -> Result<(), Refusal>
    ensures answer { result ≡ answer_of (generate_outcome centre alpha pillars.now sigmas.now times.now factors.now grid.now draws.now (length out.old)) }
    ensures output { out.new ≡ stored_of (generate_outcome centre alpha pillars.now sigmas.now times.now factors.now grid.now draws.now (length out.old)) out.old }
    ensures number { answer_number result ≡ (reported [] (generate_outcome centre alpha pillars.now sigmas.now times.now factors.now grid.now draws.now (length out.old))).answer }
{
    let curve = refusals::curve_faults(times, factors);
    generate_on(
        centre, curve, alpha, pillars, sigmas, times, factors, grid, draws, out,
    )
}

// The same on a curve whose faults are known: a caller has worked them on these very lists, for this call or
// once for many.
pub fn generate_on(
    centre: Centre,
    curve: Faults,
    alpha: f64,
    pillars: &[f64],
    sigmas: &[f64],
    times: &[f64],
    factors: &[f64],
    grid: &[f64],
    draws: &[f64],
    out: &mut [f64],
) -> Result<(), Refusal>
    requires { curve ≡ curve_faults times.now factors.now }
    ensures answer { result ≡ answer_of (generate_outcome centre alpha pillars.now sigmas.now times.now factors.now grid.now draws.now (length out.old)) }
    ensures output { out.new ≡ stored_of (generate_outcome centre alpha pillars.now sigmas.now times.now factors.now grid.now draws.now (length out.old)) out.old }
    ensures number { answer_number result ≡ (reported [] (generate_outcome centre alpha pillars.now sigmas.now times.now factors.now grid.now draws.now (length out.old))).answer }
{
    let schedule = refusals::pillar_faults(pillars, sigmas);
    let points = refusals::grid_faults(grid, draws);
    path_rules(
        centre,
        alpha,
        schedule,
        curve,
        points,
        false,
        pillars,
        grid,
        out.len(),
    )?;
    write_path(
        centre, alpha, pillars, sigmas, times, factors, grid, draws, out,
    )
}

// Kinds 12 and 13 on the draws of a seed, none of which is worked before the rules let the call through.
pub fn generate_seeded(
    centre: Centre,
    alpha: f64,
    pillars: &[f64],
    sigmas: &[f64],
    times: &[f64],
    factors: &[f64],
    grid: &[f64],
    seed: u64,
    out: &mut [f64],
) -> Result<u64, Refusal>
    ensures answer { result ≡ reaching (seeded_outcome centre alpha pillars.now sigmas.now times.now factors.now grid.now seed (length out.old)) (reached_by (length grid.now) seed) }
    ensures output { out.new ≡ stored_of (seeded_outcome centre alpha pillars.now sigmas.now times.now factors.now grid.now seed (length out.old)) out.old }
    ensures report { reported 0 result ≡ reported 0 (reaching (seeded_outcome centre alpha pillars.now sigmas.now times.now factors.now grid.now seed (length out.old)) (reached_by (length grid.now) seed)) }
{
    let schedule = refusals::pillar_faults(pillars, sigmas);
    let curve = refusals::curve_faults(times, factors);
    let points = refusals::seeded_grid_faults(grid);
    let n = grid.len();
    path_rules(
        centre,
        alpha,
        schedule,
        curve,
        points,
        seed == 0,
        pillars,
        grid,
        out.len(),
    )?;
    let mut drawn = [0.0; 1024];
    let state = draws::write_draws(seed, &mut drawn[..n]);
    write_path(
        centre,
        alpha,
        pillars,
        sigmas,
        times,
        factors,
        grid,
        &drawn[..n],
        out,
    )?;
    Ok(state)
}

// The path behind the rules: the points are worked, and written where none of them is refused. A caller that has
// asked the rules has a grid within its limit, a draw and a place for each of its times, and pillars and a curve
// whose times strictly rise.
fn write_path(
    centre: Centre,
    alpha: f64,
    pillars: &[f64],
    sigmas: &[f64],
    times: &[f64],
    factors: &[f64],
    grid: &[f64],
    draws: &[f64],
    out: &mut [f64],
) -> Result<(), Refusal>
    requires { (length grid.now ≤ 1024) × (length draws.now ≡ length grid.now) × (in_order true times.now ≡ true) × (in_order true pillars.now ≡ true) × (length grid.now ≤ length out.old) }
    ensures answer { result ≡ answer_of (following (path_from centre alpha pillars.now sigmas.now times.now factors.now start_state grid.now draws.now) finishing_list) }
    ensures output { out.new ≡ stored_of (following (path_from centre alpha pillars.now sigmas.now times.now factors.now start_state grid.now draws.now) finishing_list) out.old }
{
    let n = grid.len();
    let mut work = [0.0; 1024];
    hullwhite_points::walk_grid(
        centre,
        alpha,
        pillars,
        sigmas,
        times,
        factors,
        grid,
        draws,
        &mut work[..n],
    )?;
    hullwhite_transitions::finish(&work[..n], out)
}

// Whether there are more pillars than the centre serves: the published one has one sigma for all times.
fn several_for(centre: Centre, pillars: usize) -> bool
    ensures { result ≡ several_for centre pillars }
{
    match centre {
        Centre::StateVariance => false,
        Centre::Published => 1 < pillars,
    }
}

// Whether the first grid time is below 0.
fn starts_below(grid: &[f64]) -> bool
    ensures { result ≡ starts_below grid.now }
{
    if grid.len() == 0 {
        false
    } else {
        grid[0] < 0.0
    }
}

// The rules of a path into `room` places: 14, which listed draws cannot break, is asked behind 6 and ahead of the two on the
// pillars, 7 and 15.
fn path_rules(
    centre: Centre,
    alpha: f64,
    schedule: Faults,
    curve: Faults,
    points: Faults,
    zero_seed: bool,
    pillars: &[f64],
    grid: &[f64],
    room: usize,
) -> Result<(), Refusal>
    ensures { result ≡ first_of (seeded_rules schedule curve points zero_seed (eqb (length pillars.now) 0) (several_for centre (length pillars.now)) (starts_below grid.now) (ltb room (length grid.now)) alpha) }
{
    let finite = math_elementary::is_finite(alpha);
    refusals::first_of(&[
        Refusal::Size.when(schedule.size | curve.size | points.size | (room < grid.len())),
        Refusal::NotFinite.when(
            schedule.not_finite | curve.not_finite | points.not_finite | !finite,
        ),
        Refusal::MeanReversion.when(alpha <= 0.0),
        Refusal::Order.when(schedule.order | curve.order | points.order),
        Refusal::Times.when(starts_below(grid)),
        Refusal::Domain.when(schedule.domain | curve.domain),
        Refusal::ZeroSeed.when(zero_seed),
        Refusal::Empty.when(pillars.len() == 0),
        Refusal::SeveralPillars.when(several_for(centre, pillars.len())),
    ])
}
