// The points of a short-rate path, over a grid of times, from one standard-normal draw a point.
ghost use Rattle.std.specs.Prelude.{◌≡◌, true, length, Ok};
ghost use Rattle.ieee.specs.Numbers.{zero};
ghost use Rattle.refusals.specs.Checks.{in_order};
ghost use Rattle.refusals.specs.Refusals.{after};
ghost use Rattle.hullwhite_points.specs.Path.{state_after, published_shift_of, shift_of, path_from, start_state};
ghost use Rattle.hullwhite_points.specs.Walk.{step_decay, decays_from, forward_at};

use super::decays;
use refusals::Refusal;

// What a path's rates are centred on: the forward plus half the state variance, as the Rust has it (kind 12), or as
// Brigo and Mercurio have published it (kind 13).
#[derive(Clone, Copy)]
pub enum Centre {
    StateVariance,
    Published,
}

// The state of a path: the centred rate, the time, and the state's variance.
#[derive(Clone, Copy)]
pub struct State {
    pub x: f64,
    pub t: f64,
    pub variance: f64,
}

// One Euler step of the state to the time t, with the decay over it, which a caller has worked ahead.
fn state_after(alpha: f64, sigma: f64, t: f64, draw: f64, decay: f64, s: State) -> State
    requires { decay ≡ step_decay alpha s.t t }
    ensures { result ≡ state_after alpha sigma t draw s }
{
    let dt = t - s.t;
    let variance = ieee::fused(
        s.variance,
        decay,
        sigma * sigma * (1.0 - decay) / (2.0 * alpha),
    );
    let dw = draw * sigma * ieee::sqrt(dt);
    let x = s.x + ieee::fused(-alpha * s.x, dt, dw);
    State { x, t, variance }
}

// The published shift of a point, nothing fused: another rounding than the model's B would give.
fn published_shift(alpha: f64, sigma: f64, t: f64, forward: f64) -> f64
    ensures { result ≡ published_shift_of alpha sigma t forward }
{
    let g = sigma / alpha * (1.0 - math_exponential::exp(-alpha * t));
    forward + 0.5 * (g * g)
}

// The shift of a point at the time t, where the volatility is sigma: the two centres differ in it and in nothing else.
fn shift_of(centre: Centre, alpha: f64, sigma: f64, t: f64, variance: f64, forward: f64) -> f64
    ensures { result ≡ shift_of centre alpha sigma t variance forward }
{
    match centre {
        Centre::StateVariance => ieee::fused(0.5, variance, forward),
        Centre::Published => published_shift(alpha, sigma, t, forward),
    }
}

// The forward at t, from the factors at t and a day later, looked for at `hint` first. A caller behind the
// rules has a curve whose times strictly rise.
fn forward_near(times: &[f64], factors: &[f64], hint: &mut usize, t: f64) -> Option<f64>
    requires { in_order true times.now ≡ true }
    ensures { result ≡ forward_at times.now factors.now t }
{
    let Some(p) = curve::factor_near(times, factors, hint, t) else {
        return None;
    };
    let Some(p_plus) = curve::factor_near(times, factors, hint, t + hullwhite_formulas::day())
    else {
        return None;
    };
    Some(hullwhite_formulas::forward_of(p, p_plus))
}

// Works every point of the grid into `out`, or says why one cannot be worked. A caller that has asked the rules
// has the lists of one length, and pillars and a curve whose times strictly rise.
pub fn walk_grid(
    centre: Centre,
    alpha: f64,
    pillars: &[f64],
    sigmas: &[f64],
    times: &[f64],
    factors: &[f64],
    grid: &[f64],
    draws: &[f64],
    out: &mut [f64],
) -> Result<(), Refusal>
    requires { (length out.old ≡ length grid.now) × (length draws.now ≡ length grid.now) × (in_order true times.now ≡ true) × (in_order true pillars.now ≡ true) }
    ensures { path_from centre alpha pillars.now sigmas.now times.now factors.now start_state grid.now draws.now ≡ after result (Ok out.new) }
{
    decays::write_decays(alpha, grid, out);
    walk_points(
        centre, alpha, pillars, sigmas, times, factors, grid, draws, out,
    )
}

// The same, where `out` holds the decay over each step, as a caller has had it written by `write_decays`: a
// point's rate takes the place of its decay. A volatility and a forward are looked for where those of the point
// before were found.
fn walk_points(
    centre: Centre,
    alpha: f64,
    pillars: &[f64],
    sigmas: &[f64],
    times: &[f64],
    factors: &[f64],
    grid: &[f64],
    draws: &[f64],
    out: &mut [f64],
) -> Result<(), Refusal>
    requires { (out.old ≡ decays_from alpha zero grid.now) × (length draws.now ≡ length grid.now) × (in_order true times.now ≡ true) × (in_order true pillars.now ≡ true) }
    ensures { path_from centre alpha pillars.now sigmas.now times.now factors.now start_state grid.now draws.now ≡ after result (Ok out.new) }
{
    let mut s = State {
        x: 0.0,
        t: 0.0,
        variance: 0.0,
    };
    let mut reached = 0;
    let mut place = 0;
    for i in 0..grid.len() {
        let t = grid[i];
        let Some(sigma) = curve::volatility_near(pillars, sigmas, &mut reached, t) else {
            return Err(Refusal::Empty);
        };
        let Some(forward) = forward_near(times, factors, &mut place, t) else {
            return Err(Refusal::OffCurve);
        };
        s = state_after(alpha, sigma, t, draws[i], out[i], s);
        out[i] = s.x + shift_of(centre, alpha, sigma, t, s.variance, forward);
    }
    Ok(())
}
