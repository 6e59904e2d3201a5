// The decay of the state's variance over each step of a grid, worked ahead of the walk: it depends on the
// times alone, so that two can be worked side by side.
ghost use Rattle.std.specs.Prelude.{◌≡◌, length};
ghost use Rattle.ieee.specs.Numbers.{zero};
ghost use Rattle.hullwhite_points.specs.Walk.{step_decay, decays_from};

use math_exponential::Two;

// Writes the decay over each step of the grid, the first of them from 0. A caller lends a place for each.
pub fn write_decays(alpha: f64, grid: &[f64], out: &mut [f64])
    requires { length out.old ≡ length grid.now }
    ensures { out.new ≡ decays_from alpha zero grid.now }
{
    // Two places a turn, for the exps of a pair are worked side by side, and the last by itself where their number is odd.
    let mut before = 0.0;
    let mut i = 0;
    while i + 1 < grid.len() {
        let two = two_decays(alpha, before, grid[i], grid[i + 1]);
        out[i] = two.first;
        out[i + 1] = two.second;
        before = grid[i + 1];
        i += 2;
    }
    if i < grid.len() {
        out[i] = decay(alpha, before, grid[i]);
    }
}

// exp(-2 × alpha × the time passed) from t to u.
fn decay(alpha: f64, t: f64, u: f64) -> f64
    ensures { result ≡ step_decay alpha t u }
{
    math_exponential::exp(-2.0 * alpha * (u - t))
}

// The decays from t to u and from u to v.
fn two_decays(alpha: f64, t: f64, u: f64, v: f64) -> Two
    ensures { (result.first ≡ step_decay alpha t u) × (result.second ≡ step_decay alpha u v) }
{
    math_exponential::exp_two(-2.0 * alpha * (u - t), -2.0 * alpha * (v - u))
}
