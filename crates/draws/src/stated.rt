// The draws of a seed, each from twelve steps of the state.
ghost use Rattle.std.specs.Prelude.{◌≡◌, ◌*◌, ◌^◌, ◌<◌, length};
ghost use Rattle.refusals.specs.Refusals.{first_of, value_or, reported};
ghost use Rattle.draws.specs.Draws.{quotient_of, draws_of, reached_by, draw_rules, draws_outcome, reaching};

use super::xorshift;
use refusals::Refusal;

// Fills a lent list with the draws of a seed, and answers the state that it has reached, from which the next draw goes on.
pub fn stated_draws(seed: u64, out: &mut [f64]) -> Result<u64, Refusal>
    ensures answer { result ≡ reaching (draws_outcome seed (length out.old)) (reached_by (length out.old) seed) }
    ensures output { out.new ≡ value_or out.old (draws_outcome seed (length out.old)) }
    ensures report { reported 0 result ≡ reported 0 (reaching (draws_outcome seed (length out.old)) (reached_by (length out.old) seed)) }
{
    draw_rules(seed, out.len())?;
    Ok(write_draws(seed, out))
}

fn draw_rules(seed: u64, count: usize) -> Result<(), Refusal>
    ensures { result ≡ first_of (draw_rules seed count) }
{
    refusals::first_of(&[
        Refusal::Size.when(1024 < count),
        Refusal::ZeroSeed.when(seed == 0),
    ])
}

// Writes a draw to each place of the list, and hands back the state reached.
pub fn write_draws(seed: u64, out: &mut [f64]) -> u64
    ensures draws { out.new ≡ draws_of (length out.old) seed }
    ensures state { result ≡ reached_by (length out.old) seed }
{
    let mut state = seed;
    for x in out.iter_mut() {
        let twelve = xorshift::twelve_steps(state);
        *x = draw(twelve.sum);
        state = twelve.state;
    }
    state
}

// A draw from its sum. Twelve top halves, which its caller has added, are below 12 × 2^32: no operation rounds.
fn draw(sum: u64) -> f64
    requires { sum < 12 * 2 ^ 32 }
    ensures { result ≡ quotient_of sum }
{
    (sum as f64 - 25769803776.0) / 4294967296.0
}
