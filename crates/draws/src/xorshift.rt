// Marsaglia's xorshift64, and what twelve steps of it come to.
ghost use Rattle.std.specs.Prelude.{◌≡◌, ◌*◌, ◌^◌, ◌<◌};
ghost use Rattle.draws.specs.Xorshift.{step_of, steps_of};
ghost use Rattle.draws.specs.Draws.{sum_of};

// The steps that a draw adds over.
const STEPS: u64 = 12;

// What twelve steps come to: the sum of the top halves, and the state reached.
#[derive(Clone, Copy)]
pub struct Twelve {
    pub sum: u64,
    pub state: u64,
}

fn step(x: u64) -> u64
    ensures { result ≡ step_of x }
{
    let a = x ^ (x << 13);
    let b = a ^ (a >> 7);
    b ^ (b << 17)
}

// The bound is what `draw` asks of a sum.
pub fn twelve_steps(seed: u64) -> Twelve
    ensures sum { result.sum ≡ sum_of 12 seed }
    ensures state { result.state ≡ steps_of 12 seed }
    ensures below { result.sum < 12 * 2 ^ 32 }
{
    let mut sum = 0;
    let mut state = seed;
    for _ in 0..STEPS {
        state = step(state);
        sum += state >> 32;
    }
    Twelve { sum, state }
}
