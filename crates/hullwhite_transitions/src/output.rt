// The writing of a list that was worked, last of all.
ghost use Rattle.std.specs.Prelude.{◌≡◌, ◌≤◌, length};
ghost use Rattle.refusals.specs.Refusals.{answer_of};
ghost use Rattle.hullwhite_transitions.specs.Written.{stored_of, finishing_list};

use refusals::{Refusal, Test};

// Writes the values over the front of the output, unless one of them is not finite (rule 13). A caller that has
// asked rule 1 lends an output with room for them.
pub fn finish(values: &[f64], out: &mut [f64]) -> Result<(), Refusal>
    requires { length values.now ≤ length out.old }
    ensures answer { result ≡ answer_of (finishing_list values.now) }
    ensures output { out.new ≡ stored_of (finishing_list values.now) out.old }
{
    if !refusals::all(values, Test::Finite) {
        return Err(Refusal::Overflow);
    }
    out[..values.len()].copy_from_slice(values);
    Ok(())
}
