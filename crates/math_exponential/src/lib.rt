// exp and what is built on it: exp of two numbers side by side, exp_m1, norm_pdf. Each is equal, for every
// f64, to a definition in specs/; none refuses anything.
#![tactic(auto)]

mod density;
mod exponential;

pub use density::{SQRT_2PI, norm_pdf};
pub use exponential::{Two, exp, exp_m1, exp_two};

// The parts of exp, which are no calls: whoever works an exp from them shows what each requires.
pub use exponential::{Reduced, reduce, turn, within_limits};
