// A chain of fused steps on positive numbers that packs no f64 in between: on numbers that stay taken apart,
// or in fixed point. None of it is a call: each function has a caller that shows what it requires.
#![tactic(auto)]

mod fixed;
mod open;
mod rounding;

pub use fixed::{fixed_last, fixed_of, fixed_step};
pub use open::{Open, closed, opened, step};
