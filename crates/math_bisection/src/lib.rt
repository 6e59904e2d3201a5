// bisection.rs: the parts of a volatility fit that know no instrument. The loop, which asks an instrument's
// objective, stands above them.
#![tactic(auto)]

mod halving;
mod result;

pub use halving::{Ends, is_close, moved, same_sign, unmoved};
pub use result::{Fit, finished};
