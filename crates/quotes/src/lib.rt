// utils.rs: a quoted volatility's price, Black's and Bachelier's, and the annuity: the formulas on plain
// numbers, and as calls.
#![tactic(auto)]

mod quoted;
mod rules;
mod utils;

pub use quoted::{annuity_step, bachelier_call_of, black_call_of};
pub use utils::{D1D2, bachelier_call, black_call, black_put, d1_d2, swap_annuity_from_curve};
