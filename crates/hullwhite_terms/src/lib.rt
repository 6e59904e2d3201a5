// The terms of a Jamshidian decomposition, worked once a coupon ahead of a search: coefficients, B,
// factors, curve's parts, A and weights, each list written whole into a lent one; and the search on them.
#![tactic(auto)]

mod columns;
mod factors;
mod rate;
mod swaption;

pub use columns::{a_list_at, curve_parts};
pub use rate::find_critical_rate_of;
pub use swaption::{TermsAhead, swaption_terms};
