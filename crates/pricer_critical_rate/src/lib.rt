// closedformhullwhiteswaptionpricer.rs, the critical rate as calls of their own, on terms that are given by their
// coefficients, A and B: `find_critical_rate`, and `implicit_critical_rate`, which adds one Newton step.
#![tactic(auto)]

mod find;
mod implicit;
mod rules;

pub use find::find_critical_rate;
pub use implicit::{ImplicitRate, implicit_critical_rate};
