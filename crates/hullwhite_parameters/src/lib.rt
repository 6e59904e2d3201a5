// parameters.rs: the piecewise variance on plain lists; that, the pillar times up to a time and the
// volatility at a time as calls.
#![tactic(auto)]

mod parameters;
mod rules;
mod variance;

pub use parameters::{
    hull_white_piecewise_variance, pillars_reached, reached_answer, reached_part, volatility,
};
pub use variance::hull_white_piecewise_variance_of;
