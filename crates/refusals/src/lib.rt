// Lent lists of floats: the checks of rules 1 to 7, and the refusals.
#![tactic(auto)]

mod checks;
mod curves;
mod refusals;

pub use checks::{Test, all, follows, in_order};
pub use curves::{
    Faults, coupon_faults, curve_faults, grid_faults, pillar_faults, seeded_grid_faults,
};
pub use refusals::{PriceReport, Refusal, Rule, and_rule, first_of, served};
