// Stated draws: two desks have the same scenario from a seed.
#![tactic(auto)]

mod stated;
mod xorshift;

pub use stated::{stated_draws, write_draws};
