// The elementary functions of document 01, which stand in for Rust's own on both sides of every comparison, but
// for exp and what is built on it. Each is equal, for every f64, to a definition in specs/; none refuses
// anything.
#![tactic(auto)]

mod logarithm;
mod simple;

pub use logarithm::{LN_2_HIGH, LN_2_LOW, ln};
pub use simple::{abs, is_finite, max, midpoint, min, signum, surely_same};
