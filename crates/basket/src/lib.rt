// calibrate_to_instruments over a basket of caplets: every entry's fit, then every entry's bumped fit.
#![tactic(auto)]

mod call;
mod entries;
mod walk;

pub use call::{Basket, calibrate_to_instruments};
