// The normal distribution function, twice: as the f64 pricers take it and as the DualFwd pricer does.
#![tactic(auto)]

mod both;
mod normal;

pub use normal::{norm_cdf, norm_cdf_dual, norm_cdf_two};
