// The model's formulas that are no kind, as calls: each answers with a value or with the first refusal of
// document 01 that applies, whatever it is given.
#![tactic(auto)]

mod curves;
mod rules;

pub use curves::{
    A, B, forward_rate_from_curve, short_rate_variance, theta, zcb_price, zcb_price_volatility,
};
