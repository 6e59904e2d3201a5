// The model's own swaption (kind 5), hullwhitemodel.rs's swaption_price: the rules,
// the lookups, the terms, and the price on them by `hullwhite_jamshidian`.
#![tactic(auto)]

mod model;

pub use hullwhite_jamshidian::{Root, Swaption};
pub use model::{swaption_price, swaption_price_on};
