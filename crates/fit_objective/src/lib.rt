// hullwhitecalibration.rs, the objective of a fit: an instrument's market price at its quoted volatility,
// and the residual at a sigma.
#![tactic(auto)]

mod market;
mod objective;

pub use market::{Quote, VolatilityType, caplet_market_price, swaption_market_price};
pub use objective::{CapletAhead, Instrument, Objective};
