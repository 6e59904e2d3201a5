// hullwhitecalibration.rs, the fits: the volatility of a caplet or a swaption, fitted to a quote (kinds 8 to
// 11).
#![tactic(auto)]

mod fits;

pub use fit_objective::{Quote, VolatilityType};
pub use fits::{
    caplet_fitted, fit_caplet, fit_caplet_on, fit_swaption, fit_swaption_on, strike_wrong,
};
pub use hullwhite_formulas::Optionlet;
