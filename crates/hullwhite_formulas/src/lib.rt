// The formulas of the Hull-White model on plain numbers, as the Rust writes them: every operation in its
// order, fused where it says mul_add. Nothing is refused here.
#![tactic(auto)]

mod hullwhite;
mod instruments;

pub use hullwhite::{
    VolatilityParts, a_at, a_of, b_of, bond_call_at, bond_put_at, bond_put_of, curve_part_of, day,
    forward_of, forward_slope_of, growth_of, half_variance_of, moneyness_of,
    short_rate_variance_of, state_deviation_at, state_deviation_of, stationary_share_of, theta_of,
    volatility_parts, zcb_price_of, zcb_price_volatility_at, zcb_price_volatility_of,
};
pub use instruments::Optionlet;
