// What lent lists have for a time: the factor of rule 8, the volatility, and the times up to it.
#![tactic(auto)]

mod lookups;

pub use lookups::{factor, factor_near, reached, volatility_at, volatility_near};
