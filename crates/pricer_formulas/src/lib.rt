// closedformhullwhiteswaptionpricer.rs, its formulas on plain numbers and lent terms: the state's
// deviation and A of each term, the Newton step, a bond option a coupon and their sum. One f64 operation
// for each written one.
#![tactic(auto)]

mod bond_option;
mod newton;
mod trade;
mod value;
mod variance;

pub use bond_option::SwaptionType;
pub use newton::implicit_critical_rate_of;
pub use trade::Trade;
pub use value::{Decomposition, components};
pub use variance::{affine_a_list, pricer_deviation};
