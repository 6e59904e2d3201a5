// closedformhullwhiteswaptionpricer.rs, the call: payer and receiver swaptions by Jamshidian's
// decomposition (kinds 6 and 7), the DualFwd pricer by its values.
#![tactic(auto)]

mod pricer;

pub use pricer::{swaption_value, swaption_value_on};
pub use pricer_formulas::{SwaptionType, Trade};
pub use pricer_value::Valuation;
