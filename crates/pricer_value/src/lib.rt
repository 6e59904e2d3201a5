// closedformhullwhiteswaptionpricer.rs behind the rules of its call: payer and receiver swaptions by
// Jamshidian's decomposition, the DualFwd pricer by its values. The call, which asks the rules, stands above.
#![tactic(auto)]

mod value;

pub use value::{Valuation, swaption_priced};
