// Kinds 1 to 4: caplets, floorlets, bond puts and bond calls. Each call answers with a value or with the
// first refusal of document 01 that applies, whatever it is given.
#![tactic(auto)]

mod options;
mod rules;

pub use hullwhite_formulas::Optionlet;
pub use options::{
    BondOption, OptionType, bond_call_price, bond_option_on, bond_put_price, caplet_price,
    floorlet_price, optionlet_on,
};
pub use rules::option_rules;
