// The entries of a basket of caplets: how the type of a quote is lent, and rules 1 to 7 over all of them.
#![tactic(auto)]

mod rules;

pub use rules::{
    basket_rules, domain_wrong, numbers_wrong, size_wrong, times_wrong, volatility_type_of,
};
