// The library for programs in other languages: C names, numbers and lists in, a number or a report out. Each function
// promises all that the call below it promises, and requires nothing.
#![tactic(auto)]

mod baskets;
mod critical_rate;
mod file;
mod fits;
mod model;
mod numbers;
mod options;
mod parameters;
mod paths;
mod reports;
mod swaptions;
mod utils;
