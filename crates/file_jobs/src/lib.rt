// A job of kinds 1 to 11: which call it is, on which of the job's fields, and what is told of its outcome.
#![tactic(auto)]

mod kinds;
mod results;

pub use kinds::{option_result, work};
pub use results::{JobResult, Worked};
