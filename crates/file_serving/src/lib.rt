// A run file served: from standard input to standard output.
#![tactic(auto)]

mod sent;
mod serve;

pub use sent::Sent;
pub use serve::serve_input;
