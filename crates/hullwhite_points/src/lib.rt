// The points of a short-rate path, worked along its grid into a lent list. The call, which asks the rules,
// stands above.
#![tactic(auto)]

mod decays;
mod walk;

pub use walk::{Centre, State, walk_grid};
