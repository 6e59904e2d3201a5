// A short-rate path (kinds 12 and 13), written over a lent list. All values are worked first and written only
// where none is refused, so that a refusal leaves the lent output as it was.
#![tactic(auto)]

mod path;

pub use path::{generate, generate_on, generate_seeded};
