// parameters.rs, transition_variances: a call that writes a list. All values are worked first and written only
// where none is refused, so that a refusal leaves the lent output as it was; `finish` does so for any list that
// was worked.
#![tactic(auto)]

mod output;
mod transition;

pub use output::finish;
pub use transition::transition_variances;
