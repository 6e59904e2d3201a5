// The integers behind the operations on f64: a finite f64 taken apart, and the f64 nearest to a number of two
// words times a power of two. None of it is a call: a caller shows what each function requires.
#![tactic(auto)]

pub mod pack;
pub mod unpack;
