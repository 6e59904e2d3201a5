// bisection.rs, `Bisection::solve` over the objective of an instrument: the loop of every volatility fit.
#![tactic(auto)]

mod bisect;

pub use bisect::solve;
