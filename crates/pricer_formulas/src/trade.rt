// A swaption as it is dealt, one argument in place of five.
use super::bond_option::SwaptionType;

// A swaption's own numbers: whether it is a payer or a receiver (`option`), strike, option time, notional, and a side of 1
// or -1.
#[derive(Clone, Copy)]
pub struct Trade {
    pub option: SwaptionType,
    pub strike: f64,
    pub t: f64,
    pub notional: f64,
    pub side: f64,
}
