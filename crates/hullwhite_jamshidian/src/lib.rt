// The model's swaption at a sigma, by Jamshidian's decomposition: a search for the critical rate, and a bond
// put a coupon, on terms worked ahead. A swaption has the same price here whether it is priced or fitted.
#![tactic(auto)]

mod price;

pub use price::{Swaption, SwaptionAhead, ahead_of, price_at};
pub use search::Root;
