// The entries of a basket as they are lent.
ghost use Rattle.std.specs.Prelude.{◌≡◌, ◌<◌, length};

use fit::{Optionlet, Quote};

// Lists that the rules let through: each entry has a place in every one of them.
#[derive(Clone, Copy)]
pub struct Entries<'a> {
    pub normals: &'a [bool],
    pub strikes: &'a [f64],
    pub starts: &'a [f64],
    pub ends: &'a [f64],
    pub vols: &'a [f64],
    ghost of_one_length: { (length strikes.now ≡ length normals.now) × (length starts.now ≡ length normals.now) × (length ends.now ≡ length normals.now) × (length vols.now ≡ length normals.now) },
}

impl<'a> Entries<'a> {
    ghost use Rattle.basket.specs.Lent.{lent_quote, lent_caplet};

    // The quote of the entry at place i. A caller walks over the entries, and asks at the place of one.
    pub fn quote(self, i: usize) -> Quote
        requires { i < length self.normals.now }
        ensures { result ≡ lent_quote self.entry.normals.now self.entry.vols.now i }
    {
        Quote {
            vol_type: basket_entries::volatility_type_of(self.normals[i]),
            volatility: self.vols[i],
        }
    }

    // The caplet of the entry at place i. A caller asks at the place of one in the same way.
    pub fn caplet(self, i: usize) -> Optionlet
        requires { i < length self.normals.now }
        ensures { result ≡ lent_caplet self.entry.strikes.now self.entry.starts.now self.entry.ends.now i }
    {
        Optionlet {
            strike: self.strikes[i],
            start: self.starts[i],
            end: self.ends[i],
        }
    }
}
