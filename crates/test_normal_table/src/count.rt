// How many rows were met, and how many not.
ghost use Rattle.std.specs.Prelude.{◌≡◌, if◌then◌else◌};
ghost use Rattle.test_normal_table.specs.Tally.{one_more};

use std::fmt;

// Each stays at its greatest, which no table reaches.
#[derive(Clone, Copy, Debug, Default, PartialEq, Eq)]
pub struct Count {
    pub met: u64,
    pub missed: u64,
}

impl Count {
    // One row more: a row that is not met is counted as missed.
    pub fn add(&mut self, ok: bool)
        ensures met { self.new.met ≡ (if ok then one_more self.old.met else self.old.met) }
        ensures missed { self.new.missed ≡ (if ok then self.old.missed else one_more self.old.missed) }
    {
        if ok {
            self.met = self.met.saturating_add(1);
        } else {
            self.missed = self.missed.saturating_add(1);
        }
    }
}

impl fmt::Display for Count {
    fn fmt<W: fmt::Write>(&self, f: &mut fmt::Formatter<W>) -> fmt::Result {
        write!(f, "{} met, {} not", self.met, self.missed)
    }
}
