// A number with all the decimals of its unit.
ghost use Rattle.std.specs.Prelude.{◌<◌};

use std::fmt;

// `n` / `unit`, where the unit is a power of ten.
#[derive(Clone, Copy, Debug, PartialEq, Eq)]
pub struct Decimal {
    pub n: u64,
    pub unit: u64,
    ghost positive: { 0 < unit },
}

impl fmt::Display for Decimal {
    fn fmt<W: fmt::Write>(&self, f: &mut fmt::Formatter<W>) -> fmt::Result {
        let places = self.unit.ilog10() as usize;
        let whole = self.n / self.unit;
        let rest = self.n % self.unit;
        write!(f, "{whole}.{rest:0places$}")
    }
}
