// A row of a table, and whether a function meets it.
//
// Every number of a row is whole and below 2^51, so its f64 is exact, and so are the sums. A value v is
// compared with a fraction p / u by the sign of v × u - p, which the one rounding of a fused step keeps: no
// digit is allowed for.
ghost use Rattle.std.specs.Prelude.{◌≡◌, ◌<◌};
ghost use Rattle.test_normal_table.specs.Meet.{within_of, met_of};

use crate::decimal::Decimal;
use crate::normal::Normal;
use std::fmt;
use std::io::Print;
use std::num::nearest_u64_to_f64;

// The argument is `argument` / `scale`, or within half a unit of that where `slack` is 1, and the value there is
// within `spread` quarters of a unit of `digits` / `unit`.
#[derive(Clone, Copy, Debug, PartialEq, Eq)]
pub struct Row {
    pub argument: u64,
    pub slack: u64,
    pub scale: u64,
    pub digits: u64,
    pub spread: u64,
    pub unit: u64,
    ghost positive: { (0 < scale) × (0 < unit) },
}

impl Row {
    // Whether the function meets the row, at -x with 1 less its value. A row that is not met is written, and is
    // not met either where that fails.
    pub fn is_met(self, rt: &impl Print, negative: bool, normal: Normal) -> bool
        ensures { result ≡ met_of self.argument self.slack self.scale self.digits self.spread self.unit negative normal }
    {
        let ok = self.test(negative, normal);
        if !ok {
            let sign = if negative { "-" } else { "" };
            let at = self.at();
            let _ = println!(rt; "not met: {normal} at {sign}{at}, by the row {self}");
        }
        ok
    }

    #[tactic(auto, unfolding(crate::specs::Meet::met_of, crate::specs::Meet::above_of, crate::specs::Meet::below_of))]
    fn test(self, negative: bool, normal: Normal) -> bool
        ensures { result ≡ met_of self.argument self.slack self.scale self.digits self.spread self.unit negative normal }
    {
        let n = 2.0 * nearest_u64_to_f64(self.argument);
        let s = nearest_u64_to_f64(self.slack);
        let d = 2.0 * nearest_u64_to_f64(self.scale);
        let p = 4.0 * nearest_u64_to_f64(self.digits);
        let w = nearest_u64_to_f64(self.spread);
        let u = 4.0 * nearest_u64_to_f64(self.unit);
        if negative {
            let low = normal.at(-((n + s) / d));
            let high = normal.at(-((n - s) / d));
            within(low, high, u - p, w, u)
        } else {
            let low = normal.at((n - s) / d);
            let high = normal.at((n + s) / d);
            within(low, high, p, w, u)
        }
    }

    fn at(self) -> Decimal {
        Decimal {
            n: self.argument,
            unit: self.scale,
        }
    }

    fn value(self) -> Decimal {
        Decimal {
            n: self.digits,
            unit: self.unit,
        }
    }
}

// As the table has it.
impl fmt::Display for Row {
    fn fmt<W: fmt::Write>(&self, f: &mut fmt::Formatter<W>) -> fmt::Result {
        write!(f, "{} {}", self.at(), self.value())
    }
}

// Whether the value at the lower argument is at most (p + w) / u, and at the upper one at least (p - w) / u.
fn within(low: f64, high: f64, p: f64, w: f64, u: f64) -> bool
    ensures { result ≡ within_of low high p w u }
{
    (ieee::fused(low, u, -(p + w)) <= 0.0) & (ieee::fused(high, u, -(p - w)) >= 0.0)
}
