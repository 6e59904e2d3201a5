// A positive number taken apart, for a chain of fused steps that packs no f64 in between.
ghost use Rattle.std.specs.Prelude.{◌≡◌, false, not, ◌+◌, ◌-◌, ◌*◌, ◌^◌, ◌≤◌, ◌<◌, max, T};
ghost use Rattle.std.specs.Float.Ieee as Ieee;
ghost use Rattle.std.specs.Float.{binary64};
ghost use Rattle.std.specs.Float.Ieee.{is_nan};
ghost use Rattle.ieee.specs.Fused.{fused_of};
ghost use Rattle.ieee_chains.specs.Open.{value_of, field, Digits};

use super::rounding::Sum;

// sig * 2^exp in units of 2^-1074, with a significand of 53 digits or of 2^53.
#[derive(Clone, Copy, Debug, PartialEq, Eq)]
pub struct Open {
    pub sig: u64,
    pub exp: u64,
}

// A positive x that is no subnormal, taken apart: a caller has tested it, or has a literal.
pub fn opened(x: f64) -> Open
    requires { T (not (is_nan x)) × (1 ≤ field x) × (field x ≤ 2046) }
    ensures { (value_of result.sig result.exp ≡ x) × Digits result.sig × (result.exp + 1 ≡ field x) }
{
    let bits = f64::to_bits(x);
    Open {
        sig: bits % 0x10_0000_0000_0000 + 0x10_0000_0000_0000,
        exp: bits / 0x10_0000_0000_0000 - 1,
    }
}

// q * 2^i times y * 2^j, plus c: the exact value, rounded once. The sum is taken at the place of c, with what
// the product has below it as a sticky digit; a product that is far larger keeps its own place, and c loses no
// digit there. The two are less than 64 places apart, as a caller shows of its argument and coefficients.
// It takes four numbers and not two `Open`, as `math_hart` calls it.
pub fn step(q: u64, i: u64, y: u64, j: u64, c: f64) -> Open
    requires { Digits q × Digits y × (i ≤ 2000) × (j ≤ 2000) × T (not (is_nan c)) × (62 ≤ field c) × (field c ≤ 2000) × (field c + 1026 < i + j + 64) × (i + j < field c + 1090) }
    ensures { (value_of result.sig result.exp ≡ fused_of (value_of q i) (value_of y j) c) × Digits result.sig × (field c ≤ result.exp + 1) × (result.exp ≤ max (field c + 6) (i + j - 1020)) }
{
    let o = opened(c);
    let v = ieee_words::product(q * 0x200, y * 0x400);
    let p = i + j;
    let l = o.exp + 1027;
    if p <= l {
        let w = ieee_words::jam_below(v, l - p);
        let s = Sum {
            whole: o.sig * 4 + w.left,
            sticky: w.sticky,
        };
        rounded(s, o.exp + 8)
    } else {
        let t = ieee_words::jam_below(v + (ieee_words::above(o.sig * 4) >> (p - l)), 0);
        let s = Sum {
            whole: t.left,
            sticky: t.sticky,
        };
        rounded(s, p - 1019)
    }
}

// A sum in units of 2^(place - 1084), to 53 digits. A caller has the bounds from the larger term of a step.
fn rounded(s: Sum, place: u64) -> Open
    requires { (2 ^ 54 ≤ s.whole) × (62 ≤ place) × (place < 2 ^ 13) }
    ensures { (value_of result.sig result.exp ≡ Ieee.round binary64 false ((2 * s.whole + s.sticky) * 2 ^ (place + 1192)) (2 ^ 2277)) × Digits result.sig × (place ≤ result.exp + 8) × (result.exp + 1 ≤ place) }
{
    let k = s.rounded();
    Open {
        sig: k.digits,
        exp: place - k.up,
    }
}

// q * 2^k in units of 2^-1074 as an f64. A caller has the bounds from the last steps of its chain.
pub fn closed(q: u64, k: u64) -> f64
    requires { Digits q × (k ≤ 2000) }
    ensures { result ≡ value_of q k }
{
    f64::from_bits(k * 0x10_0000_0000_0000 + q)
}
