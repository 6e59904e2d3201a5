// ln.
ghost use Rattle.std.specs.Prelude.{◌≡◌, ◌<◌, T};
ghost use Rattle.std.specs.Int.Signed.{mag};
ghost use Rattle.std.specs.Float.Ieee.Positive.{positive};
ghost use Rattle.ieee.specs.Numbers.{zero};
ghost use Rattle.math_elementary.specs.Ln.{significand_of, exponent_of, ExactSplit, odd_series_of, joined_of, ln_of};
ghost use Rattle.math_elementary.specs.Units.{Widened};

// The two parts of ln 2: a whole number of at most 11 binary digits times the first is exact.
pub const LN_2_HIGH: f64 = 0.693147180369123816490;

pub const LN_2_LOW: f64 = 1.90821492927058770002e-10;

pub fn ln(x: f64) -> f64
    ensures value { result ≡ ln_of x }
    ensures split { T (positive x) → ExactSplit x (significand_of x) (exponent_of x) }
{
    if x.is_nan() {
        x
    } else if x < 0.0 {
        f64::NAN
    } else if x == 0.0 {
        f64::NEG_INFINITY
    } else if x == f64::INFINITY {
        x
    } else {
        joined(split(x))
    }
}

// x is m × 2^k, and 0.75 <= m < 1.5.
#[derive(Clone, Copy)]
struct Halved {
    m: f64,
    k: i32,
    ghost small: { mag k < 10000 },
}

// 1.5 at full width.
const ONE_AND_A_HALF: u64 = 0x18_0000_0000_0000;

// The digits of x under the exponent that puts them between 0.75 and 1.5: the leading digit of `full` adds one to
// the exponent's field. A caller has tested that x is finite and above 0.
fn split(x: f64) -> Halved
    requires { T (positive x) }
    ensures { (result.m ≡ significand_of x) × (result.k ≡ exponent_of x) }
{
    let w = widen(x);
    let full = w.full;
    let size = w.size as i32;
    if full < ONE_AND_A_HALF {
        Halved {
            m: f64::from_bits(full + 0x3fe0_0000_0000_0000),
            k: size - 1075,
        }
    } else {
        Halved {
            m: f64::from_bits(full + 0x3fd0_0000_0000_0000),
            k: size - 1074,
        }
    }
}

// A number's digits at full width: `full` has 53 binary digits, and the number in units of 2^-1074
// has `size` digits.
#[derive(Clone, Copy)]
struct Wide {
    full: u64,
    size: u64,
}

// A subnormal's leading zeros are shifted out. A caller has tested that x is finite and above 0.
fn widen(x: f64) -> Wide
    requires { T (positive x) }
    ensures { Widened x result.full result.size × (result.size < 5000) }
{
    let b = x.to_bits();
    let field = b / 0x10_0000_0000_0000;
    let digits = b % 0x10_0000_0000_0000;
    if field == 0 {
        let zeros = digits.leading_zeros();
        Wide {
            full: digits << (zeros - 11),
            size: (64 - zeros) as u64,
        }
    } else {
        Wide {
            full: digits + 0x10_0000_0000_0000,
            size: field + 52,
        }
    }
}

// k × ln 2 and the logarithm of m, each part rounded as it stands.
fn joined(h: Halved) -> f64
    ensures { result ≡ joined_of h.m h.k }
{
    let s = (h.m - 1.0) / (h.m + 1.0);
    let t = odd_series(s * s);
    let n = h.k as f64;
    n * LN_2_HIGH + (2.0 * (s * t) + n * LN_2_LOW)
}

const TURNS: u32 = 13;

// t starts at 0, and for n = 25, 23, .. 1 becomes 1/n + z × t.
fn odd_series(z: f64) -> f64
    ensures { result ≡ odd_series_of z 13 zero }
{
    let mut t = 0.0;
    for k in (0..TURNS).rev() {
        let n = 2 * k + 1;
        t = 1.0 / (n as f64) + z * t;
    }
    t
}
