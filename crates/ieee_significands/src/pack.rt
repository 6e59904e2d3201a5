// The f64 nearest to a number of 128 bits times a power of two. Every rounding is done here.
ghost use Rattle.std.specs.Prelude.{◌≡◌, false, cond, ◌+◌, ◌-◌, ◌*◌, ◌/◌, ◌^◌, ◌≤◌, ◌<◌, max};
ghost use Rattle.std.specs.Float.Ieee as Ieee;
ghost use Rattle.std.specs.Float.{binary64};
ghost use Rattle.std.specs.Float.Ieee.{units, to_bits};
ghost use Rattle.std.specs.Float.Ieee.Nearest.{closest};

// ±v * 2^exp in units of 2^-2277, rounded to nearest, ties to even. A sum where little cancels has digits
// enough in its upper word, and where it is far from the subnormals and from the infinities too, no case is
// left. A caller has the bounds from a sum of terms below 2^125.
pub fn round(sign: bool, v: u128, exp: u64) -> f64
    requires { (v < 2 ^ 127) × (exp < 2 ^ 13) }
    ensures { result ≡ Ieee.round binary64 sign (v * 2 ^ exp) (2 ^ 2277) }
{
    if 0x40_0000_0000_0000 <= ieee_words::upper(v) && 1203 <= exp && exp < 3000 {
        raised(sign, v, exp)
    } else {
        any(sign, v, exp)
    }
}

// ±m * 2^exp, rounded, for an m of 63 digits: the last that is kept has the weight 2^10 in m. A caller has
// brought m to so many digits, and shows that it is no subnormal.
pub fn full(sign: bool, m: u64, exp: u64) -> f64
    requires { (2 ^ 62 ≤ m) × (m < 2 ^ 63) × (1193 ≤ exp) }
    ensures { result ≡ Ieee.round binary64 sign (m * 2 ^ exp) (2 ^ 2277) }
{
    assemble(sign, (m + 511 + m / 1024 % 2) / 1024, exp - 1193)
}

// ±v * 2^exp, rounded, for a v whose upper word has 55 to 63 digits, as a caller has tested: that word, with
// its last digit sticky, is brought to 63 digits by the count of its leading zeros.
fn raised(sign: bool, v: u128, exp: u64) -> f64
    requires { (2 ^ 54 ≤ v / 2 ^ 64) × (v < 2 ^ 127) × (1203 ≤ exp) × (exp < 2 ^ 13) }
    ensures { result ≡ Ieee.round binary64 sign (v * 2 ^ exp) (2 ^ 2277) }
{
    let up = ieee_words::upper(v).leading_zeros() as u64 - 1;
    let m = ieee_words::jam(v, 64) as u64;
    full(sign, m << up, exp + 64 - up)
}

// ±v * 2^exp, rounded, whatever its size. The last digit that is kept has the weight 2^unit: `unit` leaves 53
// digits, or drops those below 2^-1074. A caller has the bounds from a sum of terms.
fn any(sign: bool, v: u128, exp: u64) -> f64
    requires { (v < 2 ^ 127) × (exp < 2 ^ 13) }
    ensures { result ≡ Ieee.round binary64 sign (v * 2 ^ exp) (2 ^ 2277) }
{
    let n = ieee_words::width(v);
    if n == 0 {
        return assemble(sign, 0, 0);
    }
    let unit = unit_of(n + exp);
    let q = nearest(kept(v, exp, unit));
    assemble(sign, q, unit - 1203)
}

// The place of the last digit that is kept of a number with `top` digits.
fn unit_of(top: u64) -> u64
    ensures { result ≡ max (top - 53) 1203 }
{
    if top <= 1256 { 1203 } else { top - 53 }
}

// Four times v * 2^exp / 2^unit, so far as rounding that quotient to a whole number asks: two digits below the
// last that is kept, of which the lower one is sticky. A caller shows that v is not 0 and that no more than 53
// digits are kept.
fn kept(v: u128, exp: u64, unit: u64) -> u64
    requires { (0 < v) × (exp < 2 ^ 13) × (v * 2 ^ exp < 2 ^ (unit + 53)) }
    ensures { (result < 2 ^ 55) × (closest result 4 ≡ closest (v * 2 ^ exp) (2 ^ unit)) }
{
    if exp + 1 < unit {
        ieee_words::jam(v, unit - 2 - exp) as u64
    } else {
        (v as u64) << (exp + 2 - unit)
    }
}

// r / 4 to the nearest whole number, ties to even. A caller has r from `kept`, which gives the bound.
fn nearest(r: u64) -> u64
    requires { r < 2 ^ 55 }
    ensures { result ≡ closest r 4 }
{
    (r + 1 + r / 4 % 2) / 4
}

// ±q * 2^k in units of 2^-1074, or an infinity. q has 53 digits, or fewer where k is 0, or is 2^53: a caller
// shows this of what it kept.
fn assemble(sign: bool, q: u64, k: u64) -> f64
    requires { (q ≤ 2 ^ 53) × (0 < k → 2 ^ 52 ≤ q) }
    ensures { result ≡ units binary64 sign q k }
{
    f64::from_bits(magnitude(q, k) + sign_bit(sign))
}

// The weight of a sign in a bit pattern.
fn sign_bit(sign: bool) -> u64
    ensures { result ≡ cond sign (2 ^ 63) 0 }
{
    if sign { 0x8000_0000_0000_0000 } else { 0 }
}

// The bit pattern of q * 2^k. The leading digit of q adds one to the exponent's field. A caller has the same
// bounds.
fn magnitude(q: u64, k: u64) -> u64
    requires { (q ≤ 2 ^ 53) × (0 < k → 2 ^ 52 ≤ q) }
    ensures { result ≡ to_bits binary64 (units binary64 false q k) }
{
    if k < 2046 {
        k * 0x10_0000_0000_0000 + q
    } else {
        0x7ff0_0000_0000_0000
    }
}
