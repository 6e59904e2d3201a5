// Numbers in fixed point, for a chain of fused steps whose sizes are known ahead: the places do not move,
// so that no step has to look where its operands stand.
ghost use Rattle.std.specs.Prelude.{◌≡◌, not, ◌+◌, ◌*◌, ◌/◌, ◌%◌, ◌^◌, ◌≤◌, ◌<◌, min, T};
ghost use Rattle.std.specs.Float.Ieee.{is_nan};
ghost use Rattle.ieee_chains.specs.Open.{field};
ghost use Rattle.ieee_chains.specs.Fixed.{Held, settled_of, Settled, Stepped, SteppedLast};

use super::rounding::Sum;

// x * 2^62, for an x from 2^-10 up and below 4, as a caller has tested; this loses no digit.
pub fn fixed_of(x: f64) -> u64
    requires { T (not (is_nan x)) × (1013 ≤ field x) × (field x ≤ 1024) }
    ensures { Held x result 62 × (result < 2 ^ 64) }
{
    let bits = f64::to_bits(x);
    (bits % 0x10_0000_0000_0000 + 0x10_0000_0000_0000) << (bits / 0x10_0000_0000_0000 - 1013)
}

// a * y + c, a having two places more than c, and y 62: the exact value, rounded once to 53 digits. A caller
// shows the bounds from the coefficients of its chain.
pub fn fixed_step(a: u64, y: u64, c: u64) -> u64
    requires { (2 ^ 53 ≤ c) × (a + c < 2 ^ 62) }
    ensures { Stepped a y c result }
{
    settled(sum(a, y, c))
}

// The last step of a chain, as an f64: c has so many places. A caller shows the bounds in the same way.
pub fn fixed_last(a: u64, y: u64, c: u64, places: u64) -> f64
    requires { (2 ^ 53 ≤ c) × (a + c < 2 ^ 62) × (places ≤ 60) }
    ensures { SteppedLast a y c places result }
{
    packed(sum(a, y, c), places)
}

// a * y + c, before it is rounded. A caller shows the same bounds. The lower word has a multiplication of its own:
// with one for both, two chains side by side (`math_normal::norm_cdf_two`) were 16 % slower.
fn sum(a: u64, y: u64, c: u64) -> Sum
    requires { (2 ^ 53 ≤ c) × (a + c < 2 ^ 62) }
    ensures { (result.whole ≡ a * y / 2 ^ 64 + c) × (result.sticky ≡ min (a * y % 2 ^ 64) 1) }
{
    let high = ieee_words::upper(ieee_words::product(a, y));
    let low = a.wrapping_mul(y);
    Sum {
        whole: high + c,
        sticky: low.min(1),
    }
}

// A sum to 53 digits, which are put back to their places.
fn settled(s: Sum) -> u64
    ensures { Settled s.whole s.sticky result }
{
    let k = s.rounded();
    k.digits * 1024 >> k.up
}

// The same as an f64. A caller has the bound from that of a last step.
fn packed(s: Sum, places: u64) -> f64
    requires { places ≤ 60 }
    ensures { result ≡ settled_of s.whole s.sticky places }
{
    let k = s.rounded();
    f64::from_bits((1084 - places - k.up) * 0x10_0000_0000_0000 + k.digits)
}
