// The functions with no series: midpoint, max, min, abs, signum, is_finite.
ghost use Rattle.std.specs.Prelude.{◌≡◌, true};
ghost use Rattle.std.specs.Float.Ieee.Scale.{finite};
ghost use Rattle.math_elementary.specs.Simple.{midpoint_of, max_of, min_of, abs_of, signum_of};

// std's midpoint halves before it adds where the sum is large; `midpoint_of` adds first.
pub fn midpoint(a: f64, b: f64) -> f64
    ensures { result ≡ midpoint_of a b }
{
    (a + b) / 2.0
}

// A test against a NaN fails, so none of its own is needed for the second argument. std's max and min promise
// either of two that are equal; `max_of` and `min_of` say the first.
#[tactic(auto, using(crate::proofs::Floats::above_nan))]
pub fn max(a: f64, b: f64) -> f64
    ensures { result ≡ max_of a b }
{
    if a.is_nan() || a < b { b } else { a }
}

#[tactic(auto, using(crate::proofs::Floats::under_nan))]
pub fn min(a: f64, b: f64) -> f64
    ensures { result ≡ min_of a b }
{
    if a.is_nan() || b < a { b } else { a }
}

pub fn abs(x: f64) -> f64
    ensures { result ≡ abs_of x }
{
    x.abs()
}

pub fn signum(x: f64) -> f64
    ensures { result ≡ signum_of x }
{
    x.signum()
}

// By comparisons alone: std's is_finite subtracts.
pub fn is_finite(x: f64) -> bool
    ensures { result ≡ finite x }
{
    (x < f64::INFINITY) & (f64::NEG_INFINITY < x)
}

// Whether two f64 are surely the same value. Of zeros it says no: `==` does not see their sign.
pub fn surely_same(x: f64, y: f64) -> bool
    ensures { result ≡ true → x ≡ y }
{
    x == y && x != 0.0
}
