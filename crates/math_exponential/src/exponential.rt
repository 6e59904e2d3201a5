// exp, also of two arguments at once, and exp_m1.
ghost use Rattle.std.specs.Prelude.{◌≡◌, ◌<◌, true, T};
ghost use Rattle.std.specs.Int.Signed.{mag};
ghost use Rattle.std.specs.Float.{binary64};
ghost use Rattle.std.specs.Float.Ieee.{of_int};
ghost use Rattle.ieee.specs.Numbers.{one};
ghost use Rattle.ieee.specs.Rows.{Gives};
ghost use Rattle.math_exponential.specs.Exp.{moderate, nearest_whole, k_of, reduced_of, turn_of, series_of, two_to, scale_of, within_limits, exp_of, exp_m1_of};
ghost use Rattle.math_exponential.specs.ExactCases.{exact_cases};

use math_elementary::{LN_2_HIGH, LN_2_LOW, surely_same};

// Above the first exp is infinite, below the second 0.
const TOP: f64 = 710.0;

const BOTTOM: f64 = -746.0;

// The turns of its series.
const TURNS: u32 = 13;

const LOG2_E: f64 = 1.4426950408889634;

// 2^52 × 1.5, and the bits of the f64 that is 2048 less.
const ROUNDER: f64 = 6755399441055744.0;

const ROUNDER_LESS_2048: u64 = 0x4337_ffff_ffff_f800;

pub fn exp(x: f64) -> f64
    ensures value { result ≡ exp_of x }
    ensures exact { Gives exact_cases x result }
{
    if within_limits(x) {
        let d = reduce(x);
        d.scale(guessed(d.r))
    } else if x > TOP {
        f64::INFINITY
    } else if x < BOTTOM {
        0.0
    } else {
        x
    }
}

#[derive(Clone, Copy)]
pub struct Two {
    pub first: f64,
    pub second: f64,
}

// exp of both. A series is a chain of divisions, each of which waits for the one before; two chains
// side by side take little longer than one.
pub fn exp_two(x: f64, y: f64) -> Two
    ensures { (result.first ≡ exp_of x) × (result.second ≡ exp_of y) }
{
    if within_limits(x) && within_limits(y) {
        let d = reduce(x);
        let e = reduce(y);
        let p = series_two(d.r, e.r);
        Two {
            first: d.scale(p.first),
            second: e.scale(p.second),
        }
    } else {
        Two {
            first: exp(x),
            second: exp(y),
        }
    }
}

pub fn exp_m1(y: f64) -> f64
    ensures { result ≡ exp_m1_of y }
{
    if math_elementary::abs(y) <= 0.5 {
        y * series(y, 2, 16)
    } else {
        exp(y) - 1.0
    }
}

// ---- The parts of exp, for whoever works its series beside other steps too.

// Whether exp works x by its series: of a NaN both tests say no.
pub fn within_limits(x: f64) -> bool
    ensures { result ≡ within_limits x }
{
    (BOTTOM <= x) & (x <= TOP)
}

// x = r + k × ln 2, but for roundings.
#[derive(Clone, Copy)]
pub struct Reduced {
    pub r: f64,
    pub k: i32,
    pub ghost small: { mag k < 2000 },
}

impl Reduced {
    // p × 2^a × 2^b, a being k/2 toward zero and b = k - a.
    pub fn scale(self, p: f64) -> f64
        ensures { result ≡ scale_of p self.k }
    {
        let a = self.k / 2;
        let b = self.k - a;
        p * two_to(a) * two_to(b)
    }
}

// The r and the k of an x that is within the limits, as a caller has tested.
pub fn reduce(x: f64) -> Reduced
    requires { within_limits x ≡ true }
    ensures { (result.r ≡ reduced_of x (k_of x)) × (result.k ≡ k_of x) }
{
    let w = nearest_whole(x * LOG2_E);
    let n = w.n;
    Reduced {
        r: (x - n * LN_2_HIGH) - n * LN_2_LOW,
        k: w.k,
    }
}

// A whole number, as an f64 and as an integer.
#[derive(Clone, Copy)]
struct Whole {
    n: f64,
    k: i32,
}

// The whole number nearest to p, a tie away from zero. A caller has p from an x within the limits, so that it
// is at most 1200 in size.
// From 2^52 to 2^53 the f64s are the whole numbers, and ROUNDER lies in the middle: p + ROUNDER is rounded to
// one of them, whose bits show it. Where n is less than 1/2 from p it is the nearest; so only a tie, which
// ROUNDER takes to the even one, goes the slow way.
fn nearest_whole(p: f64) -> Whole
    requires { T (moderate p) }
    ensures { (result.n ≡ of_int binary64 (nearest_whole p)) × (result.k ≡ nearest_whole p) }
{
    let m = p + ROUNDER;
    let n = m - ROUNDER;
    let d = p - n;
    if d < 0.5 && d > -0.5 {
        let up = m.to_bits() - ROUNDER_LESS_2048;
        Whole {
            n,
            k: up as i32 - 2048,
        }
    } else {
        let k = by_halves(p);
        Whole { n: k as f64, k }
    }
}

// The same for a tie too, by a conversion with many branches. Twice p is exact, and cutting it to a whole
// number loses no tie; p + 0.5 would round. A caller has p at most 1200 in size.
fn by_halves(p: f64) -> i32
    requires { T (moderate p) }
    ensures { result ≡ nearest_whole p }
{
    let q = std::num::truncating_f64_to_i64(p * 2.0) as i32;
    if q >= 0 { (q + 1) / 2 } else { (q - 1) / 2 }
}

// A turn of the series.
pub fn turn(x: f64, p: f64, n: f64) -> f64
    ensures { result ≡ turn_of x p n }
{
    1.0 + (x * p) / n
}

// p starts at 1, and for n = last + turns - 1 down to last becomes 1 + (x × p)/n. A caller gives both as
// literals, below 100.
fn series(x: f64, last: u32, turns: u32) -> f64
    requires last_bound { last < 100 }
    requires turns_bound { turns < 100 }
    ensures { result ≡ series_of x last turns one }
{
    let mut p = 1.0;
    for k in (0..turns).rev() {
        p = turn(x, p, (last + k) as f64);
    }
    p
}

// The series of exp for two numbers, in one loop. It is written out beside `series`: a trait that is one number
// or two would take more lines than this.
fn series_two(x: f64, y: f64) -> Two
    ensures { (result.first ≡ series_of x 1 13 one) × (result.second ≡ series_of y 1 13 one) }
{
    let mut p = 1.0;
    let mut q = 1.0;
    for k in (0..TURNS).rev() {
        let n = (1 + k) as f64;
        p = turn(x, p, n);
        q = turn(y, q, n);
    }
    Two {
        first: p,
        second: q,
    }
}

// The series of exp, by guesses. A turn takes the product with 1/n for the quotient and goes on with the
// sum, which is the same nearly always; the division, for which the next turn would wait, only tells
// whether it is. Where it is not, the series is worked as it stands.
fn guessed(x: f64) -> f64
    ensures { result ≡ series_of x 1 13 one }
{
    let mut p = 1.0;
    for k in (0..TURNS).rev() {
        let n = (1 + k) as f64;
        let guess = 1.0 + (x * p) * (1.0 / n);
        if !surely_same(guess, turn(x, p, n)) {
            return series(x, 1, TURNS);
        }
        p = guess;
    }
    p
}

// 2^a exactly: its exponent's field is a + 1023, and it has no further digits. A caller has halved the k of a
// `Reduced`.
fn two_to(a: i32) -> f64
    requires { mag a < 1022 }
    ensures { result ≡ two_to a }
{
    let field = (a + 1023) as u64;
    f64::from_bits(field * 0x10_0000_0000_0000)
}
