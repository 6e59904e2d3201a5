// norm_cdf.rs: Hart's double-precision algorithm (G. West, Wilmott 2005). The f64 function takes each
// step of the two polynomials fused; the DualFwd one rounds the product and then the sum, so the two
// differ in the last bits and neither may stand in for the other.
ghost use Rattle.std.specs.Prelude.{◌≡◌, true, cond};
ghost use Rattle.std.specs.Float.Ieee.{neg, lt};
ghost use Rattle.ieee.specs.Rounded.{◌⊖◌, ◌⊗◌};
ghost use Rattle.ieee.specs.Numbers.{zero, half, one};
ghost use Rattle.math_exponential.specs.Exp.{exp_of, within_limits};
ghost use Rattle.math_normal.specs.NormCdf.{tail_of, upper_of, norm_by, norm_cdf_of, norm_cdf_dual_of};
ghost use Rattle.math_hart.specs.Sized.{Near};
ghost use Rattle.math_normal.specs.Between.{Probability};
ghost use Rattle.math_normal.specs.AsWritten.{norm_cdf_dual_as_written};

use super::both;
use math_exponential::Two;
use math_hart::{Fused, ProductThenSum, Step};

// Between the rational branch and the tail's continued fraction: 5 × √2.
const HART_THRESHOLD: f64 = 7.071067811865475;

pub fn norm_cdf(x: f64) -> f64
    ensures value { result ≡ norm_cdf_of x }
    ensures between { Probability x result }
{
    by::<Fused>(x)
}

pub fn norm_cdf_dual(x: f64) -> f64
    ensures value { result ≡ norm_cdf_dual_of x }
    ensures between { Probability x result }
    ensures as_written { result ≡ norm_cdf_dual_as_written x }
{
    by::<ProductThenSum>(x)
}

// norm_cdf of both, with their exps worked side by side.
pub fn norm_cdf_two(x: f64, y: f64) -> Two
    ensures { (result.first ≡ norm_cdf_of x) × (result.second ≡ norm_cdf_of y) }
{
    let u = math_elementary::abs(x);
    let v = math_elementary::abs(y);
    let a = -u * u * 0.5;
    let b = -v * v * 0.5;
    if both_near(u, v, a, b) {
        let q = both::quotients(u, v, a, b);
        Two {
            first: below(x, q.first),
            second: below(y, q.second),
        }
    } else {
        let e = math_exponential::exp_two(a, b);
        Two {
            first: below(x, upper::<Fused>(u, e.first)),
            second: below(y, upper::<Fused>(v, e.second)),
        }
    }
}

// Either function, by its step.
fn by<S: Step>(x: f64) -> f64
    ensures { result ≡ norm_by S.step_of x }
{
    let z = math_elementary::abs(x);
    let e = math_exponential::exp(-z * z * 0.5);
    below(x, upper::<S>(z, e))
}

// What lies below x, from what lies above |x|.
fn below(x: f64, cum: f64) -> f64
    ensures { result ≡ cond (lt zero x) (one ⊖ cum) cum }
{
    if x > 0.0 { 1.0 - cum } else { cum }
}

// What lies above z, for a z at or above 0 whose exp a caller has worked.
fn upper<S: Step>(z: f64, e: f64) -> f64
    requires { e ≡ exp_of (neg z ⊗ z ⊗ half) }
    ensures { result ≡ upper_of S.step_of z }
{
    if z > 37.0 {
        0.0
    } else if z < HART_THRESHOLD {
        math_hart::hart::<S>(z, e)
    } else {
        tail(z, e)
    }
}

// Whether `quotients` takes both arguments, with a and b for the exponents of their exps.
fn both_near(u: f64, v: f64, a: f64, b: f64) -> bool
    ensures { result ≡ true → Near u × Near v × (within_limits a ≡ true) × (within_limits b ≡ true) }
{
    math_hart::sized(u, 1013, 1024)
        && math_hart::sized(v, 1013, 1024)
        && math_exponential::within_limits(a)
        && math_exponential::within_limits(b)
}

// The tail: a continued fraction of five steps.
fn tail(z: f64, e: f64) -> f64
    ensures { result ≡ tail_of z e }
{
    let mut b = z + 0.65;
    for n in [4.0, 3.0, 2.0, 1.0] {
        b = z + n / b;
    }
    e / (b * math_exponential::SQRT_2PI)
}
