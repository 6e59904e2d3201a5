// norm_cdf.rs: the two polynomials of Hart's double-precision algorithm (G. West, Wilmott 2005), and their quotient.
// The f64 function takes each step fused; the DualFwd one rounds the product and then the sum.
#![tactic(auto)]

ghost use Rattle.std.specs.Prelude.{◌≡◌, true, false, IfSome, Float};
ghost use Rattle.ieee.specs.Fused.{fused_of};
ghost use Rattle.math_hart.specs.Polynomials.{horner_step_of, horner, hart_of};
ghost use Rattle.math_hart.specs.Sized.{Sized, Ordinary};

// The coefficients as norm_cdf.rs prints them, the highest power's first.
const NUM_0: f64 = 3.52624965998911e-2;

const NUM_1: f64 = 0.700383064443688;

const NUM_2: f64 = 6.37396220353165;

const NUM_3: f64 = 33.912866078383;

const NUM_4: f64 = 112.079291497871;

const NUM_5: f64 = 221.213596169931;

const NUM_6: f64 = 220.206867912376;

const DEN_0: f64 = 8.83883476483184e-2;

const DEN_1: f64 = 1.75566716318264;

const DEN_2: f64 = 16.064177579207;

const DEN_3: f64 = 86.7807322029461;

const DEN_4: f64 = 296.564248779674;

const DEN_5: f64 = 637.333633378831;

const DEN_6: f64 = 793.826512519948;

const DEN_7: f64 = 440.413735824752;

// Those that follow the first, for steps in a loop.
const NUM_REST: [f64; 6] = [NUM_1, NUM_2, NUM_3, NUM_4, NUM_5, NUM_6];

const DEN_REST: [f64; 7] = [DEN_1, DEN_2, DEN_3, DEN_4, DEN_5, DEN_6, DEN_7];

// How a step of the polynomials, a × z + c, is rounded.
pub trait Step {
    ghost step_of: { Float → Float → Float → Float };

    fn step(a: f64, z: f64, c: f64) -> f64
        ensures { result ≡ step_of a z c };

    // The quotient by a quicker way, where there is one.
    fn quicker(z: f64, e: f64) -> Option<f64>
        ensures { IfSome result (λ q. q ≡ hart_of step_of z e) }
    {
        None
    }
}

// The step of the f64 function: rounded once.
pub struct Fused;

impl Step for Fused {
    ghost step_of = { horner_step_of false };

    fn step(a: f64, z: f64, c: f64) -> f64 {
        ieee::fused(a, z, c)
    }

    fn quicker(z: f64, e: f64) -> Option<f64> {
        if sized(z, 1003, 1025) {
            Some(quotient(z, e))
        } else {
            None
        }
    }
}

// The step of the DualFwd one: the product is rounded, and then the sum.
pub struct ProductThenSum;

impl Step for ProductThenSum {
    ghost step_of = { horner_step_of true };

    fn step(a: f64, z: f64, c: f64) -> f64 {
        a * z + c
    }
}

// The quotient of Hart's two polynomials.
pub fn hart<S: Step>(z: f64, e: f64) -> f64
    ensures { result ≡ hart_of S.step_of z e }
{
    match S::quicker(z, e) {
        Some(q) => q,
        None => e * horner::<S>(z, NUM_0, &NUM_REST) / horner::<S>(z, DEN_0, &DEN_REST),
    }
}

// a starts at the first coefficient, and takes a step with each of the others.
fn horner<S: Step>(z: f64, first: f64, rest: &[f64]) -> f64
    ensures { result ≡ horner S.step_of z first rest.now }
{
    let mut a = first;
    for c in rest {
        a = S::step(a, z, *c);
    }
    a
}

// Whether z is above 0 and its exponent's field, the first digits of its pattern after a sign that is +, is
// within these bounds.
pub fn sized(z: f64, low: u64, high: u64) -> bool
    ensures { result ≡ true → Sized z low high }
{
    if z > 0.0 {
        let field = z.to_bits() / 0x10_0000_0000_0000;
        (low <= field) & (field <= high)
    } else {
        false
    }
}

// The quotient at an ordinary z, as a caller has tested by `sized`: the numbers stay taken apart from step to
// step. The steps of the two polynomials alternate, so that a processor works on both at once. They are written
// out: norm_cdf by a loop over the coefficients, each taken apart as it runs, was a tenth slower.
fn quotient(z: f64, e: f64) -> f64
    requires { Ordinary z }
    ensures { result ≡ hart_of fused_of z e }
{
    let y = ieee_chains::opened(z);
    let a = ieee_chains::opened(NUM_0);
    let b = ieee_chains::opened(DEN_0);
    let b = ieee_chains::step(b.sig, b.exp, y.sig, y.exp, DEN_1);
    let a = ieee_chains::step(a.sig, a.exp, y.sig, y.exp, NUM_1);
    let b = ieee_chains::step(b.sig, b.exp, y.sig, y.exp, DEN_2);
    let a = ieee_chains::step(a.sig, a.exp, y.sig, y.exp, NUM_2);
    let b = ieee_chains::step(b.sig, b.exp, y.sig, y.exp, DEN_3);
    let a = ieee_chains::step(a.sig, a.exp, y.sig, y.exp, NUM_3);
    let b = ieee_chains::step(b.sig, b.exp, y.sig, y.exp, DEN_4);
    let a = ieee_chains::step(a.sig, a.exp, y.sig, y.exp, NUM_4);
    let b = ieee_chains::step(b.sig, b.exp, y.sig, y.exp, DEN_5);
    let a = ieee_chains::step(a.sig, a.exp, y.sig, y.exp, NUM_5);
    let b = ieee_chains::step(b.sig, b.exp, y.sig, y.exp, DEN_6);
    let a = ieee_chains::step(a.sig, a.exp, y.sig, y.exp, NUM_6);
    let b = ieee_chains::step(b.sig, b.exp, y.sig, y.exp, DEN_7);
    e * ieee_chains::closed(a.sig, a.exp) / ieee_chains::closed(b.sig, b.exp)
}
