// Hart's polynomials at two arguments, with the exps that they are multiplied by, all side by side: the
// divisions of an exp wait for each other, and a processor fills that time with the steps of the
// polynomials. These are worked in fixed point, where a step has no case to tell from another.
ghost use Rattle.std.specs.Prelude.{◌≡◌, true, ◌+◌, ◌^◌, ◌<◌};
ghost use Rattle.std.specs.Float.Ieee.{neg};
ghost use Rattle.ieee.specs.Rounded.{◌⊗◌};
ghost use Rattle.ieee.specs.Numbers.{half};
ghost use Rattle.ieee.specs.Fused.{fused_of};
ghost use Rattle.math_exponential.specs.Exp.{within_limits};
ghost use Rattle.math_normal.specs.NormCdf.{upper_of};
ghost use Rattle.math_hart.specs.Sized.{Near};
ghost use Rattle.math_normal.specs.Turns.{num_fixed, den_fixed, Room, Turned, TurnsBegun, Ended};

use math_exponential::{Reduced, Two};

// Hart's coefficients, the n-th times 2^(59 - 2 n): a step takes two places off. They are constants of their
// own beside those of `math_hart`: no constant is worked from another by a call. The proofs hold each
// against the printed one.
// 3.52624965998911e-2
const NUM_0: u64 = 0x48_37b4_2d5f_ef78;

// 0.700383064443688
const NUM_1: u64 = 0x166_989b_e8ea_71f0;

// 6.37396220353165
const NUM_2: u64 = 0x32f_ddfe_550d_e460;

// 33.912866078383
const NUM_3: u64 = 0x43d_3632_ec09_0c40;

// 112.079291497871
const NUM_4: u64 = 0x380_a263_94b1_a780;

// 221.213596169931
const NUM_5: u64 = 0x1ba_6d5c_7a28_cf20;

// 220.206867912376
const NUM_6: u64 = 0x6e_1a7a_a5d3_1f94;

// 8.83883476483184e-2
const DEN_0: u64 = 0xb5_04f3_33f9_de50;

// 1.75566716318264
const DEN_1: u64 = 0x382_e6ce_710f_a220;

// 16.064177579207
const DEN_2: u64 = 0x808_36f8_8dea_4e80;

// 86.7807322029461
const DEN_3: u64 = 0xad8_fbc2_19d2_cd00;

// 296.564248779674
const DEN_4: u64 = 0x944_8394_dd3c_1000;

// 637.333633378831
const DEN_5: u64 = 0x4fa_aad1_fe85_ddc0;

// 793.826512519948
const DEN_6: u64 = 0x18c_e9cb_2989_74a0;

// 440.413735824752
const DEN_7: u64 = 0x37_0d3d_52e9_8fca;

// An argument in fixed point, and the exponent of its exp, reduced.
#[derive(Clone, Copy)]
struct Argument {
    y: u64,
    e: Reduced,
}

// What an argument has so far: the two polynomials in fixed point, and the series of its exp.
#[derive(Clone, Copy)]
struct Share {
    num: u64,
    den: u64,
    p: f64,
}

// The shares of both arguments.
#[derive(Clone, Copy)]
struct Shares {
    first: Share,
    second: Share,
}

// What lies above z and above w, the exponents of their exps being a and b. A caller has worked these, and has
// tested that all four are within their bounds. The turns are written out: a table of the same five rows and a
// loop over it would be no shorter.
pub fn quotients(z: f64, w: f64, a: f64, b: f64) -> Two
    requires { Near z × Near w × (within_limits a ≡ true) × (within_limits b ≡ true) × (a ≡ neg z ⊗ z ⊗ half) × (b ≡ neg w ⊗ w ⊗ half) }
    ensures { (result.first ≡ upper_of fused_of z) × (result.second ≡ upper_of fused_of w) }
{
    let x = Argument {
        y: ieee_chains::fixed_of(z),
        e: math_exponential::reduce(a),
    };
    let v = Argument {
        y: ieee_chains::fixed_of(w),
        e: math_exponential::reduce(b),
    };
    let s = Shares {
        first: begun(x),
        second: begun(v),
    };
    let s = turn_two(s, x, v, NUM_1, DEN_2, 12.0, 11.0);
    let s = turn_two(s, x, v, NUM_2, DEN_3, 10.0, 9.0);
    let s = turn_two(s, x, v, NUM_3, DEN_4, 8.0, 7.0);
    let s = turn_two(s, x, v, NUM_4, DEN_5, 6.0, 5.0);
    let s = turn_two(s, x, v, NUM_5, DEN_6, 4.0, 3.0);
    Two {
        first: last(s.first, x),
        second: last(s.second, v),
    }
}

// The denominator's first step, since it has one more than the numerator, and the first term of exp.
fn begun(x: Argument) -> Share
    ensures { TurnsBegun x.y x.e.r result.num result.den result.p }
{
    Share {
        num: NUM_0,
        den: ieee_chains::fixed_step(DEN_0, x.y, DEN_1),
        p: math_exponential::turn(x.e.r, 1.0, 13.0),
    }
}

// A turn for both. A caller has the bounds from the coefficients before.
fn turn_two(s: Shares, x: Argument, v: Argument, c: u64, d: u64, n: f64, m: f64) -> Shares
    requires { Room s.first.num s.first.den c d × Room s.second.num s.second.den c d }
    ensures first { Turned s.first.num s.first.den s.first.p x.y x.e.r c d n m result.first.num result.first.den result.first.p }
    ensures second { Turned s.second.num s.second.den s.second.p v.y v.e.r c d n m result.second.num result.second.den result.second.p }
{
    Shares {
        first: turn(s.first, x, c, d, n, m),
        second: turn(s.second, v, c, d, n, m),
    }
}

// A step of each polynomial, with the coefficients c and d, and two terms of exp. A caller has the bounds from
// the coefficients before.
fn turn(s: Share, x: Argument, c: u64, d: u64, n: f64, m: f64) -> Share
    requires { Room s.num s.den c d }
    ensures { Turned s.num s.den s.p x.y x.e.r c d n m result.num result.den result.p }
{
    let first = math_exponential::turn(x.e.r, s.p, n);
    Share {
        num: ieee_chains::fixed_step(s.num, x.y, c),
        den: ieee_chains::fixed_step(s.den, x.y, d),
        p: math_exponential::turn(x.e.r, first, m),
    }
}

// The last turn, whose steps have 47 and 45 places, and e × num / den. A caller has the bounds from the
// coefficients before.
fn last(s: Share, x: Argument) -> f64
    requires { (s.num + num_fixed 6 < 2 ^ 62) × (s.den + den_fixed 7 < 2 ^ 62) }
    ensures { Ended s.num s.den s.p x.y x.e.r x.e.k result }
{
    let first = math_exponential::turn(x.e.r, s.p, 2.0);
    let e = x.e.scale(math_exponential::turn(x.e.r, first, 1.0));
    let above = ieee_chains::fixed_last(s.num, x.y, NUM_6, 47);
    let below = ieee_chains::fixed_last(s.den, x.y, DEN_7, 45);
    e * above / below
}
