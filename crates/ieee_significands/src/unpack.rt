// A finite f64 taken apart.
ghost use Rattle.std.specs.Prelude.{◌≡◌, ◌+◌, ◌*◌, ◌^◌, ◌<◌, T};
ghost use Rattle.std.specs.Float.Ieee.Scale as Scale;
ghost use Rattle.ieee_significands.specs.Parts as Spec;
ghost use Rattle.ieee_significands.specs.Parts.{Normal, Unpacked};

// ±sig * 2^exp in units of 2^-1138, with the significand at full width: 61 digits, or 0.
#[derive(Clone, Copy, Debug, PartialEq, Eq)]
pub struct Parts {
    pub sign: bool,
    pub sig: u64,
    pub exp: u64,
    pub ghost normal: { Normal sig exp },
}

// The fields of a bit pattern: the sign, the exponent's field and the digits.
#[derive(Clone, Copy, Debug, PartialEq, Eq)]
pub struct Fields {
    pub sign: bool,
    pub exp: u64,
    pub digits: u64,
}

// The fields of the bit pattern of an x that a caller has found finite.
pub fn read(x: f64) -> Fields
    requires { T (Scale.finite x) }
    ensures { Spec.Fields x result.sign result.exp result.digits }
{
    let bits = f64::to_bits(x);
    Fields {
        sign: 0x8000_0000_0000_0000 <= bits,
        exp: bits / 0x10_0000_0000_0000 % 0x800,
        digits: bits % 0x10_0000_0000_0000,
    }
}

// The sign, the significand and the exponent of an x that a caller has found finite.
pub fn unpack(x: f64) -> Parts
    requires { T (Scale.finite x) }
    ensures { Unpacked x result.sign result.sig result.exp }
{
    let f = read(x);
    if 0 < f.exp {
        return ordinary(f);
    }
    if f.digits == 0 {
        return Parts {
            sign: f.sign,
            sig: 0,
            exp: 0,
        };
    }
    normal(f.sign, 1, f.digits)
}

// ±(digits + 2^52) * 2^(exp + 63): a field of exp that is not 0 gives the significand its leading digit. A
// caller has the bounds from `read`.
pub fn ordinary(f: Fields) -> Parts
    requires { (f.exp < 2 ^ 11) × (f.digits < 2 ^ 52) }
    ensures { (result.sign ≡ f.sign) × (result.sig * 2 ^ result.exp ≡ (f.digits + 2 ^ 52) * 2 ^ (f.exp + 63)) × (0 < result.sig) }
{
    normal(f.sign, f.exp, f.digits + 0x10_0000_0000_0000)
}

// ±sig * 2^(exp + 63), with sig brought to full width by its count of leading zeros. A caller has the bounds
// from `read`, and a sig that is not 0. Where there is a leading digit the compiler knows the count, so that it
// costs nothing.
fn normal(sign: bool, exp: u64, sig: u64) -> Parts
    requires { (exp < 2 ^ 11) × (0 < sig) × (sig < 2 ^ 53) }
    ensures { (result.sign ≡ sign) × (result.sig * 2 ^ result.exp ≡ sig * 2 ^ (exp + 63)) × (0 < result.sig) }
{
    let up = u64::leading_zeros(sig) as u64 - 3;
    Parts {
        sign,
        sig: sig << up,
        exp: exp + 63 - up,
    }
}
