// The functions under test, by the numbers that records give them.
ghost use Rattle.std.specs.Prelude.{◌≡◌, cond};
ghost use Rattle.ieee.specs.Numbers.{zero, one};
ghost use Rattle.std.specs.Float.Ieee.Scale.{finite as Scale·finite};
ghost use Rattle.test_vectors.specs.Named.{result_of, number_of, Names};

use std::fmt;

#[derive(Clone, Copy, Debug, PartialEq, Eq)]
pub enum Function {
    Fused = 1,
    Sqrt,
    Exp,
    ExpM1,
    Ln,
    NormPdf,
    NormCdf,
    NormCdfDual,
    Signum,
    Midpoint,
    Max,
    Min,
    Abs,
    IsFinite,
}

// A number that no function has.
#[derive(Clone, Copy, Debug, PartialEq, Eq)]
pub struct NoFunction;

impl Function {
    // All of them, by their numbers.
    pub const ALL: [Function; 14] = [
        Function::Fused,
        Function::Sqrt,
        Function::Exp,
        Function::ExpM1,
        Function::Ln,
        Function::NormPdf,
        Function::NormCdf,
        Function::NormCdfDual,
        Function::Signum,
        Function::Midpoint,
        Function::Max,
        Function::Min,
        Function::Abs,
        Function::IsFinite,
    ];

    // What the function gives. One that takes fewer arguments takes the first ones.
    #[tactic(auto, unfolding(crate::specs::Named::result_of))]
    pub fn of(self, a: f64, b: f64, c: f64) -> f64
        ensures { result ≡ result_of (number_of self) a b c }
    {
        match self {
            Function::Fused => ieee::fused(a, b, c),
            Function::Sqrt => ieee::sqrt(a),
            Function::Exp => math_exponential::exp(a),
            Function::ExpM1 => math_exponential::exp_m1(a),
            Function::Ln => math_elementary::ln(a),
            Function::NormPdf => math_exponential::norm_pdf(a),
            Function::NormCdf => math_normal::norm_cdf(a),
            Function::NormCdfDual => math_normal::norm_cdf_dual(a),
            Function::Signum => math_elementary::signum(a),
            Function::Midpoint => math_elementary::midpoint(a, b),
            Function::Max => math_elementary::max(a, b),
            Function::Min => math_elementary::min(a, b),
            Function::Abs => math_elementary::abs(a),
            Function::IsFinite => finite(a),
        }
    }
}

// Finiteness as a number: 1 or 0.
fn finite(x: f64) -> f64
    ensures { result ≡ cond (Scale·finite x) one zero }
{
    if math_elementary::is_finite(x) {
        1.0
    } else {
        0.0
    }
}

impl TryFrom<u64> for Function {
    type Error = NoFunction;

    ghost try_from_gives = { Names };

    fn try_from(number: u64) -> Result<Self, NoFunction> {
        match number {
            1 => Ok(Function::Fused),
            2 => Ok(Function::Sqrt),
            3 => Ok(Function::Exp),
            4 => Ok(Function::ExpM1),
            5 => Ok(Function::Ln),
            6 => Ok(Function::NormPdf),
            7 => Ok(Function::NormCdf),
            8 => Ok(Function::NormCdfDual),
            9 => Ok(Function::Signum),
            10 => Ok(Function::Midpoint),
            11 => Ok(Function::Max),
            12 => Ok(Function::Min),
            13 => Ok(Function::Abs),
            14 => Ok(Function::IsFinite),
            _ => Err(NoFunction),
        }
    }
}

impl fmt::Display for Function {
    fn fmt<W: fmt::Write>(&self, f: &mut fmt::Formatter<W>) -> fmt::Result {
        f.write_str(match self {
            Function::Fused => "fused",
            Function::Sqrt => "sqrt",
            Function::Exp => "exp",
            Function::ExpM1 => "exp_m1",
            Function::Ln => "ln",
            Function::NormPdf => "norm_pdf",
            Function::NormCdf => "norm_cdf",
            Function::NormCdfDual => "norm_cdf_dual",
            Function::Signum => "signum",
            Function::Midpoint => "midpoint",
            Function::Max => "max",
            Function::Min => "min",
            Function::Abs => "abs",
            Function::IsFinite => "is_finite",
        })
    }
}

impl fmt::Display for NoFunction {
    fn fmt<W: fmt::Write>(&self, f: &mut fmt::Formatter<W>) -> fmt::Result {
        f.write_str("no function")
    }
}
