// The functions that are held to the tables.
ghost use Rattle.std.specs.Prelude.{◌≡◌};
ghost use Rattle.test_normal_table.specs.Meet.{normal_of};

use std::fmt;

#[derive(Clone, Copy, Debug, PartialEq, Eq)]
pub enum Normal {
    Cdf,
    CdfDual,
}

impl Normal {
    pub fn at(self, x: f64) -> f64
        ensures { result ≡ normal_of self x }
    {
        match self {
            Normal::Cdf => math_normal::norm_cdf(x),
            Normal::CdfDual => math_normal::norm_cdf_dual(x),
        }
    }
}

impl fmt::Display for Normal {
    fn fmt<W: fmt::Write>(&self, f: &mut fmt::Formatter<W>) -> fmt::Result {
        f.write_str(match self {
            Normal::Cdf => "norm_cdf",
            Normal::CdfDual => "norm_cdf_dual",
        })
    }
}
