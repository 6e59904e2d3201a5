// The pieces of a line of detail.
use search::Bracket;
use std::io::Print;
use std::{fmt, io};

// A float as the 16 hexadecimal digits of its bits. A NaN has those of one.
#[derive(Clone, Copy, Debug)]
pub struct Bits(pub f64);

impl fmt::Display for Bits {
    fn fmt<W: fmt::Write>(&self, f: &mut fmt::Formatter<W>) -> fmt::Result {
        let bits = file_fields::bits_of(self.0);
        write!(f, "{bits:016x}")
    }
}

// Rungs, final bracket and rate of a search, without the line's end.
pub fn search(
    rt: &impl Print,
    below: u64,
    above: u64,
    bracket: Bracket,
    rate: f64,
) -> io::Result<()> {
    let lower = Bits(bracket.lower);
    let upper = Bits(bracket.upper);
    let lower_sum = Bits(bracket.lower_sum);
    let upper_sum = Bits(bracket.upper_sum);
    let rate = Bits(rate);
    print!(rt;
        "  rungs {below} {above} ends {lower} {upper} sums {lower_sum} {upper_sum} rate {rate}"
    )
}

pub fn newton(rt: &impl Print, rate: f64) -> io::Result<()> {
    print!(rt; " newton {}", Bits(rate))
}

pub fn end(rt: &impl Print) -> io::Result<()> {
    println!(rt;)
}
