// Holds both normal functions to two printed tables, to every digit that is printed, and to digits that
// mpmath worked out. Writes each row that is not met, and how many rows are met of each part.
#![tactic(auto)]

mod count;
mod decimal;
mod normal;
mod part;
mod row;
mod tables;

use normal::Normal;
use part::Part;
use std::io;

fn main(rt: HostRuntime) -> io::Result<()> {
    for part in Part::ALL {
        let cdf = part.counted(&rt, Normal::Cdf);
        let dual = part.counted(&rt, Normal::CdfDual);
        println!(rt; "{part}: {} {cdf}; {} {dual}", Normal::Cdf, Normal::CdfDual)?;
    }
    Ok(())
}
