// The report: a line a function, and a last line with the totals.
use crate::function::{Function, NoFunction};
use crate::tally::Tally;
use std::io;
use std::io::Print;

pub fn write(rt: &impl Print, t: &Tally) -> io::Result<()> {
    for function in Function::ALL {
        println!(rt; "{function} {}", t.lines[function as usize])?;
    }
    let unnamed = t.lines[0];
    if unnamed.count.seen > 0 {
        println!(rt; "{NoFunction} {unnamed}")?;
    }
    if t.rest > 0 {
        println!(rt; "bytes after the last record: {}", t.rest)?;
    }
    println!(rt; "total {}", t.total)
}
