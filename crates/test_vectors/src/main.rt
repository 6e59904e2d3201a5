// Reads vectors from standard input, runs each through the function that it names, and writes how
// many differ from the bits that the vector expects.
#![tactic(auto)]

mod function;
mod record;
mod report;
mod tally;

use std::io;
use std::io::Read;
use tally::Tally;

// Reads a thousand records at a time and counts them. Only the last read of an input is short, and only
// there can a record be cut off. No input has as many reads as the loop may make.
fn read_all<R: Read>(input: &mut R) -> Tally {
    let mut tally = Tally::default();
    let mut buf = [0u8; 40000];
    for _ in 0..u64::MAX {
        let n = file_layout::fill(input, &mut buf);
        tally.add_all(&buf[..n]);
        if n < buf.len() {
            break;
        }
    }
    tally
}

fn main(rt: HostRuntime) -> io::Result<()> {
    report::write(&rt, &read_all(&mut rt.stdin()))
}
