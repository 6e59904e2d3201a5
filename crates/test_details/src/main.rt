// A test program: what calstwid prints for a run file and, behind each job of kinds 5 to 11, a line of all that
// the library returned. `oracle/compare PROGRAM N SEED --detail` holds it to the Rust.
#![tactic(auto)]

mod answers;
mod serve;
mod text;

use std::io;

fn main(rt: HostRuntime) -> io::Result<()> {
    let mut file = [0u8; 65537];
    let n = file_layout::fill(&mut rt.stdin(), &mut file);
    serve::serve_file(&rt, &file[..n])
}
