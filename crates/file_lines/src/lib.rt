// What the program prints, as bytes in a lent buffer: the header, a line a job or path point, and the
// one line of a file that breaks its layout; and the bits of a value, as they are printed.
#![tactic(auto)]

mod lines;

pub use lines::{Line, write_header, write_line, write_refused};
