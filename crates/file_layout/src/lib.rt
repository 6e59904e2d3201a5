// A run file, lent as bytes: whether it keeps document 01's layout, and its floats and jobs. The numbers in any
// other list of bytes are read here too, and the bytes themselves from a reader.
#![tactic(auto)]

mod bytes;
mod input;
mod parts;
mod reading;
mod records;

pub use bytes::{float_of, half, word};
pub use input::fill;
pub use parts::{Layout, Part, lay_out};
pub use reading::{Which, list, read_lists};
pub use records::{Job, alpha, column, nth_job};
