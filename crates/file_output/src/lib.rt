// A run file's jobs, served: from the lists of a file and a job to the lines that the program prints.
#![tactic(auto)]

mod jobs;
mod pieces;

pub use jobs::{job_lines, worked_line};
pub use pieces::{file_curve_faults, first_line, lines_on, piece};
