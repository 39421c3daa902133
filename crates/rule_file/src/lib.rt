//! Rule files: their form and limits, read part by part, and the first fault of a file that breaks them.
#![tactic(auto)]

mod fault;
mod file;
mod line;

pub use fault::{Fault, FileCause, FileFault, LineCause, LineFault};
pub use file::{Extent, FileReader, MAX_BYTES, Tally, check_file};
pub use line::Part;
