//! Reading all of an input, writing all of an output, and standard input and output as a source and a sink.
#![tactic(auto)]

mod reading;
mod standard;
mod writing;

pub use reading::{ReadError, read_all};
pub use standard::{StandardInput, StandardOutput};
pub use writing::write_all;
