//! Byte runs: texts that stand for bytes.

mod reading;
mod writing;

pub use reading::read_runs_within;
pub use writing::write_runs;
