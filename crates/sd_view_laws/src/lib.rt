//! What `replay` writes is what the views of a run read.
#![tactic(auto)]

mod laws;

pub use laws::written_is_read;
