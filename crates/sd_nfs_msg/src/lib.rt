//! The messages of NFS, version 2 (RFC 1094, section 2).
//!
//! A reader answers what the bytes spell, or the first refusal with its place. What is written for arguments or a result is read as
//! these and as no other, and is their only spelling. Any status but 0 is read as a refusal by the server.
#![tactic(auto)]

mod laws;
mod message;
mod parts;
mod reading;
mod writing;

pub use laws::{
    args_one_spelling, args_written_are_read, result_one_spelling, result_written_is_read,
};
pub use message::{NFS_PORT, NfsArgs, NfsResult};
pub use parts::{DirEntry, EntryList, Fattr, Sattr};
pub use reading::{read_args, read_result};
pub use sd_outside::FHandle;
pub use writing::{write_args, write_result};
