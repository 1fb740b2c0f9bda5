//! The MOUNT protocol, version 1 (RFC 1094, appendix A): its messages, what a server exports, and who has mounted what.
//!
//! A reader answers what the bytes spell, or the first refusal with its place. What is written for arguments or a result is read as
//! these and as no other, and is their only spelling. The exports and the mount list answer as the lists that they stand for; no two
//! mounts are equal, and there are at most 64.
#![tactic(auto)]

mod exports;
mod laws;
mod lists;
mod message;
mod mounts;
mod reading;
mod writing;

pub use exports::{ExportEntries, ExportEntry, Exports};
pub use laws::{
    added_is_there, args_one_spelling, args_written_are_read, removed_is_gone, result_one_spelling,
    result_written_is_read, same_is_equal,
};
pub use lists::{ExportItem, ExportList, MountPair, PairList, TextList};
pub use message::{MountArgs, MountResult};
pub use mounts::MountList;
pub use reading::{read_mount_args, read_mount_result};
pub use sd_outside::FHandle;
pub use writing::{write_mount_args, write_mount_result};
