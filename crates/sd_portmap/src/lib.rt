//! The portmapper, version 2: its messages, and the table of which port serves which program (RFC 1057, appendix A).
//!
//! A reader answers what the bytes spell, or the first refusal with its place. What is written for arguments or a result is read as
//! these and as no other, and is their only spelling. The table answers as the list of its mappings, in order of setting; no two
//! of them are of the same program, version and protocol.
#![tactic(auto)]

mod laws;
mod mapping;
mod message;
mod reading;
mod table;
mod writing;

pub use laws::{
    args_one_spelling, args_written_are_read, mappings_are_found, result_one_spelling,
    result_written_is_read,
};
pub use mapping::{Mapping, MappingList, PMAP_PORT};
pub use message::{PmapArgs, PmapResult};
pub use reading::{read_pmap_args, read_pmap_result};
pub use table::Table;
pub use writing::{write_pmap_args, write_pmap_result};
