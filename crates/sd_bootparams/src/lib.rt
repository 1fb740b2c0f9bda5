//! Bootparams, version 1: its messages, the bootparams file, and what a server answers by it (SunOS, `bootparam_prot.x` and
//! bootparams(5)).
//!
//! A reader answers what the bytes spell, or the first refusal with its place; an address is read in both spellings of its chars.
//! `read_params` answers what a file says, or the line of its first refused word and why. `Params` and `Book` answer as the lists
//! that they stand for.
#![tactic(auto)]

mod book;
mod draft;
mod known;
mod laws;
mod message;
mod params;
mod reading;
mod words;
mod writing;

pub use book::{Book, Host, Hosts};
pub use draft::{Draft, Next, blank_draft, read_line, read_params};
pub use laws::{
    args_written_are_read, backslash_is_a_space, begins_blank, clients_differ, either_way,
    entries_are_found, ip_spellings, items_are_their_parts, lines_are_the_text, never_both,
    next_line_refused, next_line_stands, one_reading, one_refusal, read_are_args, read_is_result,
    result_written_is_read, standing_is_file,
};
pub use message::{BpArgs, BpResult};
pub use params::{Entry, Params, ParamsError, Why};
pub use reading::{read_bp_args, read_bp_result};
pub use writing::{write_bp_args, write_bp_result};
