//! External data representation: reading and writing the parts of messages (RFC 1014).
//!
//! A kind is a table beside the standard. What bytes spell which value of it, and why all others are refused, is said once for
//! every kind. Each call of a reader or a writer is one item of such a table: a reader answers the value that the bytes spell or
//! the first refusal with its place, and what a writer wrote is read again, whatever follows. The laws of every kind are the
//! contracts of the functions that do nothing.
#![tactic(auto)]

mod bodies;
mod error;
mod items;
mod laws;
mod reader;
mod writer;

pub use bodies::{Body, read_body};
pub use error::{MsgError, XdrError};
pub use items::{Item, read_list, read_times, write_list, write_times};
pub use laws::{
    either_way, never_both, one_refusal, one_spelling, one_value, parts_are_kept,
    read_has_spelling, reading_is_the_grammar, writes_spell, written_is_read,
};
pub use reader::XdrReader;
pub use writer::XdrWriter;
