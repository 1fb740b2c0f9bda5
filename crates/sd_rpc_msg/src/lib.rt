//! Messages of the remote procedure call protocol, version 2, and UNIX credentials (RFC 1057).
//!
//! A reader answers the message that the bytes spell, or the first refusal with its place. What is written for a message is read
//! as that message and as no other, and is its only spelling.
#![tactic(auto)]

mod laws;
mod message;
mod reading;
mod unix;
mod writing;

pub use laws::{
    one_spelling, told_apart, unix_one_spelling, unix_told_apart, unix_written_is_read,
    written_is_read,
};
pub use message::{Call, Message, OpaqueAuth, Outcome, Reply};
pub use reading::read_message;
pub use sd_xdr::MsgError;
pub use unix::{GidList, UnixCred, read_unix, write_unix};
pub use writing::write_message;
