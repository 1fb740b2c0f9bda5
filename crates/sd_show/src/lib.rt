//! Packets as texts that people read: the text of a packet, and the packet of a text.
//!
//! `show_line` answers the text of a packet of TFTP, of an RPC message or of a RARP frame, or why there is none, in a word and a
//! place. Calls of the portmapper, bootparams, MOUNT and NFS are shown by name and with their fields, and replies by the call that
//! they answer, which `Seen` keeps. `pack_line` answers the packet whose text it is given, however the byte runs in it are split.
//! What is shown is packed again, to the written form of the packet.
#![tactic(auto)]

mod calls;
mod error;
mod fields;
mod files;
mod form;
mod frames;
mod laws;
mod lines;
mod packets;
mod packing;
mod procedures;
mod programs;
mod saying;
mod showing;
mod taking;

pub use calls::Seen;
pub use error::{ShowError, Word};
pub use laws::{
    either_packed, either_way, never_both, one_packet, one_refusal, one_text, packed_is_shown,
    shown_is_packed,
};
pub use packets::{pack_line, show_line};
