//! Texts: what they are made of, and how they are read and written.
//!
//! A text is described by a kind (`specs/Kind.antt`), as a message is in `sd_xdr`: words of a class of bytes, fixed texts, one part
//! behind another, the same again and again, a choice by a keyword or by the next byte, a test on the value. `Reads` says which
//! texts spell which value, `writes` which text is written for it. Of a kind that is clear, which a function of it decides, reading
//! from left to right gives the one value that a text spells, or none where it spells none; what is written is read as the same
//! value; and where no byte run stands each value has one text. These laws are proved once for all kinds (`laws`).
//!
//! Beside the kinds stand the readers and writers that scripts, transcripts and packet lines share: numbers, addresses, byte runs,
//! the fields of a line, and the line of a packet.
#![tactic(auto)]

mod class;
mod error;
mod fields;
mod laws;
mod packets;
mod parts;
mod quoting;
mod reader;
mod runs;
mod values;
mod words;
mod writer;
mod writing;

pub use class::Class;
pub use error::{LineError, PacketLineError};
pub use fields::{
    only_number, read_addr, read_ip, take_addr, take_end, take_ip, take_number, take_runs,
};
pub use laws::{
    one_text, one_value, packet_lines_are_read_again, read_before_more, read_has_text,
    reading_is_the_grammar, runs_are_read_again, unclear_kinds, written_is_read,
};
pub use packets::{read_packet_line, write_packet_line};
pub use parts::Parts;
pub use reader::{TextReader, is_word};
pub use runs::{read_runs_within, write_runs};
pub use values::{read_mac, read_number, same_text};
pub use words::all_but;
pub use writer::TextWriter;
pub use writing::{addr_list, ip_list, push_number};
