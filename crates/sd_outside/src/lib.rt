//! What every layer stands on: bytes, lists, addresses and packets, and the traits of the outside.
//!
//! A source or a sink may tell the bytes that it has left or that were written, and it counts its faults.
//! It answers `Failed` only where that count rose in the call, and no count ever falls.
//! The calm objects in memory never fail, the others in memory fail as planned.
//!
//! A disk may tell what a read gives and what a crash leaves, now or at a moment before. A sync makes a crash leave what a read
//! gives. A disk in memory can be stopped after some changes and made to crash.
#![tactic(auto)]

mod bytes;
mod calm;
mod calm_disk;
mod copying;
mod disk;
#[cfg(test)]
mod disk_tests;
mod errors;
mod fhandle;
mod history;
mod lines;
mod list;
mod mem_disk;
mod mem_sink;
mod mem_source;
mod packet;
mod planned;
mod range;
mod streams;
mod surface;
#[cfg(test)]
mod tests;

pub use bytes::ByteList;
pub use calm::{CalmSink, CalmSource};
pub use calm_disk::CalmDisk;
pub use disk::{Disk, StopDisk};
pub use errors::{Failed, NoMemory};
pub use fhandle::FHandle;
pub use lines::{place_of, split_line, without_feed};
pub use list::ListOf;
pub use mem_disk::MemDisk;
pub use mem_sink::MemSink;
pub use mem_source::MemSource;
pub use packet::{Addr, BROADCAST_IP, Mac, Packet};
pub use streams::{Sink, Source};
