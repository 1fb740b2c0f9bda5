//! What the server answers.
ghost use Rattle.std.specs.Prelude.{◌≡◌, ◌≤◌, length, None, IfOk};
ghost use Rattle.sd_server.specs.Sessions.{packets_in};

use crate::sessions::Sending;
use sd_outside::{ByteList, ListOf, NoMemory, Packet};
use std::alloc::Global;

/// Packets, in order.
pub type PacketList = ListOf<Packet>;

/// What the server answers to a packet or at a tick.
#[derive(Debug, Drop)]
pub struct Replies {
    /// The packets that it sends.
    pub packets: PacketList,
    /// Whether the disk failed, so that the answer is status 5 (RFC 1094, section 2.3.1).
    pub faulted: bool,
    /// The place at which bringing the store up found its image damaged in this call, 8 for its version.
    pub damaged: Option<u64>,
}

/// What becomes of what a server holds in memory.
#[derive(Drop)]
pub enum Change {
    /// Nothing.
    Stays,
    /// This session begins.
    Begins(Sending),
    /// The session with this number is now this.
    Moves(Sending),
    /// The session with this number ends.
    Ends(u64),
    /// The machine mounts a path.
    Mounts { host: u32, path: ByteList },
    /// The machine's mount of a path ends.
    Unmounts { host: u32, path: ByteList },
    /// All mounts of the machine end.
    Leaves { host: u32 },
}

/// What a server does with a packet: the packet that it sends, and what becomes of what it holds in memory.
#[derive(Drop)]
pub struct Answer {
    pub out: Option<Packet>,
    pub change: Change,
}

/// Nothing is sent.
pub fn quiet(change: Change) -> Answer
    ensures { result ≡ record { out = None; change = change } }
{
    Answer { out: None, change }
}

/// The list of a packet that is there, or of none.
pub fn packets_of(alloc: Global, out: Option<Packet>) -> Result<PacketList, NoMemory>
    ensures packets { IfOk result (λ list. list ≡ packets_in out) }
    ensures few { IfOk result (λ list. length list ≤ 1) }
{
    let mut list = PacketList::empty(alloc);
    match out {
        None => {}
        Some(packet) => list.push(packet)?,
    }
    Ok(list)
}
