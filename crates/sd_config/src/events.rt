//! What a script's event lines say of the network.

use sd_outside::{Addr, ByteList, ListOf};

/// A list of ticks or of numbers of ticks.
pub type TickList = ListOf<u64>;

/// What becomes of one packet: it is delivered once for each delay, so many ticks after it was sent. Without delays it is lost.
#[derive(Debug, Drop)]
pub struct Fate {
    /// The packet's id: packets are counted from 0 in the order in which they are sent.
    pub id: u64,
    /// At most eight delays, each from 1 to one below the life of packets.
    pub delays: TickList,
}

/// A list of fates. The first with a packet's id counts.
pub type FateList = ListOf<Fate>;

/// A datagram that a stranger sends at this tick, from 1 on, under its own address.
#[derive(Debug, Drop)]
pub struct Stranger {
    pub tick: u64,
    /// Neither end's address, and not the portmapper's port.
    pub src: Addr,
    pub dst: Addr,
    /// At most 9,216 bytes.
    pub body: ByteList,
}

/// Datagrams of strangers.
pub type StrangerList = ListOf<Stranger>;

/// A fault of the client's network that is planned.
#[derive(Clone, Copy, Debug, PartialEq, Eq)]
pub enum PlannedFault {
    /// The client's send of the packet with this id fails, though the packet goes out.
    Send { id: u64 },
    /// This receive of the client fails, counted from 0.
    Recv { call: u64 },
}

/// Planned faults. The same may be there several times.
pub type FaultList = ListOf<PlannedFault>;

/// What the event lines say.
#[derive(Debug, Drop)]
pub struct Events {
    /// The fates of packets. A packet without one is delivered once, one tick after it was sent.
    pub fates: FateList,
    /// What strangers send, in the order of the lines.
    pub strangers: StrangerList,
    /// The planned faults.
    pub faults: FaultList,
}
