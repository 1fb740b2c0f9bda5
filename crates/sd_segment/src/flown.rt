//! What a segment keeps of each packet, and of all that happened.

use sd_outside::Packet;

/// Who sent a packet.
#[derive(Clone, Copy, Debug, PartialEq, Eq)]
pub enum Origin {
    Client,
    Server,
    Stranger,
}

/// A packet that was sent, and when.
#[derive(Drop)]
pub struct Flown {
    pub from: Origin,
    pub tick: u64,
    pub packet: Packet,
    /// The place of its fate among those of the events. Without one it comes once, one tick after it was sent.
    pub fate: Option<usize>,
}

/// What happened, by the ids of the packets.
#[derive(Clone, Copy, Debug, PartialEq, Eq)]
pub enum What {
    /// The client sent a packet.
    Sent {
        id: usize,
    },
    /// A stranger sent a packet.
    Strayed {
        id: usize,
    },
    /// A packet came to the server, which sent so many packets, with ids from `first` on.
    Served {
        id: usize,
        first: usize,
        count: usize,
    },
    /// The session with this number sent its present block again.
    Again {
        number: u64,
        id: usize,
    },
    /// The session with this number ended, since its block was sent often enough.
    Ended {
        number: u64,
    },
    /// A packet came to the client.
    Got {
        id: usize,
    },
    /// A receive of the client failed.
    Failed,
}

/// What happened, and when.
#[derive(Clone, Copy, Debug, PartialEq, Eq)]
pub struct Kept {
    pub tick: u64,
    pub what: What,
}
