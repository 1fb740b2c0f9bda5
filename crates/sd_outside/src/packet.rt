//! Addresses, and what travels on the network.
ghost use Rattle.std.specs.Prelude.{◌≡◌, IfOk};

use crate::{ByteList, NoMemory};

/// A hardware address of Ethernet, in the order of its bytes on the wire.
#[derive(Clone, Copy, Debug, PartialEq, Eq)]
pub struct Mac(pub [u8; 6]);

/// An internet address, its first byte the highest (RFC 791, section 3.1), and a port (RFC 768).
#[derive(Clone, Copy, Debug, PartialEq, Eq)]
pub struct Addr {
    pub ip: u32,
    pub port: u16,
}

/// The address to which everyone listens (RFC 919).
pub const BROADCAST_IP: u32 = 0xffff_ffff;

/// What one machine sends to another.
#[derive(Debug, Drop)]
pub enum Packet {
    /// A RARP frame, all bytes as they are on the wire (RFC 903).
    Frame(ByteList),
    /// A datagram with its source, its destination and what it carries (RFC 768).
    Udp {
        src: Addr,
        dst: Addr,
        body: ByteList,
    },
}

impl Packet {
    /// A further packet with the same addresses and bytes.
    pub fn copy(&self) -> Result<Packet, NoMemory>
        ensures { IfOk result (λ packet. packet ≡ self.now) }
    {
        match self {
            Packet::Frame(bytes) => Ok(Packet::Frame(bytes.copy()?)),
            Packet::Udp { src, dst, body } => Ok(Packet::Udp {
                src: *src,
                dst: *dst,
                body: body.copy()?,
            }),
        }
    }
}
