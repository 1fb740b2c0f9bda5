//! Which protocol a packet is of.
ghost use Rattle.std.specs.Prelude.{◌≡◌};
ghost use Rattle.sd_show.specs.Shown.{is_tftp_port};
ghost use Rattle.sd_view.specs.Protocols.{has_port, rpc_protocol, protocol_of};

use sd_outside::{Addr, Packet};
use sd_tftp::TFTP_PORT;

/// The protocols that a boot goes through.
#[derive(Clone, Copy, Debug, PartialEq, Eq)]
pub(crate) enum Protocol {
    Rarp,
    Tftp,
    Portmap,
    Bootparams,
    Mount,
    Nfs,
    /// None of these, as far as the ports tell.
    Other,
}

/// Whether a port is one of TFTP: the server's, or that of a session.
fn is_tftp_port(port: u16) -> bool
    ensures { result ≡ is_tftp_port port }
{
    port == TFTP_PORT || (4096..=8191).contains(&port)
}

/// Whether either port is this one.
fn has_port(src: Addr, dst: Addr, port: u16) -> bool
    ensures { result ≡ has_port src dst port }
{
    src.port == port || dst.port == port
}

/// The protocol of a datagram that isn't of TFTP.
fn rpc_protocol(src: Addr, dst: Addr) -> Protocol
    ensures { result ≡ rpc_protocol src dst }
{
    if has_port(src, dst, 111) {
        Protocol::Portmap
    } else if has_port(src, dst, 1016) {
        Protocol::Bootparams
    } else if has_port(src, dst, 1017) {
        Protocol::Mount
    } else if has_port(src, dst, 2049) {
        Protocol::Nfs
    } else {
        Protocol::Other
    }
}

/// The protocol of a packet.
pub(crate) fn protocol_of(packet: &Packet) -> Protocol
    ensures { result ≡ protocol_of packet.now }
{
    match packet {
        Packet::Frame(_) => Protocol::Rarp,
        Packet::Udp { src, dst, .. } => {
            if is_tftp_port(src.port) || is_tftp_port(dst.port) {
                Protocol::Tftp
            } else {
                rpc_protocol(*src, *dst)
            }
        }
    }
}
