//! Who is where: the client, the server, and all others.
ghost use Rattle.std.specs.Prelude.{◌≡◌};
ghost use Rattle.sd_rarp.specs.Frame.{reading};
ghost use Rattle.sd_view.specs.Ends.{is_request, told_ends, ends_of, column_of, sender, receiver};

use crate::lines::Line;
use sd_outside::{BROADCAST_IP, Packet};
use sd_rarp::{RarpFrame, read_frame};

/// Whose lifeline.
#[derive(Clone, Copy, Debug, PartialEq, Eq)]
pub(crate) enum Column {
    Client,
    Server,
    /// That of all others.
    Stranger,
}

/// The internet addresses of the server and of the client.
#[derive(Clone, Copy, Debug, PartialEq, Eq)]
pub(crate) struct Ends {
    pub server: u32,
    pub client: u32,
}

/// The addresses that a line tells.
fn told_ends(line: &Line) -> Option<Ends>
    ensures { result ≡ told_ends line.now }
{
    match line {
        Line::Sent { packet, .. } => match packet {
            Packet::Frame(bytes) => match read_frame(bytes.as_slice()) {
                Ok(
                    RarpFrame::Reply {
                        sender_ip,
                        target_ip,
                        ..
                    },
                ) => Some(Ends {
                    server: sender_ip,
                    client: target_ip,
                }),
                Ok(RarpFrame::Request { .. }) => None,
                Err(_) => None,
            },
            Packet::Udp { .. } => None,
        },
        _ => None,
    }
}

/// The addresses that the first reply frame of a run tells.
pub(crate) fn ends_of(run: &[Line]) -> Option<Ends>
    ensures { result ≡ ends_of run.now }
{
    for line in run {
        if let Some(ends) = told_ends(line) {
            return Some(ends);
        }
    }
    None
}

/// Whose an internet address is.
fn column_of(ends: Option<Ends>, ip: u32) -> Column
    ensures { result ≡ column_of ends ip }
{
    match ends {
        None => Column::Stranger,
        Some(ends) => {
            if ip == ends.client {
                Column::Client
            } else if ip == ends.server {
                Column::Server
            } else {
                Column::Stranger
            }
        }
    }
}

/// Whether a frame is a request.
fn is_request(frame: &[u8]) -> bool
    ensures { result ≡ is_request (reading frame.now) }
{
    match read_frame(frame) {
        Ok(RarpFrame::Request { .. }) => true,
        Ok(RarpFrame::Reply { .. }) => false,
        Err(_) => false,
    }
}

/// Who sends a packet.
pub(crate) fn sender(ends: Option<Ends>, packet: &Packet) -> Column
    ensures { result ≡ sender ends packet.now }
{
    match packet {
        Packet::Frame(bytes) => {
            if is_request(bytes.as_slice()) {
                Column::Client
            } else {
                Column::Server
            }
        }
        Packet::Udp { src, .. } => column_of(ends, src.ip),
    }
}

/// To whom a packet goes.
pub(crate) fn receiver(ends: Option<Ends>, packet: &Packet) -> Column
    ensures { result ≡ receiver ends packet.now }
{
    match packet {
        Packet::Frame(bytes) => {
            if is_request(bytes.as_slice()) {
                Column::Server
            } else {
                Column::Client
            }
        }
        Packet::Udp { dst, .. } => {
            if dst.ip == BROADCAST_IP {
                Column::Server
            } else {
                column_of(ends, dst.ip)
            }
        }
    }
}
