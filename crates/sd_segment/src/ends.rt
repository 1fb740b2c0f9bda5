//! Which end a packet goes to.
ghost use Rattle.std.specs.Prelude.{◌≡◌, take};
ghost use Rattle.std.specs.Str.{bytes_eq};
ghost use Rattle.sd_link.specs.Steps.{goes_to_server, goes_to_client};
ghost use Rattle.sd_segment.specs.Flight.{sender_of, goes_to};

use crate::flown::{Flown, Origin};
use sd_config::Config;
use sd_outside::{BROADCAST_IP, Packet};

/// The end that a packet goes to.
#[derive(Clone, Copy, Debug, PartialEq, Eq)]
pub enum End {
    Client,
    Server,
}

fn goes_to_server(config: &Config, flown: &Flown) -> bool
    ensures { result ≡ goes_to_server config.now (sender_of flown.now.from) flown.now.packet }
{
    match flown.from {
        Origin::Server => false,
        Origin::Client | Origin::Stranger => match &flown.packet {
            Packet::Frame(_) => true,
            Packet::Udp { dst, .. } => dst.ip == config.server.ip || dst.ip == BROADCAST_IP,
        },
    }
}

fn begins_with(bytes: &[u8], mac: &[u8]) -> bool
    ensures { result ≡ bytes_eq (take 6 bytes.now) mac.now }
{
    let front = if bytes.len() < 6 { bytes } else { &bytes[..6] };
    front == mac
}

fn goes_to_client(config: &Config, flown: &Flown) -> bool
    ensures { result ≡ goes_to_client config.now (sender_of flown.now.from) flown.now.packet }
{
    match flown.from {
        Origin::Client => false,
        Origin::Server | Origin::Stranger => match &flown.packet {
            Packet::Frame(bytes) => begins_with(bytes.as_slice(), &config.client.mac.0),
            Packet::Udp { dst, .. } => dst.ip == config.client.ip,
        },
    }
}

/// Whether a packet goes to this end.
pub fn goes_to(end: End, config: &Config, flown: &Flown) -> bool
    ensures { result ≡ goes_to end config.now (sender_of flown.now.from) flown.now.packet }
{
    match end {
        End::Server => goes_to_server(config, flown),
        End::Client => goes_to_client(config, flown),
    }
}
