//! Replies to frames, and replies of RPC programs as they are sent.
ghost use Rattle.std.specs.Prelude.{◌≡◌, IfOk, IfSome};
ghost use Rattle.std.specs.Option.{option_map};
ghost use Rattle.sd_rpc_msg.specs.Layout.{OutcomeFits};
ghost use Rattle.sd_services.specs.Reply.{rarp_out, is_heard};
ghost use Rattle.sd_services.specs.RpcReply.{rpc_packet, as_packets};
ghost use Rattle.sd_server.specs.Sessions.{packets_in};

use sd_config::Config;
use sd_outside::{Addr, BROADCAST_IP, ByteList, NoMemory, Packet};
use sd_portmap::PMAP_PORT;
use sd_rarp::{answer, read_frame, write_frame};
use sd_rpc_msg::{Message, Reply, write_message};
use std::alloc::Global;

/// The reply to a frame (RFC 903).
pub fn reply_to_frame(
    alloc: Global,
    config: &Config,
    bytes: &[u8],
) -> Result<Option<Packet>, NoMemory>
    ensures { IfOk result (λ out. packets_in out ≡ rarp_out config.now bytes.now) }
{
    let Ok(frame) = read_frame(bytes) else {
        return Ok(None);
    };
    let table = [(config.client.mac, config.client.ip)];
    match answer(&table, (config.server.mac, config.server.ip), &frame) {
        Some(frame) => Ok(Some(Packet::Frame(ByteList::from_slice(alloc, &write_frame(&frame))?))),
        None => Ok(None),
    }
}

/// Whether the server hears a datagram to there.
pub fn is_heard(config: &Config, dst: Addr) -> bool
    ensures { result ≡ is_heard config.now dst }
{
    dst.ip == config.server.ip || dst.ip == BROADCAST_IP && dst.port == PMAP_PORT
}

/// A reply as it is sent.
fn packet_of(
    alloc: Global,
    config: &Config,
    port: u16,
    to: Addr,
    reply: Reply,
) -> Result<Packet, NoMemory>
    requires { OutcomeFits reply.outcome }
    ensures { IfOk result (λ packet. packet ≡ rpc_packet config.now port to reply) }
{
    let body = write_message(alloc, &Message::Answered(reply))?;
    let src = Addr {
        ip: config.server.ip,
        port,
    };
    Ok(Packet::Udp { src, dst: to, body })
}

/// A reply that is there, as it is sent.
pub fn reply_packet(
    alloc: Global,
    config: &Config,
    port: u16,
    to: Addr,
    reply: Option<Reply>,
) -> Result<Option<Packet>, NoMemory>
    requires { IfSome reply (λ reply. OutcomeFits reply.outcome) }
    ensures { IfOk result (λ out. packets_in out ≡ as_packets (option_map (rpc_packet config.now port to) reply)) }
{
    match reply {
        None => Ok(None),
        Some(reply) => Ok(Some(packet_of(alloc, config, port, to, reply)?)),
    }
}
