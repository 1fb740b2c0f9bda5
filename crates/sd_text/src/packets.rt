//! The text of a packet.

ghost use Rattle.std.specs.Prelude.{◌≡◌, ◌++◌, IfOk, IfErr, OnOk, OnErr};
ghost use Rattle.sd_text.specs.Answers.{Reads};
ghost use Rattle.sd_text.specs.Packets.{head_of_udp, packet_text, IsFrameLine, IsUdpLine, IsPacketLine, IsPacketLineError};
ghost use Rattle.sd_text.specs.Writing.{AppendsPrefix};

use crate::error::{LineError, PacketLineError};
use crate::fields::{take_addr, take_end, take_runs};
use crate::parts::Parts;
use crate::runs::write_runs;
use crate::values::same_text;
use crate::writing::addr_list;
use sd_outside::{Addr, ByteList, NoMemory, Packet};
use std::alloc::Global;

/// `BYTES` of a frame.
fn read_frame(alloc: Global, mut fields: Parts<'_>) -> Result<Packet, LineError>
    ensures { Reads (IsFrameLine fields.entry) result }
{
    let bytes = take_runs(alloc, &mut fields, 1514)?;
    take_end(&mut fields)?;
    Ok(Packet::Frame(bytes))
}

/// `ADDR ADDR BYTES` of a datagram.
fn read_udp(alloc: Global, mut fields: Parts<'_>) -> Result<Packet, LineError>
    ensures { Reads (IsUdpLine fields.entry) result }
{
    let src = take_addr(&mut fields)?;
    let dst = take_addr(&mut fields)?;
    let body = take_runs(alloc, &mut fields, 9216)?;
    take_end(&mut fields)?;
    Ok(Packet::Udp { src, dst, body })
}

fn read_packet(alloc: Global, text: &[u8]) -> Result<Packet, LineError>
    ensures { Reads (IsPacketLine text.now) result }
{
    let mut fields = Parts::new(text, b' ');
    let Some(first) = fields.next() else {
        return Err(LineError::Outside);
    };
    if same_text(first, b"frame") {
        read_frame(alloc, fields)
    } else if same_text(first, b"udp") {
        read_udp(alloc, fields)
    } else {
        Err(LineError::Outside)
    }
}

/// The packet of which this is the text.
pub fn read_packet_line(alloc: Global, text: &[u8]) -> Result<Packet, PacketLineError>
    ensures packet { IfOk result (IsPacketLine text.now) }
    ensures refused { IfErr result (IsPacketLineError text.now) }
{
    match read_packet(alloc, text) {
        Ok(packet) => Ok(packet),
        Err(LineError::Outside) => Err(PacketLineError::BadPacket),
        Err(LineError::NoMemory) => Err(PacketLineError::NoMemory),
    }
}

/// What stands before the bytes in the text of a datagram.
fn udp_head(alloc: Global, src: Addr, dst: Addr) -> Result<ByteList, NoMemory>
    ensures { IfOk result (λ text. text ≡ head_of_udp src dst) }
{
    let mut text = ByteList::from_slice(alloc, b"udp ")?;
    text.push_slice(addr_list(alloc, src)?.as_slice())?;
    text.push_slice(b" ")?;
    text.push_slice(addr_list(alloc, dst)?.as_slice())?;
    text.push_slice(b" ")?;
    Ok(text)
}

/// Writes the text of a packet, without a line feed. A refused call leaves a prefix of it there.
pub fn write_packet_line(
    alloc: Global,
    packet: &Packet,
    text: &mut ByteList,
) -> Result<(), NoMemory>
    ensures ok { OnOk result (text.new ≡ text.old ++ packet_text packet.now) }
    ensures err { OnErr result (AppendsPrefix text.old text.new (packet_text packet.now)) }
{
    match packet {
        Packet::Frame(bytes) => {
            text.push_slice(b"frame ")?;
            write_runs(alloc, bytes.as_slice(), text)
        }
        Packet::Udp { src, dst, body } => {
            let head = udp_head(alloc, *src, *dst)?;
            text.push_slice(head.as_slice())?;
            write_runs(alloc, body.as_slice(), text)
        }
    }
}
