//! The texts of whole packets.

ghost use Rattle.std.specs.Prelude.{◌≡◌, [], IsTrue, IsFalse, IfOk, IfErr, OnOk, OnErr};
ghost use Rattle.sd_outside.specs.declared.packet.Packet.TheVariants.{Udp};
ghost use Rattle.sd_text.specs.Answers.{Reads};
ghost use Rattle.sd_text.specs.Grammar.{writes};
ghost use Rattle.sd_show.specs.Lines.{line, frame_line};
ghost use Rattle.sd_show.specs.Shown.{is_tftp_port, is_tftp, ShowsFile, ShowsMessage, Shows, Hears, Packs};
ghost use Rattle.sd_show.specs.Refused.{IsRefused, IsNotPacked};
ghost use Rattle.sd_show.specs.Packing.{carried_bytes, is_file, IsDatagram, CarriedFits, LineFits, IsPacketOf};
ghost use Rattle.sd_show.specs.Showing.{datagram_head, IsFileRefused, IsMessageNotShown, IsAskedOf, content_length, PlaceFits, moved};

use crate::calls::Seen;
use crate::error::{ShowError, Word};
use crate::files::push_file;
use crate::frames::push_frame;
use crate::lines::{Carried, Line, read_line};
use crate::procedures::{Known, known_by_numbers};
use crate::showing::push_message;
use crate::taking::LONGEST;
use sd_outside::{Addr, ByteList, NoMemory, Packet};
use sd_rarp::{RarpFrame, read_frame, write_frame};
use sd_rpc_msg::{Message, Outcome, read_message, write_message};
use sd_text::{LineError, TextWriter};
use sd_tftp::{TFTP_PORT, read_packet, write_packet};
use std::alloc::Global;

/// Whether a port is one of TFTP: the server's, or that of a session.
fn is_tftp_port(port: u16) -> bool
    ensures { result ≡ is_tftp_port port }
{
    port == TFTP_PORT || (4096..=8191).contains(&port)
}

fn is_tftp(src: Addr, dst: Addr) -> bool
    ensures { result ≡ is_tftp src dst }
{
    is_tftp_port(src.port) || is_tftp_port(dst.port)
}

/// udp ADDR ADDR
#[tactic(auto, unfolding(sd_text::specs::Grammar::writes))]
fn start_datagram(alloc: Global, src: Addr, dst: Addr) -> Result<TextWriter, NoMemory>
    ensures { IfOk result (λ text. text ≡ datagram_head src dst) }
{
    let mut writer = TextWriter::new(alloc);
    writer.said(b"udp ")?;
    writer.addr(src)?;
    writer.said(b" ")?;
    writer.addr(dst)?;
    writer.said(b" ")?;
    Ok(writer)
}

/// The text of a datagram of TFTP.
fn show_file(alloc: Global, src: Addr, dst: Addr, body: &[u8]) -> Result<ByteList, ShowError>
    requires { IsTrue (is_tftp src dst) }
    ensures shows { IfOk result (ShowsFile src dst body.now) }
    ensures refused { IfErr result (IsFileRefused src dst body.now) }
{
    let packet = read_packet(alloc, body)?;
    let mut writer = start_datagram(alloc, src, dst)?;
    writer.said(b"tftp ")?;
    push_file(&mut writer, &packet)?;
    Ok(writer.finish())
}

/// What the call of a reply asked for, where that call was seen and is for a procedure that is known by name.
fn asked_of(seen: &Seen, src: Addr, dst: Addr, message: &Message) -> Option<Known>
    ensures { IsAskedOf seen.now src dst message.now result }
{
    match message {
        Message::Asked(_) => None,
        Message::Answered(reply) => match seen.answered(reply.xid, src, dst) {
            Some(procedure) => known_by_numbers(procedure),
            None => None,
        },
    }
}

/// How many bytes of a message are arguments or results that the program of a call knows.
fn content_len(message: &Message) -> usize
    ensures { result ≡ content_length message.now }
{
    match message {
        Message::Asked(call) => call.args.as_slice().len(),
        Message::Answered(reply) => match &reply.outcome {
            Outcome::Success { results, .. } => results.as_slice().len(),
            _ => 0,
        },
    }
}

/// The same refusal, whose place is counted from so many bytes earlier.
fn moved(error: ShowError, by: usize) -> ShowError
    requires { PlaceFits by error }
    ensures { result ≡ moved by error }
{
    match error {
        ShowError::Bad { word, at } => ShowError::Bad {
            word,
            at: at + by as u64,
        },
        ShowError::NoMemory => ShowError::NoMemory,
    }
}

/// The text of a datagram of an RPC message. A call is seen from then on.
fn show_message(
    alloc: Global,
    seen: &mut Seen,
    src: Addr,
    dst: Addr,
    body: &[u8],
) -> Result<ByteList, ShowError>
    requires { IsFalse (is_tftp src dst) }
    ensures shows { IfOk result (ShowsMessage seen.old src dst body.now) }
    ensures hears { OnOk result (Hears seen.old (Udp src dst body.now) seen.new) }
    ensures refused { IfErr result (IsMessageNotShown seen.old src dst body.now) }
    ensures kept { OnErr result (seen.new ≡ seen.old) }
{
    let message = read_message(alloc, body)?;
    let mut writer = start_datagram(alloc, src, dst)?;
    let asked = asked_of(seen, src, dst, &message);
    match push_message(&mut writer, &message, asked) {
        Ok(()) => {}
        Err(error) => return Err(moved(error.into(), body.len() - content_len(&message))),
    }
    if let Message::Asked(call) = &message {
        seen.hear(src, dst, call)?;
    }
    Ok(writer.finish())
}

/// The text of a frame.
#[tactic(auto, unfolding(sd_text::specs::Grammar::writes))]
fn frame_text(alloc: Global, frame: &RarpFrame) -> Result<ByteList, NoMemory>
    ensures { IfOk result (λ text. text ≡ writes line (frame_line frame.now)) }
{
    let mut writer = TextWriter::new(alloc);
    writer.said(b"rarp ")?;
    push_frame(&mut writer, frame)?;
    Ok(writer.finish())
}

/// The text of a packet, behind the calls that earlier ones held. It is refused with the word and the place of the first refusal in
/// its body or frame; what was seen stays the same then.
pub fn show_line(alloc: Global, seen: &mut Seen, packet: &Packet) -> Result<ByteList, ShowError>
    ensures shows { IfOk result (Shows seen.old packet.now) }
    ensures hears { OnOk result (Hears seen.old packet.now seen.new) }
    ensures refused { IfErr result (IsRefused seen.old packet.now) }
    ensures kept { OnErr result (seen.new ≡ seen.old) }
{
    match packet {
        Packet::Frame(bytes) => {
            let frame = read_frame(bytes.as_slice())?;
            Ok(frame_text(alloc, &frame)?)
        }
        Packet::Udp { src, dst, body } => {
            if is_tftp(*src, *dst) {
                show_file(alloc, *src, *dst, body.as_slice())
            } else {
                show_message(alloc, seen, *src, *dst, body.as_slice())
            }
        }
    }
}

/// The datagram with these bytes, where it has room for them.
fn datagram_of(src: Addr, dst: Addr, body: ByteList) -> Option<Packet>
    ensures { IsDatagram src dst body result }
{
    if body.as_slice().len() > LONGEST {
        return None;
    }
    Some(Packet::Udp { src, dst, body })
}

/// The bytes that a datagram of this carries.
fn carried_bytes(alloc: Global, carried: &Carried) -> Result<ByteList, NoMemory>
    requires { CarriedFits carried.now }
    ensures { IfOk result (λ bytes. bytes ≡ carried_bytes carried.now) }
{
    match carried {
        Carried::File(packet) => write_packet(alloc, packet),
        Carried::Rpc(text) => write_message(alloc, &text.message),
    }
}

/// Whether this is a packet of TFTP.
fn is_file(carried: &Carried) -> bool
    ensures { result ≡ is_file carried.now }
{
    match carried {
        Carried::File(_) => true,
        Carried::Rpc(_) => false,
    }
}

/// The packet that a line says.
fn packet_of(alloc: Global, line: &Line) -> Result<Packet, LineError>
    requires { LineFits line.now }
    ensures { Reads (IsPacketOf line.now) result }
{
    match line {
        Line::Datagram { src, dst, carried } => {
            if is_tftp(*src, *dst) != is_file(carried) {
                return Err(LineError::Outside);
            }
            let bytes = carried_bytes(alloc, carried)?;
            match datagram_of(*src, *dst, bytes) {
                Some(packet) => Ok(packet),
                None => Err(LineError::Outside),
            }
        }
        Line::Rarp(frame) => Ok(Packet::Frame(ByteList::from_slice(alloc, &write_frame(frame))?)),
    }
}

/// The packet of a text.
fn read_text(alloc: Global, text: &[u8]) -> Result<Packet, LineError>
    ensures { Reads (Packs text.now) result }
{
    let line = read_line(alloc, text)?;
    packet_of(alloc, &line)
}

/// The packet of which this is the text, where byte runs may be split in any way. It is refused with `line` at 0.
pub fn pack_line(alloc: Global, text: &[u8]) -> Result<Packet, ShowError>
    ensures packs { IfOk result (Packs text.now) }
    ensures refused { IfErr result (IsNotPacked text.now) }
{
    match read_text(alloc, text) {
        Ok(packet) => Ok(packet),
        Err(LineError::Outside) => Err(ShowError::Bad {
            word: Word::Line,
            at: 0,
        }),
        Err(LineError::NoMemory) => Err(ShowError::NoMemory),
    }
}
