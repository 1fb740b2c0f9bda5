//! Reading the lines of packets.

ghost use Rattle.std.specs.Prelude.{◌≡◌, true, false, IfOk};
ghost use Rattle.sd_rpc_msg.specs.Layout.{MessageFits};
ghost use Rattle.sd_tftp.specs.Grammar as tftp;
ghost use Rattle.sd_text.specs.Kind as texts;
ghost use Rattle.sd_text.specs.Kind.{given};
ghost use Rattle.sd_text.specs.Reading.{Takes, TakesWhole};
ghost use Rattle.sd_show.specs.Lines.{carried, datagram, line};
ghost use Rattle.sd_show.specs.Packing.{carried_told, IsCarriedWritten, line_told, IsLineWritten};

use crate::files::take_file;
use crate::frames::take_frame;
use crate::packing::{MessageText, take_call, take_reply};
use sd_outside::Addr;
use sd_rarp::RarpFrame;
use sd_text::{Class, LineError, TextReader, is_word};
use sd_tftp::TftpPacket;
use std::alloc::Global;

/// What a datagram carries.
#[derive(Debug, Drop)]
pub enum Carried {
    File(TftpPacket),
    Rpc(MessageText),
}

/// What a line says.
#[derive(Debug, Drop)]
pub enum Line {
    Datagram {
        src: Addr,
        dst: Addr,
        carried: Carried,
    },
    Rarp(RarpFrame),
}

/// What a datagram carries.
#[tactic(auto, unfolding(sd_text::specs::Reading::reading, sd_text::specs::Reading::name_reading))]
fn take_load(alloc: Global, reader: &mut TextReader) -> Result<Carried, LineError>
    ensures takes { Takes carried carried_told reader.old reader.new result }
    ensures written { IfOk result IsCarriedWritten }
{
    let word = reader.front(Class::Name);
    if is_word(word, b"tftp") {
        return Ok(Carried::File(take_file(alloc, reader)?));
    }
    if is_word(word, b"call") {
        return Ok(Carried::Rpc(take_call(alloc, reader)?));
    }
    if is_word(word, b"reply") {
        return Ok(Carried::Rpc(take_reply(alloc, reader)?));
    }
    Err(LineError::Outside)
}

/// The same behind a space.
#[tactic(auto, unfolding(sd_text::specs::Reading::reading))]
fn take_carried(alloc: Global, reader: &mut TextReader) -> Result<Carried, LineError>
    ensures takes { Takes (texts.spaced carried) carried_told reader.old reader.new result }
    ensures written { IfOk result IsCarriedWritten }
{
    reader.said(b" ")?;
    Ok(take_load(alloc, reader)?)
}

/// An address and a port.
#[tactic(auto, unfolding(sd_text::specs::Reading::reading))]
fn take_addr(reader: &mut TextReader) -> Result<Addr, LineError>
    ensures { Takes (texts.spaced texts.addr) texts.addr_value reader.old reader.new result }
{
    reader.said(b" ")?;
    reader.addr()
}

/// What follows `udp`.
#[tactic(auto, unfolding(sd_text::specs::Reading::reading))]
fn take_datagram(alloc: Global, reader: &mut TextReader) -> Result<Line, LineError>
    ensures takes { Takes (given 0 datagram) line_told reader.old reader.new result }
    ensures written { IfOk result IsLineWritten }
{
    let src = take_addr(reader)?;
    let dst = take_addr(reader)?;
    let carried = take_carried(alloc, reader)?;
    Ok(Line::Datagram { src, dst, carried })
}

#[tactic(auto, unfolding(sd_text::specs::Reading::reading, sd_text::specs::Reading::name_reading))]
fn take_line(alloc: Global, reader: &mut TextReader) -> Result<Line, LineError>
    ensures takes { Takes line line_told reader.old reader.new result }
    ensures written { IfOk result IsLineWritten }
{
    let word = reader.front(Class::Name);
    if is_word(word, b"udp") {
        return Ok(take_datagram(alloc, reader)?);
    }
    if is_word(word, b"rarp") {
        return Ok(Line::Rarp(take_frame(reader)?));
    }
    Err(LineError::Outside)
}

/// What a text says.
#[tactic(auto, unfolding(sd_text::specs::Reading::whole_reading))]
pub fn read_line(alloc: Global, text: &[u8]) -> Result<Line, LineError>
    ensures takes { TakesWhole line line_told text.now result }
    ensures written { IfOk result IsLineWritten }
{
    let mut reader = TextReader::new(text);
    let line = take_line(alloc, &mut reader)?;
    reader.end()?;
    Ok(line)
}
