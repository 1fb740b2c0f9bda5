//! The text of a packet of TFTP.

ghost use Rattle.std.specs.Prelude.{◌≡◌, ◌++◌, OnOk};
ghost use Rattle.sd_xdr.specs.Kind.{number, bytes, ◌⊗◌};
ghost use Rattle.sd_text.specs.Kind as texts;
ghost use Rattle.sd_text.specs.Kind.{word, run, ◌&◌};
ghost use Rattle.sd_text.specs.Grammar.{writes};
ghost use Rattle.sd_text.specs.Reading.{Takes};
ghost use Rattle.sd_show.specs.Lines.{has_no_zero, tftp_text, tftp_number, file, file_value};

use crate::taking::LONGEST;
use sd_outside::{ByteList, NoMemory};
use sd_text::{Class, LineError, TextReader, TextWriter, all_but, is_word};
use sd_tftp::TftpPacket;
use std::alloc::Global;

/// The most bytes of a block.
const BLOCK: usize = 512;

/// What is asked for, and in which mode.
#[tactic(auto, unfolding(sd_text::specs::Grammar::writes))]
fn push_request(writer: &mut TextWriter, name: &ByteList, mode: &ByteList) -> Result<(), NoMemory>
    ensures { OnOk result (writer.new ≡ writer.old ++ writes (texts.spaced tftp_text & texts.spaced tftp_text) (bytes name.now ⊗ bytes mode.now)) }
{
    writer.said(b" ")?;
    writer.quoted(name.as_slice())?;
    writer.said(b" ")?;
    writer.quoted(mode.as_slice())
}

/// What follows `tftp`.
#[tactic(auto, unfolding(sd_text::specs::Grammar::writes))]
pub fn push_file(writer: &mut TextWriter, packet: &TftpPacket) -> Result<(), NoMemory>
    ensures { OnOk result (writer.new ≡ writer.old ++ writes file (file_value packet.now)) }
{
    match packet {
        TftpPacket::Rrq { name, mode } => {
            writer.said(b"rrq")?;
            push_request(writer, name, mode)
        }
        TftpPacket::Wrq { name, mode } => {
            writer.said(b"wrq")?;
            push_request(writer, name, mode)
        }
        TftpPacket::Block { number, bytes } => {
            writer.said(b"block ")?;
            writer.number(u64::from(*number))?;
            writer.said(b" ")?;
            writer.run(bytes.as_slice())
        }
        TftpPacket::Ack { number } => {
            writer.said(b"ack ")?;
            writer.number(u64::from(*number))
        }
        TftpPacket::Error { code, message } => {
            writer.said(b"error ")?;
            writer.number(u64::from(*code))?;
            writer.said(b" ")?;
            writer.quoted(message.as_slice())
        }
    }
}

/// Whether no byte is zero.
fn has_no_zero(text: &[u8]) -> bool
    ensures { result ≡ has_no_zero (bytes text.now) }
{
    all_but(text, 0)
}

/// A text without a zero.
#[tactic(auto, unfolding(sd_text::specs::Reading::reading))]
fn take_text(alloc: Global, reader: &mut TextReader) -> Result<ByteList, LineError>
    ensures { Takes (texts.spaced tftp_text) bytes reader.old reader.new result }
{
    reader.said(b" ")?;
    let text = reader.quoted(alloc, LONGEST)?;
    if has_no_zero(text.as_slice()) {
        Ok(text)
    } else {
        Err(LineError::Outside)
    }
}

/// A number of two bytes.
#[tactic(auto, unfolding(sd_text::specs::Reading::reading))]
fn take_half(reader: &mut TextReader) -> Result<u16, LineError>
    ensures { Takes (texts.spaced tftp_number) number reader.old reader.new result }
{
    reader.said(b" ")?;
    Ok(reader.number(0, 65_535)? as u16)
}

/// The bytes of a block.
#[tactic(auto, unfolding(sd_text::specs::Reading::reading))]
fn take_bytes(alloc: Global, reader: &mut TextReader) -> Result<ByteList, LineError>
    ensures { Takes (texts.spaced (word (run 0 512))) bytes reader.old reader.new result }
{
    reader.said(b" ")?;
    Ok(reader.run(alloc, 0, BLOCK)?)
}

/// What follows `tftp`.
#[tactic(auto, unfolding(sd_text::specs::Reading::reading, sd_text::specs::Reading::name_reading))]
pub fn take_file(alloc: Global, reader: &mut TextReader) -> Result<TftpPacket, LineError>
    ensures { Takes (texts.spaced file) file_value reader.old reader.new result }
{
    reader.said(b" ")?;
    let kind = reader.front(Class::Name);
    if is_word(kind, b"rrq") {
        let name = take_text(alloc, reader)?;
        let mode = take_text(alloc, reader)?;
        return Ok(TftpPacket::Rrq { name, mode });
    }
    if is_word(kind, b"wrq") {
        let name = take_text(alloc, reader)?;
        let mode = take_text(alloc, reader)?;
        return Ok(TftpPacket::Wrq { name, mode });
    }
    if is_word(kind, b"block") {
        let number = take_half(reader)?;
        let bytes = take_bytes(alloc, reader)?;
        return Ok(TftpPacket::Block { number, bytes });
    }
    if is_word(kind, b"ack") {
        let number = take_half(reader)?;
        return Ok(TftpPacket::Ack { number });
    }
    if is_word(kind, b"error") {
        let code = take_half(reader)?;
        let message = take_text(alloc, reader)?;
        return Ok(TftpPacket::Error { code, message });
    }
    Err(LineError::Outside)
}
