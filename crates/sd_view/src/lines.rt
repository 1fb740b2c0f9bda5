//! The lines of a transcript, each by itself.
ghost use Rattle.std.specs.Prelude.{◌≡◌, ◌∷◌, [], MatchOption, IsTrue, ◌↔◌};
ghost use Rattle.std.specs.List.{AllPass};
ghost use Rattle.sd_text.specs.Answers.{Reads};
ghost use Rattle.sd_text.specs.Packets.{IsPacketLine};
ghost use Rattle.sd_text.specs.Texts.{IsNumber, fields};
ghost use Rattle.sd_view.specs.Lines.{greatest, is_printable, IsSent, IsCame, IsFailed, IsAnswer, WordLine, IsLine};

use crate::words::{Word, word_of};
use sd_outside::{ByteList, Packet, place_of};
use sd_text::{
    LineError, PacketLineError, Parts, only_number, read_number, read_packet_line, take_end,
    take_number,
};
use std::alloc::Global;

/// How a packet ended where it arrived.
#[derive(Clone, Copy, Debug, PartialEq, Eq)]
pub enum Arrival {
    /// It came to the server, and was served.
    Served,
    /// It came to the server, which crashed meanwhile.
    Crashed,
    /// It came to the server, whose disk failed meanwhile.
    Faulted,
    /// It came to the client.
    Got,
}

/// What a line says. Ticks and the numbers of packets are those that it shows.
#[derive(Debug, Drop)]
pub enum Line {
    /// The packet was sent, by the client, the server or a stranger.
    Sent { tick: u64, id: u64, packet: Packet },
    /// The packet with this number arrived.
    Came { how: Arrival, tick: u64, id: u64 },
    /// A send or a receive of the client failed.
    Failed { tick: u64 },
    /// The answer to a command, which is the whole line.
    Answer { answer: ByteList },
}

/// The first word of a text, and what stands behind the space after it, where there is one.
fn split_word(text: &[u8]) -> Option<(&[u8], &[u8])>
    ensures { MatchOption result (fields text.now ≡ text.now ∷ []) (λ split. fields text.now ≡ split.0.now ∷ fields split.1.now) }
{
    match place_of(text, b' ') {
        Some(at) => Some((&text[..at], &text[at + 1..])),
        None => None,
    }
}

/// The tick or the number of a packet that a text shows.
fn read_count(text: &[u8]) -> Result<u64, LineError>
    ensures { Reads (IsNumber 0 greatest text.now) result }
{
    match read_number(text, 0, u64::MAX) {
        Some(number) => Ok(number),
        None => Err(LineError::Outside),
    }
}

/// The packet that a text shows.
fn read_packet(alloc: Global, text: &[u8]) -> Result<Packet, LineError>
    ensures { Reads (IsPacketLine text.now) result }
{
    match read_packet_line(alloc, text) {
        Ok(packet) => Ok(packet),
        Err(PacketLineError::BadPacket) => Err(LineError::Outside),
        Err(PacketLineError::NoMemory) => Err(LineError::NoMemory),
    }
}

/// `TICK ID PACKET` of a packet that was sent.
fn read_sent(alloc: Global, text: &[u8]) -> Result<Line, LineError>
    ensures { Reads (IsSent (fields text.now)) result }
{
    let Some((first, after)) = split_word(text) else {
        return Err(LineError::Outside);
    };
    let tick = read_count(first)?;
    let Some((second, rest)) = split_word(after) else {
        return Err(LineError::Outside);
    };
    let id = read_count(second)?;
    let packet = read_packet(alloc, rest)?;
    Ok(Line::Sent { tick, id, packet })
}

/// `TICK ID` of a packet that arrived.
fn read_came(how: Arrival, text: &[u8]) -> Result<Line, LineError>
    ensures { Reads (IsCame how (fields text.now)) result }
{
    let mut parts = Parts::new(text, b' ');
    let tick = take_number(&mut parts, 0, u64::MAX)?;
    let id = only_number(parts, 0, u64::MAX)?;
    Ok(Line::Came { how, tick, id })
}

/// `TICK` of a failure of the client's network.
fn read_failed(text: &[u8]) -> Result<Line, LineError>
    ensures { Reads (IsFailed (fields text.now)) result }
{
    let tick = only_number(Parts::new(text, b' '), 0, u64::MAX)?;
    Ok(Line::Failed { tick })
}

/// Whether each byte is a space or a printed character of ASCII.
fn is_printable(text: &[u8]) -> bool
    ensures { IsTrue result ↔ AllPass is_printable text.now }
{
    text.iter().all(|b| matches!(*b, 0x20..=0x7e))
}

/// An answer, which is the whole line.
fn read_answer(alloc: Global, line: &[u8]) -> Result<Line, LineError>
    ensures { Reads (IsAnswer line.now) result }
{
    if !is_printable(line) {
        return Err(LineError::Outside);
    }
    Ok(Line::Answer {
        answer: ByteList::from_slice(alloc, line)?,
    })
}

/// A line with this first word, behind which this text stands.
fn word_line(alloc: Global, word: Word, line: &[u8], text: &[u8]) -> Result<Line, LineError>
    ensures { Reads (WordLine word line.now (fields text.now)) result }
{
    match word {
        Word::Sent => read_sent(alloc, text),
        Word::Served => read_came(Arrival::Served, text),
        Word::Crashed => read_came(Arrival::Crashed, text),
        Word::Faulted => read_came(Arrival::Faulted, text),
        Word::Got => read_came(Arrival::Got, text),
        Word::Failed => read_failed(text),
        Word::Addr => read_answer(alloc, line),
        Word::Boot => read_answer(alloc, line),
        Word::Out => read_answer(alloc, line),
        Word::In => read_answer(alloc, line),
        Word::Drop => read_answer(alloc, line),
        Word::Wait => read_answer(alloc, line),
    }
}

/// What a line says, which is given without its line feed.
pub(crate) fn read_line(alloc: Global, line: &[u8]) -> Result<Line, LineError>
    ensures { Reads (IsLine line.now) result }
{
    let Some((first, text)) = split_word(line) else {
        return Err(LineError::Outside);
    };
    let Some(word) = word_of(first) else {
        return Err(LineError::Outside);
    };
    word_line(alloc, word, line, text)
}
