//! The record lines of a transcript.

ghost use Rattle.std.specs.Prelude.{◌≡◌, ◌∷◌, ◌++◌, IfOk, OnOk, OnErr};
ghost use Rattle.std.specs.Fmt.{decimal};
ghost use Rattle.sd_link.specs.Printing.{entry_text};
ghost use Rattle.sd_link.specs.Steps as steps;
ghost use Rattle.sd_script.specs.PacketWriting.{head_of_sent};
ghost use Rattle.sd_text.specs.Writing.{AppendsPrefix};

use sd_outside::{ByteList, NoMemory, Packet};
use sd_text::{push_number, write_packet_line};
use std::alloc::Global;

/// `WORD TICK ID`
fn event_list(alloc: Global, word: &[u8], tick: u64, id: u64) -> Result<ByteList, NoMemory>
    ensures { IfOk result (λ text. text ≡ word.now ++ 32 ∷ (decimal tick ++ 32 ∷ decimal id)) }
{
    let mut text = ByteList::from_slice(alloc, word)?;
    text.push_slice(b" ")?;
    push_number(alloc, &mut text, tick)?;
    text.push_slice(b" ")?;
    push_number(alloc, &mut text, id)?;
    Ok(text)
}

/// What stands before the packet in the line of a send.
fn sent_head(alloc: Global, tick: u64, id: u64) -> Result<ByteList, NoMemory>
    ensures { IfOk result (λ text. text ≡ head_of_sent tick id) }
{
    let mut text = event_list(alloc, b"sent", tick, id)?;
    text.push_slice(b" ")?;
    Ok(text)
}

/// Writes the line of a packet that is sent at a tick under an id, with its line feed, at the end of a text.
/// A refused call leaves a prefix of it there.
pub fn write_sent(
    alloc: Global,
    tick: u64,
    id: u64,
    packet: &Packet,
    text: &mut ByteList,
) -> Result<(), NoMemory>
    ensures ok { OnOk result (text.new ≡ text.old ++ entry_text (steps.Sent tick id packet.now)) }
    ensures err { OnErr result (AppendsPrefix text.old text.new (entry_text (steps.Sent tick id packet.now))) }
{
    let head = sent_head(alloc, tick, id)?;
    text.push_slice(head.as_slice())?;
    write_packet_line(alloc, packet, text)?;
    text.push_slice(b"\n")
}

/// Writes the line of a packet that comes to the server, with its line feed, at the end of a text. A refused call
/// changes nothing.
pub fn write_served(alloc: Global, tick: u64, id: u64, text: &mut ByteList) -> Result<(), NoMemory>
    ensures ok { OnOk result (text.new ≡ text.old ++ entry_text (steps.Served tick id)) }
    ensures err { OnErr result (text.new ≡ text.old) }
{
    let mut line = event_list(alloc, b"served", tick, id)?;
    line.push_slice(b"\n")?;
    text.push_slice(line.as_slice())
}

/// Writes the line of a packet that comes to the client, with its line feed, at the end of a text. A refused call
/// changes nothing.
pub fn write_got(alloc: Global, tick: u64, id: u64, text: &mut ByteList) -> Result<(), NoMemory>
    ensures ok { OnOk result (text.new ≡ text.old ++ entry_text (steps.Got tick id)) }
    ensures err { OnErr result (text.new ≡ text.old) }
{
    let mut line = event_list(alloc, b"got", tick, id)?;
    line.push_slice(b"\n")?;
    text.push_slice(line.as_slice())
}

/// Writes the line of a packet at which the server crashed, with its line feed, at the end of a text. A refused call changes
/// nothing.
pub fn write_crashed(alloc: Global, tick: u64, id: u64, text: &mut ByteList) -> Result<(), NoMemory>
    ensures ok { OnOk result (text.new ≡ text.old ++ entry_text (steps.Crashed tick id)) }
    ensures err { OnErr result (text.new ≡ text.old) }
{
    let mut line = event_list(alloc, b"crashed", tick, id)?;
    line.push_slice(b"\n")?;
    text.push_slice(line.as_slice())
}

/// Writes the line of a packet at which the server's disk failed, with its line feed, at the end of a text. A refused call
/// changes nothing.
pub fn write_faulted(alloc: Global, tick: u64, id: u64, text: &mut ByteList) -> Result<(), NoMemory>
    ensures ok { OnOk result (text.new ≡ text.old ++ entry_text (steps.Faulted tick id)) }
    ensures err { OnErr result (text.new ≡ text.old) }
{
    let mut line = event_list(alloc, b"faulted", tick, id)?;
    line.push_slice(b"\n")?;
    text.push_slice(line.as_slice())
}

/// Writes the line of a send or a receive that failed, with its line feed, at the end of a text. A refused call changes
/// nothing.
pub fn write_failed(alloc: Global, tick: u64, text: &mut ByteList) -> Result<(), NoMemory>
    ensures ok { OnOk result (text.new ≡ text.old ++ entry_text (steps.Failed tick)) }
    ensures err { OnErr result (text.new ≡ text.old) }
{
    let mut line = ByteList::from_slice(alloc, b"failed ")?;
    push_number(alloc, &mut line, tick)?;
    line.push_slice(b"\n")?;
    text.push_slice(line.as_slice())
}
