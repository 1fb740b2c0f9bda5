//! The programs `show` and `pack`: each line of the input is turned into another.
ghost use Rattle.std.specs.Prelude.{◌≡◌, ◌≤◌, OnOk, IfOk, IfErr, IfSome, IsErrOf, Ok, Some, []};
ghost use Rattle.sd_outside.specs.Causes.{Rose};
ghost use Rattle.sd_outside.specs.Lines.{without_feed};
ghost use Rattle.sd_script.specs.Limits.{input_limit};
ghost use Rattle.sd_streams.specs.Writing.{GainsSome, Writes};
ghost use Rattle.sd_boot.specs.PacketTexts.{ShowsLine, PacksLine, Gives, IsNotGiven, IsLineRefused, Translates};

use crate::input::{INPUT_LIMIT, read_all};
use crate::output::{place_line, write};
use crate::status::{Ended, Stop};
use sd_outside::{ByteList, NoMemory, Sink, Source, split_line, without_feed};
use sd_script::{PacketLineError, read_packet_line, write_packet_line};
use sd_show::{Seen, ShowError, Word, pack_line, show_line};
use std::alloc::Global;

/// What each line is turned into.
#[derive(Clone, Copy, Debug, PartialEq, Eq)]
pub(crate) enum Direction {
    /// A packet line into the packet's text.
    Show,
    /// A packet's text into its packet line.
    Pack,
}

/// The refusal of a line that can't be read.
const NOT_A_LINE: ShowError = ShowError::Bad {
    word: Word::Line,
    at: 0,
};

/// The text of the packet whose line this is.
fn shown(alloc: Global, seen: &mut Seen, line: &[u8]) -> Result<ByteList, ShowError>
    ensures given { IfOk result (λ out. ShowsLine seen.old line.now out seen.new) }
    ensures refused { IfErr result (IsNotGiven Direction.Show seen.old line.now) }
{
    match read_packet_line(alloc, line) {
        Ok(packet) => show_line(alloc, seen, &packet),
        Err(PacketLineError::BadPacket) => Err(NOT_A_LINE),
        Err(PacketLineError::NoMemory) => Err(ShowError::NoMemory),
    }
}

/// The line of the packet whose text this is.
fn packed(alloc: Global, text: &[u8]) -> Result<ByteList, ShowError>
    ensures given { IfOk result (PacksLine text.now) }
    ensures refused { IfErr result (IsNotGiven Direction.Pack [] text.now) }
{
    let packet = pack_line(alloc, text)?;
    let mut line = ByteList::empty(alloc);
    write_packet_line(alloc, &packet, &mut line)?;
    Ok(line)
}

/// What a line is turned into, without a line feed. `end` counts the input's bytes up to the line's last.
fn turned(
    alloc: Global,
    direction: Direction,
    seen: &mut Seen,
    line: &[u8],
    end: usize,
) -> Result<ByteList, ShowError>
    ensures within { OnOk result (end ≤ input_limit) }
    ensures given { IfOk result (λ out. Gives direction seen.old (without_feed line.now) out seen.new) }
    ensures refused { IfErr result (IsLineRefused direction seen.old line.now end) }
{
    if end > INPUT_LIMIT {
        return Err(NOT_A_LINE);
    }
    match direction {
        Direction::Show => shown(alloc, seen, without_feed(line)),
        Direction::Pack => packed(alloc, without_feed(line)),
    }
}

/// How an input ends, and what is written for it: what all its lines are turned into, or the lines before the first refused
/// one, and the refusal.
fn translated(
    alloc: Global,
    direction: Direction,
    text: &[u8],
) -> Result<(Ended, ByteList), NoMemory>
    ensures { IfOk result (λ done. Translates direction (Ok done.0) text.now done.1) }
{
    let mut seen = Seen::new(alloc);
    let mut output = ByteList::empty(alloc);
    let mut rest = text;
    let mut number: u64 = 0;
    while !rest.is_empty() {
        let (line, after) = split_line(rest);
        number += 1;
        match turned(alloc, direction, &mut seen, line, text.len() - after.len()) {
            Ok(given) => {
                output.push_slice(given.as_slice())?;
                output.push_slice(b"\n")?;
            }
            Err(ShowError::Bad { word, at }) => {
                output.push_slice(place_line(alloc, number, word, at)?.as_slice())?;
                return Ok((Ended::Refused, output));
            }
            Err(ShowError::NoMemory) => return Err(NoMemory),
        }
        rest = after;
    }
    Ok((Ended::Done, output))
}

/// Writes what the lines of a text are turned into.
fn translate_text<K: Sink>(
    alloc: Global,
    direction: Direction,
    text: &[u8],
    sink: &mut K,
) -> Result<Ended, Stop>
    ensures told { GainsSome (K.written sink.old) (K.written sink.new) (Translates direction result text.now) }
    ensures fault { IsErrOf result Stop.SinkFault → Rose (K.faults sink.old) (K.faults sink.new) }
    ensures source { IsErrOf result Stop.SourceFault → ⊥ }
    ensures calm { OnOk result (K.faults sink.new ≡ K.faults sink.old) }
{
    let (ended, output) = translated(alloc, direction, text)?;
    write(sink, output.as_slice())?;
    Ok(ended)
}

/// Reads packet lines or packets' texts, and writes what they are turned into, or the refusal of the first that can't be.
pub(crate) fn translate<S: Source, K: Sink>(
    alloc: Global,
    direction: Direction,
    source: &mut S,
    sink: &mut K,
) -> Result<Ended, Stop>
    ensures told { Writes (S.left source.old) (K.written sink.old) (K.written sink.new) (Translates direction result) }
    ensures whole { IfOk result (λ ended. ended ≡ Ended.Done → IfSome (S.left source.old) (λ all. S.left source.new ≡ Some [])) }
    ensures usage { IfOk result (λ ended. ended ≡ Ended.Usage → ⊥) }
    ensures no_image { IfOk result (λ ended. ended ≡ Ended.NoImage → ⊥) }
    ensures read { IsErrOf result Stop.SourceFault → Rose (S.faults source.old) (S.faults source.new) }
    ensures write { IsErrOf result Stop.SinkFault → Rose (K.faults sink.old) (K.faults sink.new) }
    ensures nothing { IsErrOf result Stop.SourceFault → K.written sink.new ≡ K.written sink.old }
    ensures calm_source { OnOk result (S.faults source.new ≡ S.faults source.old) }
    ensures calm_sink { OnOk result (K.faults sink.new ≡ K.faults sink.old) }
{
    let text = read_all(alloc, source)?;
    translate_text(alloc, direction, text.as_slice(), sink)
}
