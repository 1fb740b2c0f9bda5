//! Writing the output.
ghost use Rattle.std.specs.Prelude.{◌≡◌, OnOk, OnErr, IsErrOf, IfOk};
ghost use Rattle.sd_outside.specs.Causes.{Rose};
ghost use Rattle.sd_outside.specs.Streams.{Gains};
ghost use Rattle.sd_streams.specs.Writing.{GainsPrefix};
ghost use Rattle.sd_claims.specs.Headline.{refusal_line};
ghost use Rattle.sd_boot.specs.PacketTexts.{place_line};
ghost use Rattle.sd_boot.specs.Words.{usage_line};

use crate::status::{Ended, Stop};
use sd_outside::{ByteList, Failed, NoMemory, Sink};
use sd_show::Word;
use sd_streams::write_all;
use std::alloc::Global;

/// Writes a text, or a prefix of it where the sink fails.
pub(crate) fn write<K: Sink>(sink: &mut K, bytes: &[u8]) -> Result<(), Stop>
    ensures ok { OnOk result (Gains (K.written sink.old) (K.written sink.new) bytes.now) }
    ensures err { OnErr result (GainsPrefix (K.written sink.old) (K.written sink.new) bytes.now) }
    ensures calm { OnOk result (K.faults sink.new ≡ K.faults sink.old) }
    ensures fault { IsErrOf result Stop.SinkFault → Rose (K.faults sink.old) (K.faults sink.new) }
    ensures source { IsErrOf result Stop.SourceFault → ⊥ }
    ensures memory { IsErrOf result Stop.NoMemory → ⊥ }
{
    match write_all(sink, bytes) {
        Ok(()) => Ok(()),
        Err(Failed) => Err(Stop::SinkFault),
    }
}

/// The line that names the first line outside the grammar.
pub(crate) fn refusal_line(alloc: Global, number: u64) -> Result<ByteList, NoMemory>
    ensures { IfOk result (λ line. line ≡ refusal_line number) }
{
    let mut line = ByteList::from_slice(alloc, b"refused line ")?;
    line.push_slice(number.to_string(alloc)?.as_bytes())?;
    line.push_slice(b"\n")?;
    Ok(line)
}

/// The line that names a refused line, with the word and the place.
pub(crate) fn place_line(
    alloc: Global,
    number: u64,
    word: Word,
    place: u64,
) -> Result<ByteList, NoMemory>
    ensures { IfOk result (λ text. text ≡ place_line number word place) }
{
    let mut text = ByteList::from_slice(alloc, b"refused line ")?;
    text.push_slice(number.to_string(alloc)?.as_bytes())?;
    text.push_slice(b" ")?;
    text.push_slice(word.as_str().as_bytes())?;
    text.push_slice(b" ")?;
    text.push_slice(place.to_string(alloc)?.as_bytes())?;
    text.push_slice(b"\n")?;
    Ok(text)
}

/// Writes the refusal of an input.
pub(crate) fn refuse<K: Sink>(alloc: Global, number: u64, sink: &mut K) -> Result<Ended, Stop>
    ensures ok { OnOk result (Gains (K.written sink.old) (K.written sink.new) (refusal_line number)) }
    ensures err { OnErr result (GainsPrefix (K.written sink.old) (K.written sink.new) (refusal_line number)) }
    ensures ended { IfOk result (λ ended. ended ≡ Ended.Refused) }
    ensures calm { OnOk result (K.faults sink.new ≡ K.faults sink.old) }
    ensures fault { IsErrOf result Stop.SinkFault → Rose (K.faults sink.old) (K.faults sink.new) }
    ensures source { IsErrOf result Stop.SourceFault → ⊥ }
{
    let line = refusal_line(alloc, number)?;
    write(sink, line.as_slice())?;
    Ok(Ended::Refused)
}

/// Writes how the programs are called.
pub(crate) fn usage<K: Sink>(sink: &mut K) -> Result<Ended, Stop>
    ensures ok { OnOk result (Gains (K.written sink.old) (K.written sink.new) usage_line) }
    ensures err { OnErr result (GainsPrefix (K.written sink.old) (K.written sink.new) usage_line) }
    ensures ended { IfOk result (λ ended. ended ≡ Ended.Usage) }
    ensures calm { OnOk result (K.faults sink.new ≡ K.faults sink.old) }
    ensures fault { IsErrOf result Stop.SinkFault → Rose (K.faults sink.old) (K.faults sink.new) }
    ensures source { IsErrOf result Stop.SourceFault → ⊥ }
    ensures memory { IsErrOf result Stop.NoMemory → ⊥ }
{
    write(
        sink,
        b"usage: replay, show, pack, image make, image show, workload N, serve, client\n",
    )?;
    Ok(Ended::Usage)
}
