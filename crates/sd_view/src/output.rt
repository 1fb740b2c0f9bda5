//! Writing the output.
ghost use Rattle.std.specs.Prelude.{◌≡◌, OnOk, OnErr, IsErrOf, IfOk};
ghost use Rattle.sd_outside.specs.Causes.{Rose};
ghost use Rattle.sd_outside.specs.Streams.{Gains};
ghost use Rattle.sd_streams.specs.Writing.{GainsPrefix};
ghost use Rattle.sd_view.specs.Views.{refusal_line, usage_line};

use crate::status::{Ended, Stop};
use sd_outside::{ByteList, Failed, NoMemory, Sink};
use sd_streams::write_all;
use sd_text::push_number;
use std::alloc::Global;

/// Writes a text, or a prefix of it where the sink fails.
pub(crate) fn write<K: Sink>(sink: &mut K, bytes: &[u8]) -> Result<(), Stop>
    ensures ok { OnOk result (Gains (K.written sink.old) (K.written sink.new) bytes.now) }
    ensures err { OnErr result (GainsPrefix (K.written sink.old) (K.written sink.new) bytes.now) }
    ensures calm { OnOk result (K.faults sink.new ≡ K.faults sink.old) }
    ensures fault { IsErrOf result Stop.SinkFault → Rose (K.faults sink.old) (K.faults sink.new) }
    ensures source { IsErrOf result Stop.SourceFault → ⊥ }
    ensures memory { IsErrOf result Stop.NoMemory → ⊥ }
{
    match write_all(sink, bytes) {
        Ok(()) => Ok(()),
        Err(Failed) => Err(Stop::SinkFault),
    }
}

/// The line that names the first line outside the grammar.
fn refusal_line(alloc: Global, number: u64) -> Result<ByteList, NoMemory>
    ensures { IfOk result (λ line. line ≡ refusal_line number) }
{
    let mut line = ByteList::from_slice(alloc, b"refused line ")?;
    push_number(alloc, &mut line, number)?;
    line.push_slice(b"\n")?;
    Ok(line)
}

/// Writes the refusal of an input.
pub(crate) fn refuse<K: Sink>(alloc: Global, number: u64, sink: &mut K) -> Result<Ended, Stop>
    ensures ok { OnOk result (Gains (K.written sink.old) (K.written sink.new) (refusal_line number)) }
    ensures err { OnErr result (GainsPrefix (K.written sink.old) (K.written sink.new) (refusal_line number)) }
    ensures ended { IfOk result (λ ended. ended ≡ Ended.Refused) }
    ensures calm { OnOk result (K.faults sink.new ≡ K.faults sink.old) }
    ensures fault { IsErrOf result Stop.SinkFault → Rose (K.faults sink.old) (K.faults sink.new) }
    ensures memory { IsErrOf result Stop.NoMemory → K.faults sink.new ≡ K.faults sink.old }
    ensures source { IsErrOf result Stop.SourceFault → ⊥ }
{
    let line = refusal_line(alloc, number)?;
    write(sink, line.as_slice())?;
    Ok(Ended::Refused)
}

/// Writes how the program is called.
pub(crate) fn usage<K: Sink>(sink: &mut K) -> Result<Ended, Stop>
    ensures ok { OnOk result (Gains (K.written sink.old) (K.written sink.new) usage_line) }
    ensures err { OnErr result (GainsPrefix (K.written sink.old) (K.written sink.new) usage_line) }
    ensures ended { IfOk result (λ ended. ended ≡ Ended.Usage) }
    ensures calm { OnOk result (K.faults sink.new ≡ K.faults sink.old) }
    ensures fault { IsErrOf result Stop.SinkFault → Rose (K.faults sink.old) (K.faults sink.new) }
    ensures source { IsErrOf result Stop.SourceFault → ⊥ }
    ensures memory { IsErrOf result Stop.NoMemory → ⊥ }
{
    write(sink, b"usage: ladder | pcap | svg\n")?;
    Ok(Ended::Usage)
}
