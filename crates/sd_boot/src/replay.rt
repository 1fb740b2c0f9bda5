//! The program `replay`.
ghost use Rattle.std.specs.Prelude.{◌≡◌, OnOk, IfOk, IfSome, IsErrOf, Some, []};
ghost use Rattle.sd_outside.specs.Causes.{Rose};
ghost use Rattle.sd_streams.specs.Writing.{GainsSome, Writes};
ghost use Rattle.sd_boot.specs.Replay.{Replays};

use crate::input::read_all;
use crate::output::refuse;
use crate::play::play;
use crate::status::{Ended, Stop};
use sd_outside::{Sink, Source};
use sd_script::{ScriptError, read_script};
use std::alloc::Global;

/// Plays a text that spells a script, and refuses another.
fn replay_text<K: Sink>(alloc: Global, text: &[u8], sink: &mut K) -> Result<Ended, Stop>
    ensures told { GainsSome (K.written sink.old) (K.written sink.new) (Replays result text.now) }
    ensures fault { IsErrOf result Stop.SinkFault → Rose (K.faults sink.old) (K.faults sink.new) }
    ensures source { IsErrOf result Stop.SourceFault → ⊥ }
    ensures calm { OnOk result (K.faults sink.new ≡ K.faults sink.old) }
{
    match read_script(alloc, text) {
        Err(ScriptError::NoMemory) => Err(Stop::NoMemory),
        Err(ScriptError::Line { number }) => refuse(alloc, number, sink),
        Ok(script) => play(alloc, script, sink),
    }
}

/// Reads a script and writes its transcript, or the refusal of its first line outside the grammar.
pub(crate) fn replay<S: Source, K: Sink>(
    alloc: Global,
    source: &mut S,
    sink: &mut K,
) -> Result<Ended, Stop>
    ensures told { Writes (S.left source.old) (K.written sink.old) (K.written sink.new) (Replays result) }
    ensures whole { IfOk result (λ ended. ended ≡ Ended.Done → IfSome (S.left source.old) (λ all. S.left source.new ≡ Some [])) }
    ensures usage { IfOk result (λ ended. ended ≡ Ended.Usage → ⊥) }
    ensures no_image { IfOk result (λ ended. ended ≡ Ended.NoImage → ⊥) }
    ensures read { IsErrOf result Stop.SourceFault → Rose (S.faults source.old) (S.faults source.new) }
    ensures write { IsErrOf result Stop.SinkFault → Rose (K.faults sink.old) (K.faults sink.new) }
    ensures nothing { IsErrOf result Stop.SourceFault → K.written sink.new ≡ K.written sink.old }
    ensures calm_source { OnOk result (S.faults source.new ≡ S.faults source.old) }
    ensures calm_sink { OnOk result (K.faults sink.new ≡ K.faults sink.old) }
{
    let text = read_all(alloc, source)?;
    replay_text(alloc, text.as_slice(), sink)
}
