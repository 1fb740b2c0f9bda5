//! The program, from its words and its input to its output and its status.
ghost use Rattle.std.specs.Prelude.{◌≡◌, ◌⊎◌, ◌≤◌, ℕ, List, [], OnOk, IfOk, IfSome, IsErrOf, Some};
ghost use Rattle.sd_outside.specs.Causes.{Rose};
ghost use Rattle.sd_outside.specs.Streams.{Gains};
ghost use Rattle.sd_streams.specs.Writing.{GainsPrefix, GainsSome, Writes};
ghost use Rattle.sd_view.specs.declared.lines.Line.{Line};
ghost use Rattle.sd_view.specs.declared.views.View.{View};
ghost use Rattle.sd_view.specs.Transcript.{IsTranscript, IsFirstOutside};
ghost use Rattle.sd_view.specs.Views.{HasWords, IsDrawn, IsRefusal, IsOutputPrefix, Draws, usage_line};

use crate::output::{refuse, usage, write};
use crate::status::{Ended, Status, Stop, status_of};
use crate::transcript::{TranscriptError, read_transcript};
use crate::views::{View, drawing, view_of};
use sd_outside::{ByteList, Sink, Source};
use sd_streams::{ReadError, read_all};
use std::alloc::Global;

/// All of the input.
fn read<S: Source>(alloc: Global, source: &mut S) -> Result<ByteList, Stop>
    ensures told { IfOk result (λ text. IfSome (S.left source.old) (λ all. (text ≡ all) × (S.left source.new ≡ Some []))) }
    ensures calm { OnOk result (S.faults source.new ≡ S.faults source.old) }
    ensures fault { IsErrOf result Stop.SourceFault → Rose (S.faults source.old) (S.faults source.new) }
    ensures memory { IsErrOf result Stop.NoMemory → S.faults source.new ≡ S.faults source.old }
    ensures sink { IsErrOf result Stop.SinkFault → ⊥ }
{
    match read_all(alloc, source) {
        Ok(text) => Ok(text),
        Err(ReadError::Fault) => Err(Stop::SourceFault),
        Err(ReadError::NoMemory) => Err(Stop::NoMemory),
    }
}

/// Writes what a view makes of the run of a text, or the refusal of its first line outside the grammar.
fn draw_text<K: Sink>(alloc: Global, view: View, text: &[u8], sink: &mut K) -> Result<Ended, Stop>
    ensures told { GainsSome (K.written sink.old) (K.written sink.new) (Draws view result text.now) }
    ensures fault { IsErrOf result Stop.SinkFault → Rose (K.faults sink.old) (K.faults sink.new) }
    ensures memory { IsErrOf result Stop.NoMemory → K.faults sink.new ≡ K.faults sink.old }
    ensures source { IsErrOf result Stop.SourceFault → ⊥ }
    ensures calm { OnOk result (K.faults sink.new ≡ K.faults sink.old) }
{
    match read_transcript(alloc, text) {
        Ok(run) => {
            let bytes = drawing(alloc, view, run.as_slice())?;
            write(sink, bytes.as_slice())?;
            Ok(Ended::Done)
        }
        Err(error) => match error {
            TranscriptError::Line { number } => refuse(alloc, number, sink),
            TranscriptError::NoMemory => Err(Stop::NoMemory),
        },
    }
}

/// Reads a transcript and writes what a view makes of its run, or the refusal of its first line outside the grammar.
fn draw<S: Source, K: Sink>(
    alloc: Global,
    view: View,
    source: &mut S,
    sink: &mut K,
) -> Result<Ended, Stop>
    ensures told { Writes (S.left source.old) (K.written sink.old) (K.written sink.new) (Draws view result) }
    ensures whole { IfOk result (λ ended. IfSome (S.left source.old) (λ all. S.left source.new ≡ Some [])) }
    ensures usage { IfOk result (λ ended. ended ≡ Ended.Usage → ⊥) }
    ensures read { IsErrOf result Stop.SourceFault → Rose (S.faults source.old) (S.faults source.new) }
    ensures write { IsErrOf result Stop.SinkFault → Rose (K.faults sink.old) (K.faults sink.new) }
    ensures nothing { IsErrOf result Stop.SourceFault → K.written sink.new ≡ K.written sink.old }
    ensures unwritten { IsErrOf result Stop.SourceFault → K.faults sink.new ≡ K.faults sink.old }
    ensures was_read { IsErrOf result Stop.SinkFault → S.faults source.new ≡ S.faults source.old }
    ensures memory_source { IsErrOf result Stop.NoMemory → S.faults source.new ≡ S.faults source.old }
    ensures memory_sink { IsErrOf result Stop.NoMemory → K.faults sink.new ≡ K.faults sink.old }
    ensures calm_source { OnOk result (S.faults source.new ≡ S.faults source.old) }
    ensures calm_sink { OnOk result (K.faults sink.new ≡ K.faults sink.old) }
{
    let text = read(alloc, source)?;
    draw_text(alloc, view, text.as_slice(), sink)
}

/// The program: from its words and its input to its output and its status.
///
/// 0: all was done. 1: the input is no transcript. 2: the arguments are unknown. 3: the source failed. 4: the sink failed.
/// 5: out of memory.
pub fn run<S: Source, K: Sink>(
    alloc: Global,
    words: &[ByteList],
    source: &mut S,
    sink: &mut K,
) -> Status
    // All was done: the input is the transcript of a run, and the output is what the view makes of this run.
    ensures drawn { (view : View) → HasWords view words.now → result.0 ≡ 0 →
        Writes (S.left source.old) (K.written sink.old) (K.written sink.new) (IsDrawn view) }
    // Refused: the output is the line that names the first line outside the grammar.
    ensures refusal { (view : View) → HasWords view words.now → result.0 ≡ 1 →
        Writes (S.left source.old) (K.written sink.old) (K.written sink.new) IsRefusal }
    // Cut short by the sink or by running out of memory: the output is a prefix of the one or the other.
    ensures prefix { (view : View) → HasWords view words.now → 4 ≤ result.0 →
        Writes (S.left source.old) (K.written sink.old) (K.written sink.new) (IsOutputPrefix view) }
    // Cut short by the source: nothing was written.
    ensures nothing { result.0 ≡ 3 → K.written sink.new ≡ K.written sink.old }
    // The usage line stands exactly where the arguments are unknown, or a prefix of it where the sink failed. Nothing is read then.
    ensures usage { result.0 ≡ 2 → Gains (K.written sink.old) (K.written sink.new) usage_line }
    ensures usage_prefix { ((view : View) → HasWords view words.now → ⊥) → result.0 ≡ 4 → GainsPrefix (K.written sink.old) (K.written sink.new) usage_line }
    ensures unread { ((view : View) → HasWords view words.now → ⊥) → S.left source.new ≡ S.left source.old }
    ensures unknown { ((view : View) → HasWords view words.now → ⊥) → (result.0 ≡ 2) ⊎ (result.0 ≡ 4) }
    ensures known { (view : View) → HasWords view words.now → result.0 ≡ 2 → ⊥ }
    // When each status comes.
    ensures statuses { result.0 ≤ 5 }
    ensures source { result.0 ≡ 3 → Rose (S.faults source.old) (S.faults source.new) }
    ensures sink { result.0 ≡ 4 → Rose (K.faults sink.old) (K.faults sink.new) }
    ensures calm_source { (result.0 ≡ 3 → ⊥) → S.faults source.new ≡ S.faults source.old }
    ensures calm_sink { (result.0 ≡ 4 → ⊥) → K.faults sink.new ≡ K.faults sink.old }
    ensures whole { result.0 ≤ 1 → IfSome (S.left source.old) (λ all. S.left source.new ≡ Some []) }
    // Where neither the source nor the sink fails, a transcript is drawn and another text refused, unless memory runs out.
    ensures complete { (view : View) → HasWords view words.now → (Rose (S.faults source.old) (S.faults source.new) → ⊥) → (Rose (K.faults sink.old) (K.faults sink.new) → ⊥) →
        IfSome (S.left source.old) (λ text. (lines : List Line) → IsTranscript text lines → (result.0 ≡ 0) ⊎ (result.0 ≡ 5)) }
    ensures refused { (view : View) → HasWords view words.now → (Rose (S.faults source.old) (S.faults source.new) → ⊥) → (Rose (K.faults sink.old) (K.faults sink.new) → ⊥) →
        IfSome (S.left source.old) (λ text. (n : ℕ) → IsFirstOutside text n → (result.0 ≡ 1) ⊎ (result.0 ≡ 5)) }
{
    match view_of(words) {
        Some(view) => status_of(draw(alloc, view, source, sink)),
        None => status_of(usage(sink)),
    }
}
