//! The programs, by their words.
ghost use Rattle.std.specs.Prelude.{◌≡◌, ◌⊎◌, ◌≤◌, ℕ, List, OnOk, IfOk, IfSome, IsErrOf, Some, Err, []};
ghost use Rattle.sd_outside.specs.Causes.{Rose};
ghost use Rattle.sd_outside.specs.Streams.{Gains};
ghost use Rattle.sd_stable_disk.specs.Image.{opens, holds};
ghost use Rattle.sd_stable_disk.specs.declared.errors.OpenError.{OpenError};
ghost use Rattle.sd_script.specs.declared.script.Script.{Script};
ghost use Rattle.sd_script.specs.Grammar.{IsScript};
ghost use Rattle.sd_streams.specs.Writing.{Writes, GainsPrefix};
ghost use Rattle.sd_claims.specs.Headline.{IsTranscript, IsRefusal, IsOutputPrefix};
ghost use Rattle.sd_boot.specs.PacketTexts.{IsShown, IsShowRefusal, IsShowPrefix, IsPacked, IsPackRefusal, IsPackPrefix};
ghost use Rattle.sd_boot.specs.Images.{IsImageOf, IsImagePrefix, IsShownImage, IsImageRefusal, IsShownPrefix};
ghost use Rattle.sd_boot.specs.Programs.{Performs};
ghost use Rattle.sd_boot.specs.Words.{IsReplay, IsShow, IsPack, IsImageMake, IsImageShow, IsRow, usage_line};

use crate::images::{ImageWord, images};
use crate::output::usage;
use crate::packet_texts::{Direction, translate};
use crate::replay::replay;
use crate::status::{Ended, Status, Stop, status_of};
use crate::words::{Program, Text, program_of};
use sd_outside::{Sink, Source};
use std::alloc::Global;

/// One of the programs, from its input to its output.
fn perform<S: Source, K: Sink>(
    alloc: Global,
    program: Program,
    source: &mut S,
    sink: &mut K,
) -> Result<Ended, Stop>
    ensures told { Writes (S.left source.old) (K.written sink.old) (K.written sink.new) (Performs program result) }
    ensures whole { IfOk result (λ ended. ended ≡ Ended.Done → IfSome (S.left source.old) (λ all. S.left source.new ≡ Some [])) }
    ensures usage { IfOk result (λ ended. ended ≡ Ended.Usage → ⊥) }
    ensures refused { IfOk result (λ ended. ended ≡ Ended.Refused → program ≡ Program.ImageShow → ⊥) }
    ensures no_image { IfOk result (λ ended. ended ≡ Ended.NoImage → program ≡ Program.ImageShow) }
    ensures read { IsErrOf result Stop.SourceFault → Rose (S.faults source.old) (S.faults source.new) }
    ensures write { IsErrOf result Stop.SinkFault → Rose (K.faults sink.old) (K.faults sink.new) }
    ensures nothing { IsErrOf result Stop.SourceFault → K.written sink.new ≡ K.written sink.old }
    ensures calm_source { OnOk result (S.faults source.new ≡ S.faults source.old) }
    ensures calm_sink { OnOk result (K.faults sink.new ≡ K.faults sink.old) }
{
    match program {
        Program::Replay => replay(alloc, source, sink),
        Program::Show => translate(alloc, Direction::Show, source, sink),
        Program::Pack => translate(alloc, Direction::Pack, source, sink),
        Program::ImageMake => images(alloc, ImageWord::Make, source, sink),
        Program::ImageShow => images(alloc, ImageWord::Show, source, sink),
    }
}

/// The program: from its words and its input to its output and its status.
///
/// 0: all was done. 1: the input was refused. 2: the arguments are unknown. 3: the source failed. 4: the sink failed.
/// 5: out of memory. 8: `image show` was given no image that opens.
pub fn run<S: Source, K: Sink>(
    alloc: Global,
    words: &[Text],
    source: &mut S,
    sink: &mut K,
) -> Status
    // The headline. The words are `replay`, and all was done: the output is the transcript of a script that the input
    // spells. Its steps are a lawful run that ends where the server has done all that was due to it, its answers are those of
    // the boot machine, each is earned or caused by its part, and in a calm script, which has no event line and
    // no boot, and whose client waits two ticks or more, all are ok.
    ensures transcript { IsReplay words.now → result.0 ≡ 0 →
        Writes (S.left source.old) (K.written sink.old) (K.written sink.new) IsTranscript }
    // Refused: the output is the line that names the first line outside the grammar.
    ensures refusal { IsReplay words.now → result.0 ≡ 1 →
        Writes (S.left source.old) (K.written sink.old) (K.written sink.new) IsRefusal }
    // Cut short by the sink or by running out of memory: the output is a prefix of the one or the other.
    ensures prefix { IsReplay words.now → 4 ≤ result.0 →
        Writes (S.left source.old) (K.written sink.old) (K.written sink.new) IsOutputPrefix }
    // `show`: each line of the input is a packet's, and the output is their texts, each with a line feed.
    ensures shown { IsShow words.now → result.0 ≡ 0 →
        Writes (S.left source.old) (K.written sink.old) (K.written sink.new) IsShown }
    // Refused: the texts of the lines before the first refused one, its number, and the word and the place.
    ensures show_refusal { IsShow words.now → result.0 ≡ 1 →
        Writes (S.left source.old) (K.written sink.old) (K.written sink.new) IsShowRefusal }
    ensures show_prefix { IsShow words.now → 4 ≤ result.0 →
        Writes (S.left source.old) (K.written sink.old) (K.written sink.new) IsShowPrefix }
    // `pack`: each line of the input is a packet's text, and the output is the packets' lines.
    ensures packed { IsPack words.now → result.0 ≡ 0 →
        Writes (S.left source.old) (K.written sink.old) (K.written sink.new) IsPacked }
    ensures pack_refusal { IsPack words.now → result.0 ≡ 1 →
        Writes (S.left source.old) (K.written sink.old) (K.written sink.new) IsPackRefusal }
    ensures pack_prefix { IsPack words.now → 4 ≤ result.0 →
        Writes (S.left source.old) (K.written sink.old) (K.written sink.new) IsPackPrefix }
    // `image make`: the input spells a script, and the output is the image of its swap file, or of no file.
    ensures image { IsImageMake words.now → result.0 ≡ 0 →
        Writes (S.left source.old) (K.written sink.old) (K.written sink.new) IsImageOf }
    ensures image_unmade { IsImageMake words.now → result.0 ≡ 1 →
        Writes (S.left source.old) (K.written sink.old) (K.written sink.new) IsRefusal }
    ensures image_prefix { IsImageMake words.now → 4 ≤ result.0 →
        Writes (S.left source.old) (K.written sink.old) (K.written sink.new) IsImagePrefix }
    // `image show`: the output is the text of the files that the image holds.
    ensures shown_image { IsImageShow words.now → result.0 ≡ 0 →
        Writes (S.left source.old) (K.written sink.old) (K.written sink.new) IsShownImage }
    // The image is refused: the output is the line that says why.
    ensures image_refusal { IsImageShow words.now → result.0 ≡ 8 →
        Writes (S.left source.old) (K.written sink.old) (K.written sink.new) IsImageRefusal }
    ensures shown_image_prefix { IsImageShow words.now → 4 ≤ result.0 →
        Writes (S.left source.old) (K.written sink.old) (K.written sink.new) IsShownPrefix }
    // Cut short by the source: nothing was written.
    ensures nothing { result.0 ≡ 3 → K.written sink.new ≡ K.written sink.old }
    // The usage line stands exactly where the arguments are unknown; where the sink failed, a prefix of it.
    ensures usage { result.0 ≡ 2 → Gains (K.written sink.old) (K.written sink.new) usage_line }
    ensures usage_prefix { (IsRow words.now → ⊥) → result.0 ≡ 4 → GainsPrefix (K.written sink.old) (K.written sink.new) usage_line }
    ensures unknown { (IsRow words.now → ⊥) → (result.0 ≡ 2) ⊎ (result.0 ≡ 4) }
    ensures known { IsRow words.now → result.0 ≡ 2 → ⊥ }
    // When each status comes.
    ensures statuses { (result.0 ≤ 5) ⊎ (result.0 ≡ 8) }
    ensures only_show { result.0 ≡ 8 → IsImageShow words.now }
    ensures not_show { IsImageShow words.now → result.0 ≡ 1 → ⊥ }
    ensures source { result.0 ≡ 3 → Rose (S.faults source.old) (S.faults source.new) }
    ensures sink { result.0 ≡ 4 → Rose (K.faults sink.old) (K.faults sink.new) }
    ensures calm_source { result.0 ≤ 2 → S.faults source.new ≡ S.faults source.old }
    ensures calm_sink { result.0 ≤ 2 → K.faults sink.new ≡ K.faults sink.old }
    ensures refused_source { result.0 ≡ 8 → S.faults source.new ≡ S.faults source.old }
    ensures refused_sink { result.0 ≡ 8 → K.faults sink.new ≡ K.faults sink.old }
    // Where neither the source nor the sink fails, a script is played to its end, unless it runs out of memory.
    ensures complete { IsReplay words.now → (Rose (S.faults source.old) (S.faults source.new) → ⊥) → (Rose (K.faults sink.old) (K.faults sink.new) → ⊥) →
        IfSome (S.left source.old) (λ text. (script : Script) → IsScript text script → (result.0 ≡ 0) ⊎ (result.0 ≡ 5)) }
    // The same for the image of a script and the files of an image; and an image that is refused answers so.
    ensures image_complete { IsImageMake words.now → (Rose (S.faults source.old) (S.faults source.new) → ⊥) → (Rose (K.faults sink.old) (K.faults sink.new) → ⊥) →
        IfSome (S.left source.old) (λ text. (script : Script) → IsScript text script → (result.0 ≡ 0) ⊎ (result.0 ≡ 5)) }
    ensures shown_image_complete { IsImageShow words.now → (Rose (S.faults source.old) (S.faults source.new) → ⊥) → (Rose (K.faults sink.old) (K.faults sink.new) → ⊥) →
        IfSome (S.left source.old) (λ image. (files : List (List ℕ)) → holds image files → (result.0 ≡ 0) ⊎ (result.0 ≡ 5)) }
    ensures image_refused { IsImageShow words.now → (Rose (S.faults source.old) (S.faults source.new) → ⊥) → (Rose (K.faults sink.old) (K.faults sink.new) → ⊥) →
        IfSome (S.left source.old) (λ image. (error : OpenError) → opens image ≡ Err error → (result.0 ≡ 8) ⊎ (result.0 ≡ 5)) }
    ensures whole { result.0 ≡ 0 → IfSome (S.left source.old) (λ all. S.left source.new ≡ Some []) }
{
    match program_of(words) {
        Some(program) => status_of(perform(alloc, program, source, sink)),
        None => status_of(usage(sink)),
    }
}
