//! The programs `image make` and `image show`.
ghost use Rattle.std.specs.Prelude.{◌≡◌, ◌≢◌, OnOk, IfOk, IfSome, IsErrOf, Some, []};
ghost use Rattle.sd_outside.specs.Causes.{Rose};
ghost use Rattle.sd_config.specs.Config.{IsSwap};
ghost use Rattle.sd_boot.specs.Images.{Answers, EndsSo, IsNewImage, IsRefusalLine};
ghost use Rattle.sd_streams.specs.Writing.{GainsSome, Writes};

use crate::held_files::files_text;
use crate::input::read_all;
use crate::output::{refusal_line, write};
use crate::status::{Ended, Stop};
use sd_config::SwapLine;
use sd_outside::{ByteList, CalmDisk, NoMemory, Sink, Source};
use sd_script::{ScriptError, push_number, read_script};
use sd_stable_disk::{OpenError, Store, image_of};
use std::alloc::Global;

/// What is done with an image.
#[derive(Clone, Copy, Debug, PartialEq, Eq)]
pub(crate) enum ImageWord {
    /// A script's swap file is made.
    Make,
    /// The files that an image holds are shown.
    Show,
}

/// The image of a new swap file, or of no file.
fn new_image(alloc: Global, swap: &Option<SwapLine>) -> Result<ByteList, NoMemory>
    requires { IfSome swap.now IsSwap }
    ensures { IfOk result (IsNewImage swap.now) }
{
    match swap {
        Some(swap) => image_of(alloc, &[swap.size]),
        None => image_of(alloc, &[]),
    }
}

/// How `image make` of a text ends, and what is written for it.
fn made(alloc: Global, text: &[u8]) -> Result<(Ended, ByteList), NoMemory>
    ensures { IfOk result (λ done. EndsSo ImageWord.Make done.0 text.now done.1) }
{
    match read_script(alloc, text) {
        Ok(script) => Ok((Ended::Done, new_image(alloc, &script.config.swap)?)),
        Err(ScriptError::Line { number }) => Ok((Ended::Refused, refusal_line(alloc, number)?)),
        Err(ScriptError::NoMemory) => Err(NoMemory),
    }
}

/// The line that says why an image is refused.
fn image_refusal(alloc: Global, error: OpenError) -> Result<ByteList, NoMemory>
    requires { error ≢ OpenError.DiskFault }
    ensures { IfOk result (IsRefusalLine error) }
{
    let mut line = ByteList::empty(alloc);
    match error {
        OpenError::Damaged { at } => {
            line.push_slice(b"damaged ")?;
            push_number(alloc, &mut line, at)?;
        }
        OpenError::Version { got } => {
            line.push_slice(b"version ")?;
            push_number(alloc, &mut line, u64::from(got))?;
        }
        // A calm disk has no fault.
        OpenError::NoMemory | OpenError::DiskFault => return Err(NoMemory),
    }
    line.push_slice(b"\n")?;
    Ok(line)
}

/// How `image show` of an image ends, and what is written for it.
fn shown(alloc: Global, image: &[u8]) -> Result<(Ended, ByteList), NoMemory>
    ensures { IfOk result (λ done. EndsSo ImageWord.Show done.0 image.now done.1) }
{
    match Store::open(alloc, CalmDisk::new(alloc, image)?) {
        Ok(mut store) => Ok((Ended::Done, files_text(alloc, &mut store)?)),
        Err((error, _)) => Ok((Ended::NoImage, image_refusal(alloc, error)?)),
    }
}

/// Writes what is answered to an input.
fn write_answer<K: Sink>(
    alloc: Global,
    word: ImageWord,
    input: &[u8],
    sink: &mut K,
) -> Result<Ended, Stop>
    ensures told { GainsSome (K.written sink.old) (K.written sink.new) (Answers word result input.now) }
    ensures fault { IsErrOf result Stop.SinkFault → Rose (K.faults sink.old) (K.faults sink.new) }
    ensures source { IsErrOf result Stop.SourceFault → ⊥ }
    ensures calm { OnOk result (K.faults sink.new ≡ K.faults sink.old) }
{
    let (ended, output) = answer(alloc, word, input)?;
    write(sink, output.as_slice())?;
    Ok(ended)
}

/// How it ends for an input, and what is written for it.
fn answer(alloc: Global, word: ImageWord, input: &[u8]) -> Result<(Ended, ByteList), NoMemory>
    ensures { IfOk result (λ done. EndsSo word done.0 input.now done.1) }
{
    match word {
        ImageWord::Make => made(alloc, input),
        ImageWord::Show => shown(alloc, input),
    }
}

/// Reads a script and writes the image of its swap file, or the refusal of its first line outside the grammar; or reads an
/// image and writes the files that it holds, or why it is refused.
pub(crate) fn images<S: Source, K: Sink>(
    alloc: Global,
    word: ImageWord,
    source: &mut S,
    sink: &mut K,
) -> Result<Ended, Stop>
    ensures told { Writes (S.left source.old) (K.written sink.old) (K.written sink.new) (Answers word result) }
    ensures whole { IfOk result (λ ended. ended ≡ Ended.Done → IfSome (S.left source.old) (λ all. S.left source.new ≡ Some [])) }
    ensures usage { IfOk result (λ ended. ended ≡ Ended.Usage → ⊥) }
    ensures refused { IfOk result (λ ended. ended ≡ Ended.Refused → word ≡ ImageWord.Make) }
    ensures no_image { IfOk result (λ ended. ended ≡ Ended.NoImage → word ≡ ImageWord.Show) }
    ensures read { IsErrOf result Stop.SourceFault → Rose (S.faults source.old) (S.faults source.new) }
    ensures write { IsErrOf result Stop.SinkFault → Rose (K.faults sink.old) (K.faults sink.new) }
    ensures nothing { IsErrOf result Stop.SourceFault → K.written sink.new ≡ K.written sink.old }
    ensures calm_source { OnOk result (S.faults source.new ≡ S.faults source.old) }
    ensures calm_sink { OnOk result (K.faults sink.new ≡ K.faults sink.old) }
{
    let input = read_all(alloc, source)?;
    write_answer(alloc, word, input.as_slice(), sink)
}
