//! Reading a transcript, line by line.
ghost use Rattle.std.specs.Prelude.{◌≡◌, ◌<◌, ◌∷◌, length, IfOk, IfErr};
ghost use Rattle.sd_text.specs.Answers.{Reads};
ghost use Rattle.sd_view.specs.Transcript.{IsWhole, IsTranscript, IsTranscriptError};

use crate::lines::{Line, read_line};
use crate::order::SoFar;
use sd_outside::{ListOf, NoMemory, split_line};
use sd_text::LineError;
use std::alloc::Global;

/// Why a text is no transcript, or wasn't read.
#[derive(Clone, Copy, Debug, PartialEq, Eq)]
pub(crate) enum TranscriptError {
    /// The line with this number, counted from 1, is the first outside the grammar.
    Line { number: u64 },
    /// Out of memory.
    NoMemory,
}

impl From<NoMemory> for TranscriptError {
    ghost use Rattle.std.specs.Prelude.{◌≡◌};
    ghost use Rattle.sd_view.specs.declared.transcript.TranscriptError.TheVariants as errors;

    ghost from_gives = { λ _ e. e ≡ errors.NoMemory };

    fn from(_: NoMemory) -> Self {
        TranscriptError::NoMemory
    }
}

/// What a line with its line feed says.
fn read_whole(alloc: Global, line: &[u8]) -> Result<Line, LineError>
    ensures { Reads (IsWhole line.now) result }
{
    let Some((last, body)) = line.split_last() else {
        return Err(LineError::Outside);
    };
    if *last != b'\n' {
        return Err(LineError::Outside);
    }
    read_line(alloc, body)
}

/// What the lines of a text say, or the number of the first outside the grammar.
pub(crate) fn read_transcript(alloc: Global, text: &[u8]) -> Result<ListOf<Line>, TranscriptError>
    ensures read { IfOk result (IsTranscript text.now) }
    ensures refused { IfErr result (IsTranscriptError text.now) }
{
    let mut run = ListOf::empty(alloc);
    let mut so_far = SoFar { tick: 0, sent: 0 };
    let mut rest = text;
    let mut number: u64 = 0;
    while !rest.is_empty() {
        let (line, after) = split_line(rest);
        number += 1;
        match read_whole(alloc, line) {
            Ok(said) => {
                if !so_far.may_follow(&said) {
                    return Err(TranscriptError::Line { number });
                }
                so_far = so_far.after(&said);
                run.push(said)?;
            }
            Err(LineError::Outside) => return Err(TranscriptError::Line { number }),
            Err(LineError::NoMemory) => return Err(TranscriptError::NoMemory),
        }
        rest = after;
    }
    Ok(run)
}
