//! The words with which the lines of a transcript begin.
ghost use Rattle.std.specs.Prelude.{◌≡◌};
ghost use Rattle.sd_text.specs.Answers.{Finds};
ghost use Rattle.sd_view.specs.Lines.{spelling};

/// The first words of lines.
#[derive(Clone, Copy, Debug, PartialEq, Eq)]
pub enum Word {
    Sent,
    Served,
    Crashed,
    Faulted,
    Got,
    Failed,
    Addr,
    Boot,
    Out,
    In,
    Drop,
    Wait,
}

/// The word that a text spells.
pub(crate) fn word_of(text: &[u8]) -> Option<Word>
    ensures { Finds (λ word. text.now ≡ spelling word) result }
{
    match text {
        b"sent" => Some(Word::Sent),
        b"served" => Some(Word::Served),
        b"crashed" => Some(Word::Crashed),
        b"faulted" => Some(Word::Faulted),
        b"got" => Some(Word::Got),
        b"failed" => Some(Word::Failed),
        b"addr" => Some(Word::Addr),
        b"boot" => Some(Word::Boot),
        b"out" => Some(Word::Out),
        b"in" => Some(Word::In),
        b"drop" => Some(Word::Drop),
        b"wait" => Some(Word::Wait),
        _ => None,
    }
}
