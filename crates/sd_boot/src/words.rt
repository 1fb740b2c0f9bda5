//! The words of the command line.
ghost use Rattle.std.specs.Prelude.{◌≡◌, ◌↔◌, IsTrue, IfOk, MatchOption, length};
ghost use Rattle.sd_boot.specs.Words.{HasWords};

use sd_outside::{ByteList, NoMemory};
use std::alloc::Global;
use std::marker::Model;

/// A word of the command line, seen as its bytes.
#[derive(Debug, Drop)]
pub struct Text {
    bytes: ByteList,
}

impl Model for Text {
    ghost use Rattle.std.specs.Prelude.{List, ℕ};

    ghost Value = { List ℕ };

    ghost view = { λ word. word.bytes };
}

impl Text {
    /// The word with these bytes.
    pub fn new(alloc: Global, word: &str) -> Result<Text, NoMemory>
        ensures { IfOk result (λ text. text ≡ word.now) }
    {
        Ok(Text {
            bytes: ByteList::from_slice(alloc, word.as_bytes())?,
        })
    }

    /// Whether it is this word.
    pub fn is(&self, word: &[u8]) -> bool
        ensures { IsTrue result ↔ (self.now ≡ word.now) }
    {
        self.bytes.as_slice() == word
    }
}

/// What the words call for.
#[derive(Clone, Copy, Debug, PartialEq, Eq)]
pub(crate) enum Program {
    Replay,
    Show,
    Pack,
    ImageMake,
    ImageShow,
}

/// The program of two words, if there is one.
fn image_program(words: &[Text]) -> Option<Program>
    requires { length words.now ≡ 2 }
    ensures { MatchOption result ((program : Program) → HasWords program words.now → ⊥) (λ program. HasWords program words.now) }
{
    if !words[0].is(b"image") {
        return None;
    }
    if words[1].is(b"make") {
        Some(Program::ImageMake)
    } else if words[1].is(b"show") {
        Some(Program::ImageShow)
    } else {
        None
    }
}

/// The program with these words, if there is one.
pub(crate) fn program_of(words: &[Text]) -> Option<Program>
    ensures { MatchOption result ((program : Program) → HasWords program words.now → ⊥) (λ program. HasWords program words.now) }
{
    if words.len() == 2 {
        return image_program(words);
    }
    if words.len() != 1 {
        return None;
    }
    if words[0].is(b"replay") {
        Some(Program::Replay)
    } else if words[0].is(b"show") {
        Some(Program::Show)
    } else if words[0].is(b"pack") {
        Some(Program::Pack)
    } else {
        None
    }
}
