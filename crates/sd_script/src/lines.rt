//! One function for each kind of line, and the choice by a line's first word.

ghost use Rattle.std.specs.Prelude.{◌≡◌, []};
ghost use Rattle.sd_text.specs.Answers.{Finds};
ghost use Rattle.sd_script.specs.Judging.{Judges};
ghost use Rattle.sd_script.specs.Grammar.{spelling, WordLine, IsLine};

mod commands;
mod config;
mod events;
mod files;
mod heading;
mod params;

use crate::draft::{Draft, Section, Word};
use commands::{addr_line, boot_line, wait_command_line};
use config::{arch_line, host_line, kernel_line, root_line, swap_line};
use events::{fate_line, fault_line, stranger_line};
use files::{file_line, link_line, tftp_line};
use heading::{client_line, life_line, pages_line, server_line, tries_line, wait_line};
use params::params_line;
use sd_text::{LineError, Parts};
use std::alloc::Global;

/// The word that a text spells.
fn word_of(text: &[u8]) -> Option<Word>
    ensures { Finds (λ word. text.now ≡ spelling word) result }
{
    match text {
        b"life" => Some(Word::Life),
        b"tries" => Some(Word::Tries),
        b"wait" => Some(Word::Wait),
        b"pages" => Some(Word::Pages),
        b"server" => Some(Word::Server),
        b"client" => Some(Word::Client),
        b"arch" => Some(Word::Arch),
        b"host" => Some(Word::Host),
        b"params" => Some(Word::Params),
        b"tftp" => Some(Word::Tftp),
        b"root" => Some(Word::Root),
        b"file" => Some(Word::File),
        b"link" => Some(Word::Link),
        b"kernel" => Some(Word::Kernel),
        b"swap" => Some(Word::Swap),
        b"fate" => Some(Word::Fate),
        b"stranger" => Some(Word::Stranger),
        b"fault" => Some(Word::Fault),
        b"addr" => Some(Word::Addr),
        b"boot" => Some(Word::Boot),
        _ => None,
    }
}

/// `wait`, which in the heading is another line than among the commands.
fn either_wait_line(draft: &mut Draft, fields: Parts<'_>) -> Result<(), LineError>
    ensures { Judges (WordLine Word.Wait) draft.old fields.entry draft.new result }
{
    match draft.section {
        Section::Wait => wait_line(draft, fields),
        _ => wait_command_line(draft, fields),
    }
}

/// The line with this word and these further fields.
fn word_line(
    alloc: Global,
    word: Word,
    draft: &mut Draft,
    fields: Parts<'_>,
) -> Result<(), LineError>
    ensures { Judges (WordLine word) draft.old fields.entry draft.new result }
{
    match word {
        Word::Life => life_line(draft, fields),
        Word::Tries => tries_line(draft, fields),
        Word::Wait => either_wait_line(draft, fields),
        Word::Pages => pages_line(draft, fields),
        Word::Server => server_line(alloc, draft, fields),
        Word::Client => client_line(alloc, draft, fields),
        Word::Arch => arch_line(alloc, draft, fields),
        Word::Host => host_line(alloc, draft, fields),
        Word::Params => params_line(alloc, draft, fields),
        Word::Tftp => tftp_line(alloc, draft, fields),
        Word::Root => root_line(alloc, draft, fields),
        Word::File => file_line(alloc, draft, fields),
        Word::Link => link_line(alloc, draft, fields),
        Word::Kernel => kernel_line(alloc, draft, fields),
        Word::Swap => swap_line(alloc, draft, fields),
        Word::Fate => fate_line(alloc, draft, fields),
        Word::Stranger => stranger_line(alloc, draft, fields),
        Word::Fault => fault_line(draft, fields),
        Word::Addr => addr_line(draft, fields),
        Word::Boot => boot_line(draft, fields),
    }
}

/// A line, without its line feed.
pub fn read_line(alloc: Global, draft: &mut Draft, line: &[u8]) -> Result<(), LineError>
    ensures { Judges (λ old _ new. IsLine old line.now new) draft.old [] draft.new result }
{
    match line {
        [] | [b'#', ..] => Ok(()),
        _ => {
            let mut fields = Parts::new(line, b' ');
            let Some(first) = fields.next() else {
                return Err(LineError::Outside);
            };
            let Some(word) = word_of(first) else {
                return Err(LineError::Outside);
            };
            word_line(alloc, word, draft, fields)
        }
    }
}
