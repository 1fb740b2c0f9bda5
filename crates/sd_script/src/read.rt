//! Reading a script, line by line.

ghost use Rattle.std.specs.Prelude.{◌≡◌, ◌<◌, ◌∷◌, ◌++◌, length, IsTrue, ◌↔◌, IfOk, IfErr};
ghost use Rattle.sd_script.specs.Judging.{ReadsLines};
ghost use Rattle.sd_script.specs.Rules.{KeepsRules};
ghost use Rattle.sd_outside.specs.Lines.{lines, without_feed};
ghost use Rattle.sd_script.specs.Grammar.{blank, no_machine, kernel_or_usual, script_of, IsWhole, IsScript, IsScriptError};

use crate::draft::{Draft, Section};
use crate::error::ScriptError;
use crate::fates::FateBook;
use crate::limits::INPUT_LIMIT;
use crate::lines::read_line;
use crate::script::Script;
use sd_config::{CommandList, Config, Events, FaultList, Machine, StrangerList};
use sd_outside::{ByteList, ListOf, Mac, NoMemory, split_line, without_feed};
use sd_text::LineError;
use std::alloc::Global;

fn empty_machine(alloc: Global) -> Machine
    ensures { result ≡ no_machine }
{
    Machine {
        mac: Mac([0; 6]),
        ip: 0,
        name: ByteList::empty(alloc),
    }
}

/// A draft of which nothing is said yet.
fn blank_draft(alloc: Global) -> Draft
    ensures { result ≡ blank }
{
    Draft {
        section: Section::Life,
        config: Config {
            life: 0,
            tries: 0,
            wait: 0,
            pages: 0,
            server: empty_machine(alloc),
            client: empty_machine(alloc),
            domain: ByteList::empty(alloc),
            router: 0,
            arch: ByteList::empty(alloc),
            hosts: ListOf::empty(alloc),
            tftp: ListOf::empty(alloc),
            params: ByteList::empty(alloc),
            root: None,
            items: ListOf::empty(alloc),
            kernel: ByteList::empty(alloc),
            swap: None,
        },
        params_lines: 0,
        params: sd_bootparams::blank_draft(alloc),
        bytes: 0,
        fates: FateBook::empty(alloc),
        strangers: StrangerList::empty(alloc),
        faults: FaultList::empty(alloc),
        commands: CommandList::empty(alloc),
    }
}

/// The kernel's path, and the usual one where no line names another.
fn kernel_or_usual(alloc: Global, kernel: ByteList) -> Result<ByteList, NoMemory>
    ensures { IfOk result (λ path. path ≡ kernel_or_usual kernel) }
{
    if kernel.as_slice().is_empty() {
        ByteList::from_slice(alloc, b"/vmunix")
    } else {
        Ok(kernel)
    }
}

/// The script that a draft is.
fn script_of(alloc: Global, draft: Draft) -> Result<Script, NoMemory>
    ensures { IfOk result (λ script. script ≡ script_of draft) }
{
    let mut config = draft.config;
    config.kernel = kernel_or_usual(alloc, config.kernel)?;
    Ok(Script {
        config,
        events: Events {
            fates: draft.fates.into_list(),
            strangers: draft.strangers,
            faults: draft.faults,
        },
        commands: draft.commands,
    })
}

/// Whether all six lines of the heading came.
fn is_whole(section: Section) -> bool
    ensures { IsTrue result ↔ IsWhole section }
{
    matches!(
        section,
        Section::Config | Section::Events | Section::Commands
    )
}

/// Reads all lines of a text into a draft of which nothing is said yet, and gives the number that one more line had.
fn read_lines(alloc: Global, draft: &mut Draft, text: &[u8]) -> Result<u64, ScriptError>
    requires { draft.old ≡ blank }
    ensures { ReadsLines text.now draft.new result }
{
    let mut rest = text;
    let mut number: u64 = 0;
    while !rest.is_empty() {
        let (line, after) = split_line(rest);
        number += 1;
        if text.len() - after.len() > INPUT_LIMIT {
            return Err(ScriptError::Line { number });
        }
        match read_line(alloc, draft, without_feed(line)) {
            Ok(()) => {}
            Err(LineError::Outside) => return Err(ScriptError::Line { number }),
            Err(LineError::NoMemory) => return Err(ScriptError::NoMemory),
        }
        rest = after;
    }
    Ok(number + 1)
}

/// The script of a text, or the number of the first line outside the grammar. A text of more than 67,108,864 bytes is no
/// script: the line with the first byte past them is refused, if none before it is.
pub fn read_script(alloc: Global, text: &[u8]) -> Result<Script, ScriptError>
    ensures script { IfOk result (λ script. IsScript text.now script) }
    ensures rules { IfOk result KeepsRules }
    ensures refused { IfErr result (IsScriptError text.now) }
{
    let mut draft = blank_draft(alloc);
    let number = read_lines(alloc, &mut draft, text)?;
    if !is_whole(draft.section) {
        return Err(ScriptError::Line { number });
    }
    match script_of(alloc, draft) {
        Ok(script) => Ok(script),
        Err(NoMemory) => Err(ScriptError::NoMemory),
    }
}
