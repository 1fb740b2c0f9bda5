ghost use Rattle.std.specs.Prelude.{[]};
ghost use Rattle.sd_script.specs.Judging.{Judges};
ghost use Rattle.sd_text.specs.Answers.{Tells};
ghost use Rattle.sd_script.specs.Lines.{AddsCommand, MayBeCommand, AddrLine, BootLine, WaitCommandLine};

use crate::draft::{Draft, Section};
use crate::limits::COMMAND_LIMIT;
use sd_config::Command;
use sd_text::{LineError, Parts, only_number, take_end};

/// The next line may be a command line.
fn may_be_command(section: Section) -> Result<(), LineError>
    ensures { Tells (MayBeCommand section) result }
{
    match section {
        Section::Config | Section::Events | Section::Commands => Ok(()),
        _ => Err(LineError::Outside),
    }
}

/// Adds a command.
fn add_command(draft: &mut Draft, command: Command) -> Result<(), LineError>
    ensures { Judges (λ old _ new. AddsCommand old command new) draft.old [] draft.new result }
{
    may_be_command(draft.section)?;
    if draft.commands.as_slice().len() >= COMMAND_LIMIT {
        return Err(LineError::Outside);
    }
    draft.commands.push(command)?;
    draft.section = Section::Commands;
    Ok(())
}

/// `addr`
pub fn addr_line(draft: &mut Draft, mut fields: Parts<'_>) -> Result<(), LineError>
    ensures { Judges AddrLine draft.old fields.entry draft.new result }
{
    take_end(&mut fields)?;
    add_command(draft, Command::Addr)
}

/// `boot`
pub fn boot_line(draft: &mut Draft, mut fields: Parts<'_>) -> Result<(), LineError>
    ensures { Judges BootLine draft.old fields.entry draft.new result }
{
    take_end(&mut fields)?;
    add_command(draft, Command::Boot)
}

/// `wait N`
pub fn wait_command_line(draft: &mut Draft, fields: Parts<'_>) -> Result<(), LineError>
    ensures { Judges WaitCommandLine draft.old fields.entry draft.new result }
{
    let ticks = only_number(fields, 1, 100_000)?;
    add_command(draft, Command::Wait { ticks })
}
