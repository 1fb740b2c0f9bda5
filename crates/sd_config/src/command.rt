//! What the client is asked to do.

ghost use Rattle.std.specs.Prelude.{◌≡◌, ◌<◌, ◌≤◌, ◌∷◌, ◌++◌, [], length, OnOk, OnErr};
ghost use Rattle.sd_config.specs.Commands.{command_limit};

use sd_outside::NoMemory;
use std::alloc::Global;
use std::marker::Model;

/// What a command asks for.
#[derive(Clone, Copy, Debug, PartialEq, Eq)]
pub enum Command {
    /// The client asks for its address by RARP (RFC 903).
    Addr,
    /// The client waits so many ticks, 1 to 100,000.
    Wait { ticks: u64 },
    /// The client boots.
    Boot,
}

/// Commands, seen as a list. There are at most 16,384.
#[derive(Debug, Drop)]
pub struct CommandList {
    commands: Vec<Command>,
}

impl Model for CommandList {
    ghost use Rattle.std.specs.Prelude.{List, length, ◌≤◌};
    ghost use Rattle.sd_config.specs.Commands.{command_limit};
    ghost use Rattle.sd_config.specs.declared.command.Command.{Command};

    ghost Value = { List Command };

    ghost view = { λ l. l.commands.items };

    ghost invariant = { λ l. length l.commands.items ≤ command_limit };
}

impl CommandList {
    /// No commands.
    pub fn empty(alloc: Global) -> CommandList
        ensures { result ≡ [] }
    {
        CommandList {
            commands: Vec::new(alloc),
        }
    }

    /// Adds a command at the end. A refused call changes nothing.
    pub fn push(&mut self, item: Command) -> Result<(), NoMemory>
        requires { length self.old < command_limit }
        ensures ok { OnOk result (self.new ≡ self.old ++ item ∷ []) }
        ensures err { OnErr result (self.new ≡ self.old) }
    {
        self.commands.push(item)?;
        Ok(())
    }

    /// The commands, in order.
    pub fn as_slice(&self) -> &[Command]
        ensures all { result.now ≡ self.now }
        ensures few { length self.now ≤ command_limit }
    {
        self.commands.as_slice()
    }
}
