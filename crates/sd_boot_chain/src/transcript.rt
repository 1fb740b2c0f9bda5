//! A list of commands, done one after another over any link.
ghost use Rattle.std.specs.Prelude.{◌≡◌, ◌≤◌, ◌+◌, ◌*◌, length, IfOk, OnOk, OnErr, IsErrOf};
ghost use Rattle.std.specs.List.{All};
ghost use Rattle.sd_outside.specs.Causes.{Rose};
ghost use Rattle.sd_config.specs.Config.{IsFor, IsClientConfig};
ghost use Rattle.sd_link.specs.Link.{Moves, IsDrained};
ghost use Rattle.sd_config.specs.Commands.{command_limit};
ghost use Rattle.sd_config.specs.Commands.{IsCommand};
ghost use Rattle.sd_claims.specs.Booting.{first_counts};
ghost use Rattle.sd_claims.specs.Session.{IsSession, IsCutSession};
ghost use Rattle.sd_claims.specs.Wrote.{Wrote, WrotePrefix};
ghost use Rattle.sd_outside.specs.Streams.{IsPrefixOf};
ghost use Rattle.sd_rpc_retry.specs.Lasting.{Lasts};
ghost use Rattle.sd_boot_chain.specs.Durations.{most_ticks, most_session_ticks, most_calls, HasCallsLeft};
ghost use Rattle.sd_boot_chain.specs.Step.{HasCounted, IsStep, IsSaid};

use crate::client::Client;
use sd_config::{ClientConfig, Command, CommandList};
use sd_link::Link;
use sd_outside::{ByteList, Failed, NoMemory, Sink};
use sd_script::write_answer;
use sd_streams::write_all;
use std::alloc::Global;

/// Why a session ended before its commands did.
#[derive(Clone, Copy, Debug, PartialEq, Eq)]
pub enum SessionError {
    /// The sink failed, and counted it.
    SinkFault,
    /// Out of memory.
    NoMemory,
}

impl From<NoMemory> for SessionError {
    ghost use Rattle.std.specs.Prelude.{◌≡◌};
    ghost use Rattle.sd_boot_chain.specs.declared.transcript.SessionError.TheVariants as errors;

    ghost from_gives = { λ _ e. e ≡ errors.NoMemory };

    fn from(_: NoMemory) -> Self {
        SessionError::NoMemory
    }
}

/// Does one command, and gives its record lines and its answer line.
fn text_of<L: Link>(
    alloc: Global,
    client: &mut Client,
    link: &mut L,
    command: &Command,
) -> Result<ByteList, NoMemory>
    requires command { IsCommand command.now }
    requires xid { HasCallsLeft client.old.next_xid }
    ensures done { IfOk result (λ text.
        Moves (L.told link.old) (L.told link.new) (IsStep client.old command.now (L.drained link.old) text client.new)) }
    ensures calls { client.new.next_xid ≤ client.old.next_xid + most_calls }
    ensures lasts { Lasts most_ticks (L.told link.old) (L.told link.new) }
    ensures drained { OnOk result (IsDrained (L.told link.new) (L.drained link.new)) }
    ensures said { IfOk result (IsSaid (client.old.config.tries * client.old.config.wait) command.now (record { handed = L.handed link.old; clock = L.clock link.old; faults = L.faults link.old }) (record { handed = L.handed link.new; clock = L.clock link.new; faults = L.faults link.new }) (L.drained link.old) (L.drained link.new)) }
    ensures prefix { IsPrefixOf (L.drained link.old) (L.drained link.new) }
    ensures counts { L.handed link.old ≤ L.handed link.new }
    ensures later { L.clock link.old ≤ L.clock link.new }
    ensures faults { L.faults link.old ≤ L.faults link.new }
    ensures same { client.new.config ≡ client.old.config }
{
    let answer = client.step(link, command)?;
    let mut text = ByteList::empty(alloc);
    link.drain(&mut text)?;
    write_answer(alloc, &answer, &mut text)?;
    Ok(text)
}

/// Does each command in turn, and writes its record lines and its answer line.
fn do_all<L: Link, K: Sink>(
    alloc: Global,
    client: &mut Client,
    link: &mut L,
    commands: &[Command],
    sink: &mut K,
) -> Result<(), SessionError>
    requires commands { All IsCommand commands.now }
    requires few { length commands.now ≤ command_limit }
    requires fresh { HasCounted client.old first_counts }
    ensures done { OnOk result (Moves (L.told link.old) (L.told link.new) (λ old part. IsFor old.config client.old.config →
        IsSession commands.now (L.drained link.old) (K.written sink.old) (K.written sink.new) old part)) }
    ensures cut { OnErr result (Moves (L.told link.old) (L.told link.new) (λ old part. IsFor old.config client.old.config →
        IsCutSession commands.now (L.drained link.old) (K.written sink.old) (K.written sink.new) old part)) }
    ensures wrote { OnOk result (Wrote (client.old.config.tries * client.old.config.wait) commands.now (record { handed = L.handed link.old; clock = L.clock link.old; faults = L.faults link.old }) (record { handed = L.handed link.new; clock = L.clock link.new; faults = L.faults link.new }) (L.drained link.old) (L.drained link.new) (K.written sink.old) (K.written sink.new)) }
    ensures wrote_prefix { OnErr result (WrotePrefix (client.old.config.tries * client.old.config.wait) commands.now (record { handed = L.handed link.old; clock = L.clock link.old; faults = L.faults link.old }) (record { handed = L.handed link.new; clock = L.clock link.new; faults = L.faults link.new }) (L.drained link.old) (L.drained link.new) (K.written sink.old) (K.written sink.new)) }
    ensures lasts { Lasts most_session_ticks (L.told link.old) (L.told link.new) }
    ensures fault { IsErrOf result SessionError.SinkFault → Rose (K.faults sink.old) (K.faults sink.new) }
    ensures faults { L.faults link.old ≤ L.faults link.new }
    ensures calm { OnOk result (K.faults sink.new ≡ K.faults sink.old) }
{
    for command in commands {
        let text = text_of(alloc, client, link, command)?;
        match write_all(sink, text.as_slice()) {
            Ok(()) => {}
            Err(Failed) => return Err(SessionError::SinkFault),
        }
    }
    Ok(())
}

/// Does the commands of a client that was just switched on, and writes the transcript.
pub fn session<L: Link, K: Sink>(
    alloc: Global,
    link: &mut L,
    config: ClientConfig,
    commands: &CommandList,
    sink: &mut K,
) -> Result<(), SessionError>
    requires config { IsClientConfig config }
    requires commands { All IsCommand commands.now }
    // Over a link that tells, each command has its cause in what happened, and the output is the transcript of it.
    ensures done { OnOk result (Moves (L.told link.old) (L.told link.new) (λ old part. IsFor old.config config →
        IsSession commands.now (L.drained link.old) (K.written sink.old) (K.written sink.new) old part)) }
    // After a refusal the output is a prefix of such a transcript, of the first so many commands.
    ensures cut { OnErr result (Moves (L.told link.old) (L.told link.new) (λ old part. IsFor old.config config →
        IsCutSession commands.now (L.drained link.old) (K.written sink.old) (K.written sink.new) old part)) }
    // Over every link: one answer for each command, each with what it needs, and the sink gained what `drain` gave and the answer lines.
    ensures wrote { OnOk result (Wrote (config.tries * config.wait) commands.now (record { handed = L.handed link.old; clock = L.clock link.old; faults = L.faults link.old }) (record { handed = L.handed link.new; clock = L.clock link.new; faults = L.faults link.new }) (L.drained link.old) (L.drained link.new) (K.written sink.old) (K.written sink.new)) }
    // After a refusal it gained a prefix of such a text, of the first so many commands.
    ensures wrote_prefix { OnErr result (WrotePrefix (config.tries * config.wait) commands.now (record { handed = L.handed link.old; clock = L.clock link.old; faults = L.faults link.old }) (record { handed = L.handed link.new; clock = L.clock link.new; faults = L.faults link.new }) (L.drained link.old) (L.drained link.new) (K.written sink.old) (K.written sink.new)) }
    // Whatever comes of it, a link that tells goes on telling.
    ensures lasts { Lasts most_session_ticks (L.told link.old) (L.told link.new) }
    ensures fault { IsErrOf result SessionError.SinkFault → Rose (K.faults sink.old) (K.faults sink.new) }
    ensures faults { L.faults link.old ≤ L.faults link.new }
    ensures calm { OnOk result (K.faults sink.new ≡ K.faults sink.old) }
{
    let mut client = Client::new(alloc, config)?;
    do_all(alloc, &mut client, link, commands.as_slice(), sink)
}
