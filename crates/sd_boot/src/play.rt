//! Playing a script: the real client and the real server over the virtual segment.
ghost use Rattle.std.specs.Prelude.{◌≡◌, [], OnOk, OnErr, IfOk, IsErrOf};
ghost use Rattle.sd_outside.specs.Causes.{Rose};
ghost use Rattle.std.specs.List.{All};
ghost use Rattle.sd_config.specs.Config.{IsConfig, IsClientConfig, IsFor};
ghost use Rattle.sd_config.specs.Commands.{IsCommand};
ghost use Rattle.sd_config.specs.Events.{IsEvents};
ghost use Rattle.sd_script.specs.Rules.{KeepsRules};
ghost use Rattle.sd_segment.specs.Segment.{history_of, text_drained};
ghost use Rattle.sd_claims.specs.Headline.{Plays, PlaysPrefix};
ghost use Rattle.sd_streams.specs.Writing.{GainsSome};
ghost use Rattle.sd_boot.specs.Play.{IsNew, script_of};

use crate::status::{Ended, Stop};
use sd_boot_chain::{SessionError, session};
use sd_config::{ClientConfig, CommandList, Config, Events};
use sd_outside::{NoMemory, Sink};
use sd_script::Script;
use sd_segment::{Segment, new_disk};
use std::alloc::Global;

/// The network of a script, in which nothing happened, with its server over a disk that holds the files of the start.
fn network(alloc: Global, config: Config, events: Events) -> Result<Segment, NoMemory>
    requires config { IsConfig config }
    requires events { IsEvents config events }
    ensures told { IfOk result (λ segment. history_of segment ≡ record { config = config; events = events; steps = [] }) }
    ensures drained { IfOk result (λ segment. text_drained segment ≡ []) }
{
    let disk = new_disk(alloc, &config.swap)?;
    Ok(Segment::new(alloc, config, events, disk)?)
}

/// Does the commands over a network in which nothing happened yet, and writes their transcript.
fn commanded<K: Sink>(
    alloc: Global,
    link: &mut Segment,
    client: ClientConfig,
    commands: &CommandList,
    sink: &mut K,
) -> Result<Ended, Stop>
    requires config { IsClientConfig client }
    requires commands { All IsCommand commands.now }
    requires new { IsNew client link.old }
    ensures done { OnOk result (GainsSome (K.written sink.old) (K.written sink.new) (Plays (script_of (history_of link.old) commands.now))) }
    ensures cut { OnErr result (GainsSome (K.written sink.old) (K.written sink.new) (PlaysPrefix (script_of (history_of link.old) commands.now))) }
    ensures ended { IfOk result (λ ended. ended ≡ Ended.Done) }
    ensures fault { IsErrOf result Stop.SinkFault → Rose (K.faults sink.old) (K.faults sink.new) }
    ensures source { IsErrOf result Stop.SourceFault → ⊥ }
    ensures calm { OnOk result (K.faults sink.new ≡ K.faults sink.old) }
{
    let done = session(alloc, link, client, commands, sink);
    link.facts();
    match done {
        Ok(()) => Ok(Ended::Done),
        Err(SessionError::SinkFault) => Err(Stop::SinkFault),
        Err(SessionError::NoMemory) => Err(Stop::NoMemory),
    }
}

/// Does the commands over the network of this configuration and these events, from its start on.
fn over_network<K: Sink>(
    alloc: Global,
    config: Config,
    events: Events,
    client: ClientConfig,
    commands: &CommandList,
    sink: &mut K,
) -> Result<Ended, Stop>
    requires config { IsConfig config }
    requires events { IsEvents config events }
    requires client { IsClientConfig client }
    requires same { IsFor config client }
    requires commands { All IsCommand commands.now }
    ensures done { OnOk result (GainsSome (K.written sink.old) (K.written sink.new) (Plays (record { config = config; events = events; commands = commands.now }))) }
    ensures cut { OnErr result (GainsSome (K.written sink.old) (K.written sink.new) (PlaysPrefix (record { config = config; events = events; commands = commands.now }))) }
    ensures ended { IfOk result (λ ended. ended ≡ Ended.Done) }
    ensures fault { IsErrOf result Stop.SinkFault → Rose (K.faults sink.old) (K.faults sink.new) }
    ensures source { IsErrOf result Stop.SourceFault → ⊥ }
    ensures calm { OnOk result (K.faults sink.new ≡ K.faults sink.old) }
{
    let mut link = network(alloc, config, events)?;
    commanded(alloc, &mut link, client, commands, sink)
}

/// Does the commands of a script from its start on, and writes their transcript.
pub(crate) fn play<K: Sink>(alloc: Global, script: Script, sink: &mut K) -> Result<Ended, Stop>
    requires { KeepsRules script }
    ensures done { OnOk result (GainsSome (K.written sink.old) (K.written sink.new) (Plays script)) }
    ensures cut { OnErr result (GainsSome (K.written sink.old) (K.written sink.new) (PlaysPrefix script)) }
    ensures ended { IfOk result (λ ended. ended ≡ Ended.Done) }
    ensures fault { IsErrOf result Stop.SinkFault → Rose (K.faults sink.old) (K.faults sink.new) }
    ensures source { IsErrOf result Stop.SourceFault → ⊥ }
    ensures calm { OnOk result (K.faults sink.new ≡ K.faults sink.old) }
{
    let client = script.config.client()?;
    let commands = script.commands;
    over_network(alloc, script.config, script.events, client, &commands, sink)
}
