//! The network between the client and the server: what it holds, and what always holds of it.
ghost use Rattle.std.specs.Prelude.{◌≡◌, ◌⊎◌, ◌+◌, ◌-◌, ◌^◌, ◌≤◌, min, [], Some, IfOk, IsTrue, IsFalse};
ghost use Rattle.std.specs.Option.{option_and_then};
ghost use Rattle.sd_config.specs.Events.{IsEvents};
ghost use Rattle.sd_config.specs.Plan.{plan_of};
ghost use Rattle.sd_services.specs.Part.{swap_files};
ghost use Rattle.sd_stable_disk.specs.Image.{held};
ghost use Rattle.sd_outside.specs.Streams.{IsPrefixOf};
ghost use Rattle.sd_link.specs.Lawful.{IsOrderly, FailsAsPlanned, named_sends};
ghost use Rattle.sd_link.specs.Link.{last_tick, IsReached, NothingWaits, IsAtRest};
ghost use Rattle.sd_link.specs.Steps.{world_of, whole_record};
ghost use Rattle.sd_link.specs.Printing.{record_text};
ghost use Rattle.sd_link.specs.Parts.{fails_in};
ghost use Rattle.sd_link.specs.World.{start};
ghost use Rattle.sd_segment.specs.Failing.{early_fails};
ghost use Rattle.sd_config.specs.Config.{IsConfig};
ghost use Rattle.sd_segment.specs.Segment.{history_of, text_drained, Rests};

mod link;
mod steps;
mod waiting;

use crate::calm::CalmServer;
use crate::flown::{Flown, Kept};
use crate::queue::Queue;
use crate::strays::EventBook;
use sd_config::{Config, Events};
use sd_outside::{CalmDisk, Disk, NoMemory};
use std::alloc::Global;
use std::marker::Model;

/// The network, with all that happened in it since tick 0. It is the client's link.
///
/// At each tick the server is given first what is due to it, then its sessions send again what is due, and then the client gets
/// what is due and may send. After a
/// `recv` that found no memory the rest of that tick is lost, so every later `send` and `recv` answers `NoMemory`.
#[derive(Drop)]
pub struct Segment {
    alloc: Global,
    server: CalmServer,
    events: EventBook,
    /// Every packet that was sent, by its id.
    flight: Vec<Flown>,
    /// Everything that happened, in order.
    kept: Vec<Kept>,
    tick: u64,
    /// What is still to be given to the server at this tick.
    to_server: Queue,
    /// What is still to be handed to the client at this tick.
    to_client: Queue,
    /// A receive found no memory.
    broken: bool,
    /// How much of what happened was drained.
    drained: usize,
    faults: u64,
    handed: u64,
    /// How many receives were called.
    calls: u64,
}

impl Model for Segment {
    ghost use Rattle.sd_segment.specs.Segment.{SegmentView, IsSound};

    ghost Value = { SegmentView };

    ghost use Rattle.sd_segment.specs.Inside.{view_of};

    ghost view = { view_of };

    ghost invariant = { λ s. IsSound (view_of s) };
}

impl Segment {
    /// A network at tick 0, in which nothing was sent, with its server over a disk that holds the files of the start: the swap
    /// file's zeros, or no file where there is no swap line. Such a disk is never refused for what it holds.
    pub fn new(
        alloc: Global,
        config: Config,
        events: Events,
        disk: CalmDisk,
    ) -> Result<Segment, NoMemory>
        requires config { IsConfig config }
        requires events { IsEvents config events }
        requires holds { option_and_then held (⟦<CalmDisk as Disk>⟧.seen disk) ≡ Some (swap_files config.swap) }
        ensures told { IfOk result (λ segment. history_of segment ≡ record { config = config; events = events; steps = [] }) }
        ensures drained { IfOk result (λ segment. text_drained segment ≡ []) }
        ensures clock { IfOk result (λ segment. segment.tick ≡ 0) }
        ensures faults { IfOk result (λ segment. segment.faults ≡ 0) }
        ensures handed { IfOk result (λ segment. segment.handed ≡ 0) }
        ensures calls { IfOk result (λ segment. segment.calls ≡ 0) }
        ensures whole { IfOk result (λ segment. IsFalse segment.broken) }
    {
        let server = match CalmServer::open(alloc, config, disk) {
            Ok(server) => server,
            // It is refused for want of memory alone.
            Err(_) => return Err(NoMemory),
        };
        let events = EventBook::over(alloc, events)?;
        Ok(Segment {
            alloc,
            server,
            events,
            flight: Vec::new(alloc),
            kept: Vec::new(alloc),
            tick: 0,
            to_server: Queue::empty(alloc),
            to_client: Queue::empty(alloc),
            broken: false,
            drained: 0,
            faults: 0,
            handed: 0,
            calls: 0,
        })
    }

    /// What holds of every segment, whatever calls were made: it does nothing.
    pub fn facts(&self)
        ensures orderly { let h = history_of self.now in IsOrderly h.config (plan_of h.events) h.steps }
        // A receive that no line names fails where it would need a tick past the last one, and nowhere else.
        ensures receives { (let h = history_of self.now in FailsAsPlanned h.config (plan_of h.events) h.steps) ⊎ (self.now.tick ≡ last_tick) }
        ensures early { let h = history_of self.now in early_fails h.config (start h.config) h.steps ≤ named_sends (plan_of h.events).sends h.config (start h.config) h.steps + (plan_of h.events).receives }
        ensures world { IsReached (history_of self.now) }
        ensures rests { Rests self.now → IsAtRest (history_of self.now) }
        ensures clock { (world_of (history_of self.now)).tick ≡ self.now.tick }
        ensures drained { IsPrefixOf (text_drained self.now) (record_text (whole_record (history_of self.now))) }

        // Each failure is counted, and nothing else.
        ensures faults { self.now.faults ≡ min (fails_in (history_of self.now).steps) (2 ^ 64 - 1) }
    {
        let _tick = self.tick;
    }

    pub(crate) fn tick(&self) -> u64
        ensures value { result ≡ self.now.tick }
        ensures stood { (world_of (history_of self.now)).tick ≡ self.now.tick }
        ensures bound { result ≤ last_tick }
        ensures bounded { IsReached (history_of self.now) }
        ensures prefix { IsPrefixOf (text_drained self.now) (record_text (whole_record (history_of self.now))) }
        // Where nothing is still to come to the client, all that is due to it has come.
        ensures settled { self.now.to_client ≡ [] → NothingWaits (history_of self.now) }
    {
        self.tick
    }

    /// Whether the client may send and receive: no receive found no memory, and the server is done with this tick.
    pub(crate) fn is_ready(&self) -> bool
        ensures ready { IsTrue result → Rests self.now }
        ensures whole { IsTrue self.now.broken → IsFalse result }
        ensures bounded { IsReached (history_of self.now) }
    {
        !self.broken && self.is_at_rest()
    }
}
