//! The events of a script: what strangers send, and which calls fail.
ghost use Rattle.std.specs.Prelude.{◌≡◌, IfOk};
ghost use Rattle.std.specs.List.{flat_map, list_any};
ghost use Rattle.sd_config.specs.Events.{fate_in};
ghost use Rattle.sd_config.specs.Plan.{plan_of};
ghost use Rattle.sd_segment.specs.Flight.{delays_of};
ghost use Rattle.sd_segment.specs.Failing.{names_call};
ghost use Rattle.sd_segment.specs.Strays.{stray_at};

use crate::faults::{NamedCalls, named_calls};
use crate::places::fate_places;
use crate::stray_lines::{packets_of, stray_places};
use sd_config::{Events, Fate};
use sd_outside::NoMemory;
use sd_server::PacketList;
use std::alloc::Global;
use std::collections::BTreeMap;
use std::marker::Model;

/// The events of a script. The fate of a packet, whether strangers send at a tick, and whether a call fails, are found without a
/// walk over the lines.
#[derive(Drop)]
pub struct EventBook {
    events: Events,
    /// The places of the lines of strangers, by their ticks.
    lines: BTreeMap<u64, Vec<usize>>,
    named: NamedCalls,
    /// The places of the fates, by the ids of the packets.
    places: BTreeMap<u64, usize>,
}

impl Model for EventBook {
    ghost use Rattle.sd_config.specs.declared.events.Events.{Events};
    ghost use Rattle.sd_segment.specs.Strays.{ArePlaces};
    ghost use Rattle.sd_segment.specs.Failing.{AreNamed};
    ghost use Rattle.sd_segment.specs.Flight.{AreFates};

    ghost Value = { Events };

    ghost view = { λ book. book.events };

    ghost invariant = { λ book. ArePlaces book.lines book.events.strangers × AreNamed book.named.sends book.named.receives book.events.faults × AreFates book.places book.events.fates };
}

impl EventBook {
    pub fn over(alloc: Global, events: Events) -> Result<EventBook, NoMemory>
        ensures { IfOk result (λ book. book ≡ events) }
    {
        let lines = stray_places(alloc, events.strangers.as_slice())?;
        let named = named_calls(alloc, events.faults.as_slice())?;
        let places = fate_places(alloc, events.fates.as_slice())?;
        Ok(EventBook {
            events,
            lines,
            named,
            places,
        })
    }

    pub fn fates(&self) -> &[Fate]
        ensures { result.now ≡ self.now.fates }
    {
        self.events.fates.as_slice()
    }

    /// The place of the fate of the packet with this id.
    pub fn place_of(&self, id: usize) -> Option<usize>
        ensures { delays_of self.now.fates result ≡ fate_in self.now.fates id }
    {
        let id = id as u64;
        self.places.get(&id).copied()
    }

    /// Whether the client's send of the packet with this id is to fail.
    pub fn fails_send(&self, id: usize) -> bool
        ensures { result ≡ (plan_of self.now).sends id }
    {
        let id = id as u64;
        self.named.sends.contains(&id)
    }

    /// Whether this receive of the client is to fail, counted from 0.
    pub fn fails_call(&self, call: u64) -> bool
        ensures { result ≡ list_any (names_call call) self.now.faults }
    {
        self.named.receives.contains(&call)
    }

    /// What strangers send at a tick, in the order of the lines.
    pub fn strays_at(&self, alloc: Global, tick: u64) -> Result<PacketList, NoMemory>
        ensures { IfOk result (λ list. list ≡ flat_map (stray_at tick) self.now.strangers) }
    {
        match self.lines.get(&tick) {
            None => Ok(PacketList::empty(alloc)),
            Some(places) => Ok(packets_of(
                alloc,
                self.events.strangers.as_slice(),
                places.as_slice(),
            )?),
        }
    }
}
