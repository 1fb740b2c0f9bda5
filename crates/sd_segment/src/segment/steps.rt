//! Each single step of a segment.
ghost use Rattle.std.specs.Prelude.{◌≡◌, ◌+◌, ◌-◌, ◌^◌, ◌<◌, ◌≤◌, [], ◌∷◌, length, drop, min, max, OnOk, OnErr, IfOk, IsTrue, Some, None, true, false, slice_get};
ghost use Rattle.sd_link.specs.Link.{last_tick};
ghost use Rattle.sd_link.specs.Steps.{Send, Serve, Get};
ghost use Rattle.sd_segment.specs.Segment.{Rests};
ghost use Rattle.std.specs.List.{list_any};
ghost use Rattle.sd_outside.specs.Causes.{Rose};
ghost use Rattle.sd_services.specs.Sessions.{is_due};
ghost use Rattle.sd_segment.specs.Passing.{Passes, Advances, TakesTurns, Fails, FailsToSend};
ghost use Rattle.sd_segment.specs.Failing.{names_call};
ghost use Rattle.sd_config.specs.Plan.{plan_of};

use crate::due::due_ids;
use crate::ends::End;
use crate::flown::{Flown, Kept, Origin, What};
use crate::pushing::{
    next_id, push_both, push_failed_send, push_packets, push_served, push_strays, push_turns,
    reserve_both, room_for,
};
use crate::segment::Segment;
use sd_outside::{NoMemory, Packet};

impl Segment {
    pub(crate) fn next_to_server(&self) -> Option<usize>
        ensures { result ≡ slice_get self.now.to_server 0 }
    {
        self.to_server.next()
    }

    pub(crate) fn next_to_client(&self) -> Option<usize>
        ensures { result ≡ slice_get self.now.to_client 0 }
    {
        self.to_client.next()
    }

    /// Whether the send of the next packet is to fail.
    pub(crate) fn send_fails(&self) -> bool
        ensures { result ≡ (plan_of self.now.events).sends (length self.now.flight) }
    {
        self.events.fails_send(self.flight.len())
    }

    /// Whether the next receive is to fail.
    pub(crate) fn call_fails(&self) -> bool
        ensures { result ≡ list_any (names_call self.now.calls) self.now.events.faults }
    {
        self.events.fails_call(self.calls)
    }

    /// A packet of the client goes into flight, and its send fails.
    pub(crate) fn put_failing(&mut self, packet: Packet) -> Result<(), NoMemory>
        requires ready { Rests self.old }
        requires named { (plan_of self.old.events).sends (length self.old.flight) ≡ true }
        ensures ok { OnOk result (FailsToSend self.old self.new packet) }
        ensures err { OnErr result (self.new ≡ self.old) }
        ensures tick { self.new.tick ≡ self.old.tick }
        ensures handed { self.new.handed ≡ self.old.handed }
        ensures calls { self.new.calls ≡ self.old.calls }
        ensures rose { OnOk result (Rose self.old.faults self.new.faults) }
        ensures later { self.old.faults ≤ self.new.faults }
    {
        let id = next_id(self.flight.as_slice())?;
        let fate = self.events.place_of(id);
        reserve_both(&mut self.flight, &mut self.kept, 2)?;
        let tick = self.tick;
        let flown = Flown {
            from: Origin::Client,
            tick,
            packet,
            fate,
        };
        push_failed_send(&mut self.flight, &mut self.kept, flown, id);
        self.faults = self.faults.saturating_add(1);
        Ok(())
    }

    /// A receive is called that no line names.
    pub(crate) fn count_call(&mut self)
        ensures new { self.new ≡ record self.old { calls = min (self.old.calls + 1) (2 ^ 64 - 1) } }
    {
        self.calls = self.calls.saturating_add(1);
    }

    /// A receive that a line names fails.
    pub(crate) fn fail_call(&mut self) -> Result<(), NoMemory>
        requires ready { Rests self.old }
        requires named { list_any (names_call self.old.calls) self.old.events.faults ≡ true }
        ensures ok { OnOk result (Fails self.old self.new) }
        ensures err { OnErr result (self.new ≡ self.old) }
        ensures tick { self.new.tick ≡ self.old.tick }
        ensures handed { self.new.handed ≡ self.old.handed }
        ensures calls { OnOk result (self.new.calls ≡ min (self.old.calls + 1) (2 ^ 64 - 1)) }
        ensures rose { OnOk result (Rose self.old.faults self.new.faults) }
        ensures later { self.old.faults ≤ self.new.faults }
    {
        let failure = Kept {
            tick: self.tick,
            what: What::Failed,
        };
        self.kept.push(failure)?;
        self.faults = self.faults.saturating_add(1);
        self.calls = self.calls.saturating_add(1);
        Ok(())
    }

    /// A packet of the client goes into flight.
    pub(crate) fn put(&mut self, packet: Packet) -> Result<(), NoMemory>
        requires ready { Rests self.old }
        requires calm { (plan_of self.old.events).sends (length self.old.flight) ≡ false }
        ensures ok { OnOk result (Passes self.old self.new (Send packet ∷ [])) }
        ensures err { OnErr result (self.new ≡ self.old) }
        ensures tick { self.new.tick ≡ self.old.tick }
        ensures handed { self.new.handed ≡ self.old.handed }
        ensures calls { self.new.calls ≡ self.old.calls }
    {
        let id = next_id(self.flight.as_slice())?;
        let fate = self.events.place_of(id);
        let tick = self.tick;
        let flown = Flown {
            from: Origin::Client,
            tick,
            packet,
            fate,
        };
        let what = What::Sent { id };
        push_both(&mut self.flight, &mut self.kept, flown, Kept { tick, what })?;
        Ok(())
    }

    /// The next packet that is due to the server comes to it.
    pub(crate) fn serve(&mut self, id: usize) -> Result<(), NoMemory>
        requires next { slice_get self.old.to_server 0 ≡ Some id }
        ensures ok { OnOk result (Passes self.old self.new (Serve id ∷ [])) }
        ensures left { OnOk result (self.new.to_server ≡ drop 1 self.old.to_server) }
        ensures err { OnErr result (self.new ≡ self.old) }
        ensures tick { self.new.tick ≡ self.old.tick }
        ensures handed { self.new.handed ≡ self.old.handed }
        ensures calls { self.new.calls ≡ self.old.calls }
    {
        let first = next_id(self.flight.as_slice())?;
        let fate = self.events.place_of(first);
        reserve_both(&mut self.flight, &mut self.kept, 1)?;
        let tick = self.tick;
        let flight = self.flight.as_slice();
        let packets = self.server.serve(tick, &flight[id].packet)?;
        push_served(
            &mut self.flight,
            &mut self.kept,
            packets,
            tick,
            id,
            first,
            fate,
        );
        self.to_server.take_next();
        Ok(())
    }

    /// Whether the block of a session is due.
    pub(crate) fn is_due(&self) -> bool
        ensures { result ≡ list_any (is_due self.now.config self.now.tick) self.now.server.sessions }
    {
        self.server.is_due(self.tick)
    }

    /// Whether the server is done with this tick.
    pub(crate) fn is_at_rest(&self) -> bool
        ensures { IsTrue result → Rests self.now }
    {
        match self.next_to_server() {
            Some(_) => false,
            None => !self.is_due(),
        }
    }

    /// Each session whose present block is due sends it again, or ends.
    pub(crate) fn take_turns(&mut self) -> Result<(), NoMemory>
        requires served { self.old.to_server ≡ [] }
        ensures ok { OnOk result (TakesTurns self.old self.new) }
        ensures rests { OnOk result (Rests self.new) }
        ensures err { OnErr result (self.new ≡ self.old) }
        ensures tick { self.new.tick ≡ self.old.tick }
        ensures handed { self.new.handed ≡ self.old.handed }
        ensures calls { self.new.calls ≡ self.old.calls }
    {
        let turns = self.server.due(self.tick)?;
        let turns = turns.as_slice();
        let first = room_for(self.flight.as_slice(), turns.len())?;
        reserve_both(&mut self.flight, &mut self.kept, turns.len())?;
        let tick = self.tick;
        let packets = self.server.tick(tick)?;
        push_turns(&mut self.kept, turns, tick, first);
        push_packets(
            &mut self.flight,
            &self.events,
            Origin::Server,
            tick,
            packets,
        );
        Ok(())
    }

    /// A receive would need a tick past the last one.
    pub(crate) fn fail(&mut self) -> Result<(), NoMemory>
        requires late { self.old.tick ≡ last_tick }
        requires ready { Rests self.old }
        ensures ok { OnOk result (Fails self.old self.new) }
        ensures rests { OnOk result (Rests self.new) }
        ensures err { OnErr result (self.new ≡ self.old) }
        ensures tick { self.new.tick ≡ self.old.tick }
        ensures handed { self.new.handed ≡ self.old.handed }
        ensures calls { self.new.calls ≡ self.old.calls }
        ensures rose { OnOk result (Rose self.old.faults self.new.faults) }
        ensures later { self.old.faults ≤ self.new.faults }
    {
        let tick = self.tick;
        let what = What::Failed;
        self.kept.push(Kept { tick, what })?;
        self.faults = self.faults.saturating_add(1);
        Ok(())
    }

    /// The next packet that is due to the client comes to it.
    pub(crate) fn get(&mut self, id: usize) -> Result<Packet, NoMemory>
        requires ready { Rests self.old }
        requires next { slice_get self.old.to_client 0 ≡ Some id }
        ensures ok { IfOk result (λ packet. Passes self.old self.new (Get id packet ∷ [])) }
        ensures rests { OnOk result (Rests self.new) }
        ensures err { OnErr result (self.new ≡ self.old) }
        ensures tick { self.new.tick ≡ self.old.tick }
        ensures handed { OnOk result (self.new.handed ≡ max self.old.handed (min (self.old.handed + 1) (2 ^ 64 - 1))) }
        ensures calls { self.new.calls ≡ self.old.calls }
    {
        let flight = self.flight.as_slice();
        let packet = flight[id].packet.copy()?;
        let tick = self.tick;
        let what = What::Got { id };
        self.kept.push(Kept { tick, what })?;
        self.to_client.take_next();
        self.handed = self.handed.saturating_add(1);
        Ok(packet)
    }

    /// Time goes on by one tick, strangers send what they send at it, and what is due at it is found.
    pub(crate) fn pass(&mut self) -> Result<(), NoMemory>
        requires early { self.old.tick < last_tick }
        requires ready { Rests self.old }
        requires got { self.old.to_client ≡ [] }
        ensures ok { OnOk result (Advances self.old self.new) }
        ensures tick { OnOk result (self.new.tick ≡ self.old.tick + 1) }
        ensures err { OnErr result (self.new ≡ self.old) }
        ensures handed { self.new.handed ≡ self.old.handed }
        ensures calls { self.new.calls ≡ self.old.calls }
    {
        let tick = self.tick + 1;
        let fates = self.events.fates();
        let flight = self.flight.as_slice();
        let to_server = due_ids(
            self.alloc,
            self.server.config(),
            End::Server,
            fates,
            flight,
            tick,
        )?;
        let to_client = due_ids(
            self.alloc,
            self.server.config(),
            End::Client,
            fates,
            flight,
            tick,
        )?;
        let strays = self.events.strays_at(self.alloc, tick)?;
        let count = strays.as_slice().len();
        let first = room_for(flight, count)?;
        reserve_both(&mut self.flight, &mut self.kept, count)?;
        push_strays(&mut self.kept, count, tick, first);
        push_packets(
            &mut self.flight,
            &self.events,
            Origin::Stranger,
            tick,
            strays,
        );
        self.tick = tick;
        self.to_server = to_server;
        self.to_client = to_client;
        Ok(())
    }
}
