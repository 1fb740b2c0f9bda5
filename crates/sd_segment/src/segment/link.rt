//! A segment as the client's link.
ghost use Rattle.std.specs.Prelude.{◌≡◌, ◌⊎◌, ◌≤◌, ◌<◌, ◌+◌, ◌-◌, ◌^◌, ◌++◌, ◌∷◌, [], min, length, true, false, IsTrue, IsErr, OnOk, OnErr, Some, None, Ok, Err};
ghost use Rattle.std.specs.List.{list_any};
ghost use Rattle.sd_config.specs.Plan.{plan_of};
ghost use Rattle.sd_link.specs.Link.{Moves, Sends, Receives, LinkCause, Counts, last_tick, Drains, IsReached, IsAtRest};
ghost use Rattle.sd_link.specs.Steps.{Send, Fail, whole_record};
ghost use Rattle.sd_link.specs.Printing.{record_text};
ghost use Rattle.sd_link.specs.declared.link.LinkError.TheVariants as refused;
ghost use Rattle.sd_segment.specs.Segment.{history_of, text_drained, Rests};
ghost use Rattle.sd_segment.specs.Failing.{names_call};

use crate::printing::lines_of;
use crate::segment::Segment;
use sd_link::{Link, LinkError};
use sd_outside::{ByteList, NoMemory, Packet};

impl Link for Segment {
    ghost use Rattle.std.specs.Prelude.{Some};
    ghost use Rattle.sd_segment.specs.Segment.{history_of, text_drained};

    ghost told = { λ s. Some (history_of s) };

    ghost clock = { λ s. s.tick };

    ghost faults = { λ s. s.faults };

    ghost handed = { λ s. s.handed };

    ghost drained = { λ s. text_drained s };

    fn now(&mut self) -> u64 {
        self.tick()
    }

    /// Sends a packet. It fails exactly where a line names the packet's id, which goes out all the same. Without memory nothing changes.
    fn send(&mut self, packet: &Packet) -> Result<(), LinkError>
        ensures told { Moves (Some (history_of self.old)) (Some (history_of self.new)) (Sends packet.now result) }
        ensures world { IsReached (history_of self.new) }
        ensures later { self.old.tick ≤ self.new.tick }
        ensures cause { LinkCause self.old.faults self.new.faults result }
        ensures handed { self.new.handed ≡ self.old.handed }
        ensures drained { text_drained self.new ≡ text_drained self.old }

        ensures calm { OnOk result (((plan_of self.old.events).sends (length self.old.flight) ≡ false) × (self.new.faults ≡ self.old.faults)) }
        ensures failed { result ≡ Err refused.Failed → (plan_of self.old.events).sends (length self.old.flight) ≡ true }
        ensures out { result ≡ Err refused.Failed → (history_of self.new).steps ≡ (history_of self.old).steps ++ (Send packet.now ∷ Fail ∷ []) }
        ensures err { result ≡ Err refused.NoMemory → self.new ≡ self.old }
        ensures calls { self.new.calls ≡ self.old.calls }
        ensures stopped { IsTrue self.old.broken → result ≡ Err refused.NoMemory }
    {
        if !self.is_ready() {
            return Err(LinkError::NoMemory);
        }
        match packet.copy() {
            Err(NoMemory) => Err(LinkError::NoMemory),
            Ok(packet) => self.send_copy(packet),
        }
    }

    /// Waits for a packet, until this tick at most. A receive that a line names fails at once.
    fn recv(&mut self, until: u64) -> Result<Option<Packet>, LinkError>
        ensures told { Moves (Some (history_of self.old)) (Some (history_of self.new)) (Receives until result) }
        ensures world { IsReached (history_of self.new) }
        ensures later { self.old.tick ≤ self.new.tick }
        ensures reached { result ≡ Ok None → until ≤ self.new.tick }
        ensures cause { LinkCause self.old.faults self.new.faults result }
        ensures handed { Counts self.old.handed self.new.handed result }
        ensures drained { text_drained self.new ≡ text_drained self.old }

        // It fails where a line names it, or where it would need a tick past the last one, and counts no other fault.
        ensures failed { result ≡ Err refused.Failed → (list_any (names_call self.old.calls) self.old.events.faults ≡ true) ⊎ ((self.new.tick ≡ last_tick) × (last_tick < until)) }
        ensures named { OnOk result (list_any (names_call self.old.calls) self.old.events.faults ≡ false) }
        // One that a line names fails before anything else happens.
        ensures at_once { list_any (names_call self.old.calls) self.old.events.faults ≡ true → result ≡ Err refused.Failed → (history_of self.new).steps ≡ (history_of self.old).steps ++ (Fail ∷ []) }
        ensures calm { (result ≡ Err refused.Failed) ⊎ (self.new.faults ≡ self.old.faults) }

        ensures calls { (result ≡ Err refused.NoMemory) ⊎ (self.new.calls ≡ min (self.old.calls + 1) (2 ^ 64 - 1)) }

        // Whatever came of the waiting, the server did all that is due to it at that tick.
        ensures rests { OnOk result (Rests self.new) }

        // Once it found no memory, nothing is sent and nothing is received.
        ensures stops { result ≡ Err refused.NoMemory → IsTrue self.new.broken }
        ensures stopped { IsTrue self.old.broken → (result ≡ Err refused.NoMemory) × (history_of self.new ≡ history_of self.old) }
    {
        if !self.is_ready() {
            self.stop();
            return Err(LinkError::NoMemory);
        }
        match self.receive_call(until) {
            Ok(packet) => Ok(packet),
            Err(LinkError::Failed) => Err(LinkError::Failed),
            Err(LinkError::NoMemory) => {
                self.stop();
                Err(LinkError::NoMemory)
            }
        }
    }

    /// Appends the lines of the record since the last drain. A refused call changes nothing. Once a receive found no memory, the
    /// rest of its tick is lost, and no record is whole.
    fn drain(&mut self, text: &mut ByteList) -> Result<(), NoMemory>
        ensures told { history_of self.new ≡ history_of self.old }
        ensures text { OnOk result (Drains (text_drained self.old) (text_drained self.new) text.old text.new) }
        ensures err { OnErr result (text_drained self.new ≡ text_drained self.old) }
        ensures whole { OnOk result (text_drained self.new ≡ record_text (whole_record (history_of self.new))) }
        ensures rests { OnOk result (IsAtRest (history_of self.new)) }
        ensures world { IsReached (history_of self.new) }
        ensures clock { self.new.tick ≡ self.old.tick }
        ensures faults { self.new.faults ≡ self.old.faults }
        ensures handed { self.new.handed ≡ self.old.handed }

        ensures stopped { IsTrue self.old.broken → IsErr result }
        ensures refused { OnErr result ((self.new ≡ self.old) × (text.new ≡ text.old)) }
    {
        if !self.is_ready() {
            return Err(NoMemory);
        }
        self.append(text)
    }
}

impl Segment {
    /// Sends a packet, once the server is done with this tick.
    fn send_copy(&mut self, packet: Packet) -> Result<(), LinkError>
        requires ready { Rests self.old }
        ensures told { Moves (Some (history_of self.old)) (Some (history_of self.new)) (Sends packet result) }
        ensures world { IsReached (history_of self.old) → IsReached (history_of self.new) }
        ensures later { self.old.tick ≤ self.new.tick }
        ensures cause { LinkCause self.old.faults self.new.faults result }
        ensures handed { self.new.handed ≡ self.old.handed }
        ensures drained { text_drained self.new ≡ text_drained self.old }
        ensures calm { OnOk result (((plan_of self.old.events).sends (length self.old.flight) ≡ false) × (self.new.faults ≡ self.old.faults)) }
        ensures failed { result ≡ Err refused.Failed → (plan_of self.old.events).sends (length self.old.flight) ≡ true }
        ensures out { result ≡ Err refused.Failed → (history_of self.new).steps ≡ (history_of self.old).steps ++ (Send packet ∷ Fail ∷ []) }
        ensures err { result ≡ Err refused.NoMemory → self.new ≡ self.old }
        ensures calls { self.new.calls ≡ self.old.calls }
    {
        if self.send_fails() {
            return match self.put_failing(packet) {
                Err(NoMemory) => Err(LinkError::NoMemory),
                Ok(()) => Err(LinkError::Failed),
            };
        }
        match self.put(packet) {
            Err(NoMemory) => Err(LinkError::NoMemory),
            Ok(()) => Ok(()),
        }
    }

    /// Appends the lines of the record since the last drain, once the server is done with this tick.
    fn append(&mut self, text: &mut ByteList) -> Result<(), NoMemory>
        requires ready { Rests self.old }
        ensures told { history_of self.new ≡ history_of self.old }
        ensures text { OnOk result (Drains (text_drained self.old) (text_drained self.new) text.old text.new) }
        ensures err { OnErr result (text_drained self.new ≡ text_drained self.old) }
        ensures whole { OnOk result (text_drained self.new ≡ record_text (whole_record (history_of self.new))) }
        ensures rests { OnOk result (IsAtRest (history_of self.new)) }
        ensures world { IsReached (history_of self.new) }
        ensures clock { self.new.tick ≡ self.old.tick }
        ensures faults { self.new.faults ≡ self.old.faults }
        ensures handed { self.new.handed ≡ self.old.handed }
        ensures refused { OnErr result ((self.new ≡ self.old) × (text.new ≡ text.old)) }
    {
        let lines = lines_of(
            self.alloc,
            self.flight.as_slice(),
            &self.kept.as_slice()[self.drained..],
        )?;
        text.push_slice(lines.as_slice())?;
        self.drained = self.kept.as_slice().len();
        Ok(())
    }
}
