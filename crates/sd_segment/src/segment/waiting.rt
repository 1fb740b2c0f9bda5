//! Time goes on until a packet comes to the client.
ghost use Rattle.std.specs.Prelude.{◌≡◌, ◌⊎◌, ◌+◌, ◌-◌, ◌^◌, ◌≤◌, ◌<◌, ◌++◌, ◌∷◌, [], min, max, true, false, OnOk, OnErr, IfOk, IfSome, List, Some, None, Ok, Err};
ghost use Rattle.sd_link.specs.Link.{Moves, Receives, LinkCause, Counts, last_tick, IsReached};
ghost use Rattle.sd_link.specs.Steps.{Step, Fail};
ghost use Rattle.sd_link.specs.declared.link.LinkError.TheVariants as refused;
ghost use Rattle.sd_segment.specs.Segment.{history_of, text_drained, Rests};
ghost use Rattle.std.specs.List.{list_any};
ghost use Rattle.sd_segment.specs.Failing.{names_call};
ghost use Rattle.sd_segment.specs.Passing.{Advances, AllServes, HandsOut, WentOn};

use crate::segment::Segment;
use sd_link::LinkError;
use sd_outside::{NoMemory, Packet};

const LAST_TICK: u64 = 1 << 62;

impl Segment {
    /// The next packet that is due to the client, if there is one, is handed out.
    pub(crate) fn hand_out(&mut self) -> Result<Option<Packet>, NoMemory>
        requires ready { Rests self.old }
        ensures got { IfOk result (HandsOut self.old self.new) }
        ensures rests { OnOk result (Rests self.new) }
        ensures err { OnErr result (self.new ≡ self.old) }
        ensures tick { self.new.tick ≡ self.old.tick }
        ensures bounded { IsReached (history_of self.old) → IsReached (history_of self.new) }
        ensures calls { self.new.calls ≡ self.old.calls }
        ensures handed { IfOk result (λ o. IfSome o (λ packet. self.new.handed ≡ max self.old.handed (min (self.old.handed + 1) (2 ^ 64 - 1)))) }
    {
        match self.next_to_client() {
            None => Ok(None),
            Some(id) => {
                let packet = self.get(id)?;
                Ok(Some(packet))
            }
        }
    }

    /// The server is given all that is due to it at this tick.
    pub(crate) fn serve_all(&mut self) -> Result<(), NoMemory>
        ensures moves { (served : List Step) × WentOn self.old self.new served × AllServes served }
        ensures ready { OnOk result (self.new.to_server ≡ []) }
        ensures tick { self.new.tick ≡ self.old.tick }
        ensures handed { self.new.handed ≡ self.old.handed }
        ensures calls { self.new.calls ≡ self.old.calls }
    {
        while let Some(id) = self.next_to_server() {
            self.serve(id)?;
        }
        Ok(())
    }

    /// Each session whose block is due at this tick has its turn, once the server was given all that is due to it.
    pub(crate) fn send_due(&mut self) -> Result<(), NoMemory>
        requires served { self.old.to_server ≡ [] }
        ensures moves { (served : List Step) × WentOn self.old self.new served × AllServes served }
        ensures ready { OnOk result (Rests self.new) }
        ensures tick { self.new.tick ≡ self.old.tick }
        ensures handed { self.new.handed ≡ self.old.handed }
        ensures calls { self.new.calls ≡ self.old.calls }
    {
        if self.is_due() {
            self.take_turns()?;
        }
        Ok(())
    }

    /// The server does all that is due to it at this tick.
    pub(crate) fn settle(&mut self) -> Result<(), NoMemory>
        ensures moves { (served : List Step) × WentOn self.old self.new served × AllServes served }
        ensures ready { OnOk result (Rests self.new) }
        ensures tick { self.new.tick ≡ self.old.tick }
        ensures handed { self.new.handed ≡ self.old.handed }
        ensures calls { self.new.calls ≡ self.old.calls }
    {
        self.serve_all()?;
        self.send_due()?;
        Ok(())
    }

    /// Time goes on by one tick, and the server does what is due to it.
    pub(crate) fn advance(&mut self) -> Result<(), NoMemory>
        requires early { self.old.tick < last_tick }
        requires ready { Rests self.old }
        requires got { self.old.to_client ≡ [] }
        ensures moves { (self.new ≡ self.old) ⊎ Advances self.old self.new }
        ensures passed { OnOk result (Advances self.old self.new) }
        ensures ready { OnOk result (Rests self.new) }
        ensures tick { OnOk result (self.new.tick ≡ self.old.tick + 1) }
        ensures later { self.old.tick ≤ self.new.tick }
        ensures bounded { IsReached (history_of self.old) → IsReached (history_of self.new) }
        ensures handed { self.new.handed ≡ self.old.handed }
        ensures calls { self.new.calls ≡ self.old.calls }
    {
        self.pass()?;
        self.settle()?;
        Ok(())
    }

    /// From now on nothing is sent and nothing is received.
    pub(crate) fn stop(&mut self)
        ensures { self.new ≡ record self.old { broken = true } }
    {
        self.broken = true;
    }

    /// A receive: it fails where a line names it, and else waits.
    pub(crate) fn receive_call(&mut self, until: u64) -> Result<Option<Packet>, LinkError>
        requires ready { Rests self.old }
        requires bounded { IsReached (history_of self.old) }
        ensures told { Moves (Some (history_of self.old)) (Some (history_of self.new)) (Receives until result) }
        ensures bounded { IsReached (history_of self.new) }
        ensures drained { text_drained self.new ≡ text_drained self.old }
        ensures later { self.old.tick ≤ self.new.tick }
        ensures reached { result ≡ Ok None → until ≤ self.new.tick }
        ensures cause { LinkCause self.old.faults self.new.faults result }
        ensures handed { Counts self.old.handed self.new.handed result }
        ensures failed { result ≡ Err refused.Failed → (list_any (names_call self.old.calls) self.old.events.faults ≡ true) ⊎ ((self.new.tick ≡ last_tick) × (last_tick < until)) }
        ensures named { OnOk result (list_any (names_call self.old.calls) self.old.events.faults ≡ false) }
        ensures at_once { list_any (names_call self.old.calls) self.old.events.faults ≡ true → result ≡ Err refused.Failed → (history_of self.new).steps ≡ (history_of self.old).steps ++ (Fail ∷ []) }
        ensures calm { (result ≡ Err refused.Failed) ⊎ (self.new.faults ≡ self.old.faults) }
        ensures rests { OnOk result (Rests self.new) }
        ensures calls { (result ≡ Err refused.NoMemory) ⊎ (self.new.calls ≡ min (self.old.calls + 1) (2 ^ 64 - 1)) }
    {
        if self.call_fails() {
            return match self.fail_call() {
                Ok(()) => Err(LinkError::Failed),
                Err(NoMemory) => Err(LinkError::NoMemory),
            };
        }
        self.count_call();
        self.receive(until)
    }

    /// Waits for a packet until this tick.
    pub(crate) fn receive(&mut self, until: u64) -> Result<Option<Packet>, LinkError>
        requires ready { Rests self.old }
        requires bounded { IsReached (history_of self.old) }
        ensures told { Moves (Some (history_of self.old)) (Some (history_of self.new)) (Receives until result) }
        ensures bounded { IsReached (history_of self.new) }
        ensures drained { text_drained self.new ≡ text_drained self.old }
        ensures later { self.old.tick ≤ self.new.tick }
        ensures reached { result ≡ Ok None → until ≤ self.new.tick }
        ensures cause { LinkCause self.old.faults self.new.faults result }
        ensures handed { Counts self.old.handed self.new.handed result }
        ensures late { result ≡ Err refused.Failed → (self.new.tick ≡ last_tick) × (last_tick < until) }
        ensures calm { (result ≡ Err refused.Failed) ⊎ (self.new.faults ≡ self.old.faults) }
        ensures rests { OnOk result (Rests self.new) }
        ensures calls { self.new.calls ≡ self.old.calls }
    {
        'waiting: loop {
            match self.hand_out() {
                Ok(Some(packet)) => return Ok(Some(packet)),
                Ok(None) => {}
                Err(NoMemory) => return Err(LinkError::NoMemory),
            }
            let tick = self.tick();
            if tick >= until {
                return Ok(None);
            }
            if tick >= LAST_TICK {
                match self.fail() {
                    Ok(()) => return Err(LinkError::Failed),
                    Err(NoMemory) => return Err(LinkError::NoMemory),
                }
            }
            match self.advance() {
                Ok(()) => {}
                Err(NoMemory) => return Err(LinkError::NoMemory),
            }
        }
    }
}
