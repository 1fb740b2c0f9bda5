//! A link in memory, which hands out what it was given and fails as planned.
ghost use Rattle.std.specs.Prelude.{◌≡◌, ◌↔◌, ◌≤◌, max, Contains, None, Ok, IsTrue, IsOk, IsErr, IfOk, IfErr, IfSome, OnOk, OnErr};
ghost use Rattle.sd_outside.specs.Causes.{Rose};
ghost use Rattle.sd_link.specs.Link.{LinkCause, Counts, last_tick};
ghost use Rattle.sd_link.specs.MemLinks.{IsPlanned, FailsToWait, ending, IsTaken, NoneIsDue, HandedOut, WaitedOut, one_more, sent, failed};
ghost use Rattle.sd_link.specs.declared.link.LinkError.TheVariants as refused;

use crate::{Link, LinkError};
use sd_outside::{ByteList, ListOf, NoMemory, Packet};
use std::alloc::Global;
use std::collections::VecDeque;
use std::marker::Model;

/// Packets, each with the tick from which a link hands it out.
pub type PacketTimes = ListOf<(u64, Packet)>;

/// No link passes this tick.
const LAST_TICK: u64 = 1 << 62;

/// A link that tells no world. It hands out the packets that it was made with, takes each packet that is sent, and fails the
/// calls that were planned to fail.
#[derive(Drop)]
pub struct MemLink {
    inbox: VecDeque<(u64, Packet)>,
    tick: u64,
    fail: Vec<u64>,
    calls: u64,
    faults: u64,
    handed: u64,
}

impl Model for MemLink {
    ghost use Rattle.std.specs.Prelude.{◌≤◌};
    ghost use Rattle.sd_link.specs.Link.{last_tick};
    ghost use Rattle.sd_link.specs.MemLinks.{MemLinkView};

    ghost Value = { MemLinkView };

    ghost view = { λ link. record { inbox = link.inbox.items; tick = link.tick; fail = link.fail.items; calls = link.calls; faults = link.faults; handed = link.handed } };

    ghost invariant = { λ link. link.tick ≤ last_tick };
}

impl MemLink {
    /// A link at tick 0 that hands out these packets in their order, each from its tick on. `fail` numbers the calls of
    /// `send` and `recv` together that fail, from 0.
    pub fn new(alloc: Global, inbox: PacketTimes, fail: &[u64]) -> Result<MemLink, NoMemory>
        ensures { IfOk result (λ link. link ≡ record { inbox = inbox; tick = 0; fail = fail.now; calls = 0; faults = 0; handed = 0 }) }
    {
        Ok(MemLink {
            inbox: VecDeque::from(inbox.into_vec()),
            tick: 0,
            fail: Vec::from_slice(alloc, fail)?,
            calls: 0,
            faults: 0,
            handed: 0,
        })
    }

    /// Whether the next call of `send` or `recv` is planned to fail.
    fn is_planned(&self) -> bool
        ensures { IsTrue result ↔ IsPlanned self.now }
    {
        is_among(self.fail.as_slice(), self.calls)
    }

    /// Where a waiting until this tick ends.
    fn ending(&self, until: u64) -> u64
        ensures { result ≡ ending until self.now.inbox }
    {
        match self.inbox.front() {
            Some(first) => until.min(first.0),
            None => until,
        }
    }

    /// Another call is made, and this tick is reached.
    fn reach(&mut self, tick: u64)
        requires { tick ≤ last_tick }
        ensures becomes { self.new ≡ record self.old { tick = max self.old.tick tick; calls = one_more self.old.calls } }
        ensures handed { self.new.handed ≡ self.old.handed }
        ensures faults { self.new.faults ≡ self.old.faults }
    {
        self.tick = self.tick.max(tick);
        self.calls = self.calls.saturating_add(1);
    }

    /// Hands out the first packet, if it is due at this tick.
    fn hand_out(&mut self, until: u64) -> Option<Packet>
        ensures some { IfSome result (IsTaken until self.old self.new) }
        ensures none { result ≡ None → NoneIsDue until self.old.inbox × (self.new ≡ self.old) }
        ensures handed { Counts self.old.handed self.new.handed (Ok result) }
        ensures faults { self.new.faults ≡ self.old.faults }
    {
        match self.inbox.front() {
            Some(first) if first.0 <= until => {}
            _ => return None,
        }
        match self.inbox.pop_front() {
            Some((_, packet)) => {
                self.handed = self.handed.saturating_add(1);
                Some(packet)
            }
            None => None,
        }
    }

    /// A call fails, and is counted.
    fn refuse(&mut self) -> LinkError
        ensures why { result ≡ refused.Failed }
        ensures counted { self.new ≡ failed self.old }
        ensures rose { Rose self.old.faults self.new.faults }
        ensures later { self.old.faults ≤ self.new.faults }
    {
        self.calls = self.calls.saturating_add(1);
        self.faults = self.faults.saturating_add(1);
        LinkError::Failed
    }
}

fn is_among(numbers: &[u64], number: u64) -> bool
    ensures { IsTrue result ↔ Contains numbers.now number }
{
    numbers.contains(&number)
}

impl Link for MemLink {
    ghost use Rattle.std.specs.Prelude.{None, []};

    ghost told = { λ _. None };

    ghost clock = { λ link. link.tick };

    ghost faults = { λ link. link.faults };

    ghost handed = { λ link. link.handed };

    ghost drained = { λ _. [] };

    /// The present tick.
    fn now(&mut self) -> u64
        ensures value { result ≡ self.new.tick }
        ensures bound { result ≤ last_tick }
        ensures same { self.new ≡ self.old }
    {
        self.tick
    }

    /// Takes a packet. It fails exactly where that was planned, and never runs out of memory.
    fn send(&mut self, packet: &Packet) -> Result<(), LinkError>
        ensures cause { LinkCause self.old.faults self.new.faults result }
        ensures fails { IsErr result ↔ IsPlanned self.old }
        ensures ok { OnOk result (self.new ≡ sent self.old) }
        ensures why { IfErr result (λ why. why ≡ refused.Failed) }
        ensures err { OnErr result (self.new ≡ failed self.old) }
    {
        let _packet = packet;
        if self.is_planned() {
            return Err(self.refuse());
        }
        self.calls = self.calls.saturating_add(1);
        Ok(())
    }

    /// Waits for a packet, until this tick at most. It never runs out of memory.
    fn recv(&mut self, until: u64) -> Result<Option<Packet>, LinkError>
        ensures reached { result ≡ Ok None → until ≤ self.new.tick }
        ensures later { self.old.tick ≤ self.new.tick }
        ensures cause { LinkCause self.old.faults self.new.faults result }
        ensures handed { Counts self.old.handed self.new.handed result }
        ensures fails { IsErr result ↔ FailsToWait until self.old }
        ensures packet { IfOk result (λ o. IfSome o (HandedOut until self.old self.new)) }
        ensures none { result ≡ Ok None → WaitedOut until self.old self.new }
        ensures why { IfErr result (λ why. why ≡ refused.Failed) }
        ensures err { OnErr result (self.new ≡ failed self.old) }
    {
        if self.is_planned() {
            return Err(self.refuse());
        }
        let tick = self.ending(until);
        if tick > LAST_TICK {
            return Err(self.refuse());
        }
        self.reach(tick);
        Ok(self.hand_out(until))
    }

    /// Appends nothing, since no record is kept.
    fn drain(&mut self, text: &mut ByteList) -> Result<(), NoMemory>
        ensures same { self.new ≡ self.old }
        ensures text { text.new ≡ text.old }
        ensures ok { IsOk result }
    {
        let _text = text;
        Ok(())
    }
}
