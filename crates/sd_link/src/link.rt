//! The client's way into the world.
ghost use Rattle.std.specs.Prelude.{◌≡◌, ℕ, ◌≤◌, ◌++◌, List, length, Option, OnOk, OnErr, IfSome};
ghost use Rattle.sd_link.specs.Steps.{History, whole_record};
ghost use Rattle.sd_outside.specs.Streams.{IsPrefixOf};
ghost use Rattle.sd_link.specs.Printing.{record_text};
ghost use Rattle.sd_link.specs.Link.{Moves, IsNow, Sends, Receives, LinkCause, Counts, last_tick, Drains, IsReached, IsDrained, IsAtRest};

use sd_outside::{ByteList, NoMemory, Packet};

/// Why a call of a link was refused.
#[derive(Clone, Copy, Debug, PartialEq, Eq)]
pub enum LinkError {
    /// A fault of the network, which the link counted.
    Failed,
    /// Out of memory.
    NoMemory,
}

/// A way into a world of packets.
pub trait Link {
    /// Everything that happened so far, where a world is told. Each step was one that may happen: clause `world` of each call.
    ghost told: { Self → Option History };

    /// The tick at which the link stands.
    ghost clock: { Self → ℕ };

    /// How often a call failed.
    ghost faults: { Self → ℕ };

    /// How many packets `recv` handed out.
    ghost handed: { Self → ℕ };

    /// The text that `drain` gave so far.
    ghost drained: { Self → List ℕ };

    /// The present tick. It never falls.
    fn now(&mut self) -> u64
        ensures value { result ≡ clock self.new }
        ensures bound { result ≤ last_tick }
        ensures later { clock self.old ≤ clock self.new }
        ensures told { told self.new ≡ told self.old }
        ensures tick { IsNow (told self.new) (clock self.new) }
        ensures world { IfSome (told self.new) IsReached }
        // What was drained is the text of a prefix of the record.
        ensures prefix { IfSome (told self.new) (λ h. IsPrefixOf (drained self.new) (record_text (whole_record h))) }
        ensures faults { faults self.new ≡ faults self.old }
        ensures handed { handed self.new ≡ handed self.old }
        ensures drained { drained self.new ≡ drained self.old };

    /// Sends a packet. After `Failed` it may have gone out, after `NoMemory` it hasn't.
    fn send(&mut self, packet: &Packet) -> Result<(), LinkError>
        ensures told { Moves (told self.old) (told self.new) (Sends packet.now result) }
        ensures world { IfSome (told self.new) IsReached }
        ensures later { clock self.old ≤ clock self.new }
        ensures cause { LinkCause (faults self.old) (faults self.new) result }
        ensures handed { handed self.new ≡ handed self.old }
        ensures drained { drained self.new ≡ drained self.old };

    /// Waits for a packet, until this tick at most. `None` comes only where it is reached.
    fn recv(&mut self, until: u64) -> Result<Option<Packet>, LinkError>
        ensures told { Moves (told self.old) (told self.new) (Receives until result) }
        ensures world { IfSome (told self.new) IsReached }
        ensures later { clock self.old ≤ clock self.new }
        ensures reached { result ≡ Ok None → until ≤ clock self.new }
        ensures cause { LinkCause (faults self.old) (faults self.new) result }
        ensures handed { Counts (handed self.old) (handed self.new) result }
        ensures drained { drained self.new ≡ drained self.old };

    /// Appends the lines of the record since the last drain.
    fn drain(&mut self, text: &mut ByteList) -> Result<(), NoMemory>
        ensures told { told self.new ≡ told self.old }
        ensures text { OnOk result (Drains (drained self.old) (drained self.new) text.old text.new) }
        ensures err { OnErr result (drained self.new ≡ drained self.old) }
        ensures whole { OnOk result (IsDrained (told self.new) (drained self.new)) }
        // What is drained to its end ends where the server is done with the present tick.
        ensures rests { OnOk result (IfSome (told self.new) IsAtRest) }
        ensures world { IfSome (told self.new) IsReached }
        ensures clock { clock self.new ≡ clock self.old }
        ensures faults { faults self.new ≡ faults self.old }
        ensures handed { handed self.new ≡ handed self.old };
}
