//! A request that is sent again and again until its answer comes.
ghost use Rattle.std.specs.Prelude.{◌≡◌, ◌<◌, ◌≤◌, ◌+◌, ◌*◌, ℕ, IfOk, OnErr, IfSome};
ghost use Rattle.sd_outside.specs.Causes.{Rose};
ghost use Rattle.sd_link.specs.Steps.{IsLawfulSoFar};
ghost use Rattle.sd_link.specs.Link.{Moves, IsReached, last_tick};
ghost use Rattle.sd_link.specs.Tries.{Hearing};
ghost use Rattle.sd_rpc_retry.specs.Lasting.{Lasts, Fails, StaysBefore, most_asking_ticks};
ghost use Rattle.sd_rpc_retry.specs.Asking.{Looks, IsNoMatch, IsNotFound, IsFound, Hears, Tried, IsNoAnswer, IsAnswer, IsAsked};
ghost use Rattle.sd_rpc_retry.specs.Sending.{IsStill, IsStillButFor, HandedIn, HandedFor, WaitedIn, WaitedFor, IsTallied, heard_fails, asked_fails, SendsOnly, IsReply, IsAsking, IsAskedFault, IsHeardFault};

use sd_link::{Link, LinkError};
use sd_outside::{NoMemory, Packet};

/// So many packets without a match end a try.
pub const FLOOD: u32 = 4096;

/// What a listener makes of a packet.
pub enum Look<T> {
    /// It is the answer, and means this.
    Match(T),
    /// It isn't, and this is sent for it.
    Reply(Packet),
    /// It is of no interest.
    Other,
}

/// Who waits for an answer.
pub trait Listener {
    /// What an answer means.
    type Found;

    /// What an answer shows, with the listener that took it.
    ghost Seen: { Type 0 };

    /// What the listener makes of each packet.
    ghost hearing: { Self → Hearing Seen };

    /// What was found, and the listener that found it, as the answer shows it.
    ghost shows: { Self → Self.Found → Seen };

    /// Looks at a packet. Only an answer changes the listener.
    fn look(&mut self, packet: &Packet) -> Result<Look<Self::Found>, NoMemory>
        ensures looked { IfOk result (Looks (hearing self.old) (shows self.new) packet.now) }
        ensures same { IfOk result (λ look. IsNoMatch look → self.new ≡ self.old) };
}

/// What came of one try.
pub enum Heard<T> {
    /// An answer.
    Found(T),
    /// The time passed.
    Nothing,
    /// So many packets came that the try ends.
    Flood,
    /// The link failed.
    Fault,
}

/// What came of a request.
pub enum Asked<T> {
    /// An answer.
    Answer(T),
    /// All tries waited in vain.
    Timeout,
    /// So many packets came in one try that the asking ended.
    Flood,
    /// The link failed.
    Fault,
}

/// Gets packets until one is the answer, or this tick is reached.
fn listen<L: Link, H: Listener>(
    link: &mut L,
    listener: &mut H,
    until: u64,
) -> Result<Heard<H::Found>, NoMemory>
    ensures told { IfOk result (λ heard. Moves (L.told link.old) (L.told link.new) (Hears (H.hearing listener.old) (H.shows listener.new) until heard)) }
    ensures goes { Moves (L.told link.old) (L.told link.new) (StaysBefore until) }
    ensures still { Moves (L.told link.old) (L.told link.new) (IsStill (H.hearing listener.old)) }
    ensures handed { IfOk result (λ heard. HandedIn heard (L.handed link.old) (L.handed link.new)) }
    ensures counts { L.handed link.old ≤ L.handed link.new }
    ensures waited { IfOk result (λ heard. WaitedIn until heard (L.clock link.new)) }
    ensures later { L.clock link.old ≤ L.clock link.new }
    ensures found { IfOk result (IsFound (H.hearing listener.old) (H.shows listener.new)) }
    ensures same { IfOk result (λ heard. IsNotFound heard → listener.new ≡ listener.old) }
    ensures fails { Fails (heard_fails result) (L.told link.old) (L.told link.new) }
    ensures sends { SendsOnly (IsReply (H.hearing listener.old)) (L.told link.old) (L.told link.new) }
    ensures fault { IfOk result (λ heard. IsHeardFault heard → Rose (L.faults link.old) (L.faults link.new)) }
    ensures faults { L.faults link.old ≤ L.faults link.new }
    ensures drained { L.drained link.new ≡ L.drained link.old }
{
    for count in 0..FLOOD {
        let packet = match link.recv(until) {
            Ok(Some(packet)) => packet,
            Ok(None) => return Ok(Heard::Nothing),
            Err(LinkError::Failed) => return Ok(Heard::Fault),
            Err(LinkError::NoMemory) => return Err(NoMemory),
        };
        match listener.look(&packet)? {
            Look::Match(found) => return Ok(Heard::Found(found)),
            Look::Other => {}
            Look::Reply(reply) => match link.send(&reply) {
                Ok(()) => {}
                Err(LinkError::Failed) => return Ok(Heard::Fault),
                Err(LinkError::NoMemory) => return Err(NoMemory),
            },
        }
    }
    Ok(Heard::Flood)
}

/// One try: sends the request, and listens for so many ticks.
fn try_once<L: Link, H: Listener>(
    link: &mut L,
    request: &Packet,
    listener: &mut H,
    wait: u64,
) -> Result<Heard<H::Found>, NoMemory>
    requires { wait ≤ 1000 }
    ensures reached { IfSome (L.told link.old) IsReached }
    ensures told { IfOk result (λ heard. Moves (L.told link.old) (L.told link.new) (Tried request.now (H.hearing listener.old) (H.shows listener.new) wait heard)) }
    ensures goes { Lasts 1000 (L.told link.old) (L.told link.new) }
    ensures still { Moves (L.told link.old) (L.told link.new) (IsStillButFor request.now (H.hearing listener.old)) }
    ensures handed { IfOk result (λ heard. HandedIn heard (L.handed link.old) (L.handed link.new)) }
    ensures counts { L.handed link.old ≤ L.handed link.new }
    ensures waited { IfOk result (λ heard. WaitedIn (L.clock link.old + wait) heard (L.clock link.new)) }
    ensures later { L.clock link.old ≤ L.clock link.new }
    ensures found { IfOk result (IsFound (H.hearing listener.old) (H.shows listener.new)) }
    ensures same { IfOk result (λ heard. IsNotFound heard → listener.new ≡ listener.old) }
    ensures fails { Fails (heard_fails result) (L.told link.old) (L.told link.new) }
    ensures sends { SendsOnly (IsAsking request.now (H.hearing listener.old)) (L.told link.old) (L.told link.new) }
    ensures fault { IfOk result (λ heard. IsHeardFault heard → Rose (L.faults link.old) (L.faults link.new)) }
    ensures faults { L.faults link.old ≤ L.faults link.new }
    ensures drained { L.drained link.new ≡ L.drained link.old }
{
    let until = link.now() + wait;
    match link.send(request) {
        Ok(()) => listen(link, listener, until),
        Err(LinkError::Failed) => Ok(Heard::Fault),
        Err(LinkError::NoMemory) => Err(NoMemory),
    }
}

/// How often a request was sent.
#[derive(Clone, Copy, Debug, PartialEq, Eq)]
pub struct Tally {
    /// How many sends were tried. One that the link refused counts too.
    pub sends: u32,
    /// The tick before the last of them, or 0 where there was none.
    pub last: u64,
}

/// Sends a request at most so often, waits so many ticks for the answer to each, and takes the first packet that matches.
pub fn ask<L: Link, H: Listener>(
    link: &mut L,
    request: &Packet,
    listener: &mut H,
    tries: u32,
    wait: u64,
) -> Result<Asked<H::Found>, NoMemory>
    requires tries { tries ≤ 64 }
    requires wait { wait ≤ 1000 }
    // Over a link that tells, this came of the request.
    ensures told { IfOk result (λ asked. Moves (L.told link.old) (L.told link.new) (IsAsked request.now (H.hearing listener.old) (H.shows listener.new) tries wait asked)) }
    // Over every link an answer is what some packet means.
    ensures found { IfOk result (IsAnswer (H.hearing listener.old) (H.shows listener.new)) }
    // It needs a packet, a flood its packets, and a timeout the whole time.
    ensures handed { IfOk result (λ asked. HandedFor asked (L.handed link.old) (L.handed link.new)) }
    ensures waited { IfOk result (λ asked. WaitedFor (tries * wait) asked (L.clock link.old) (L.clock link.new)) }
    ensures counts { L.handed link.old ≤ L.handed link.new }
    ensures later { L.clock link.old ≤ L.clock link.new }
    // Only an answer changes the listener.
    ensures same { IfOk result (λ asked. IsNoAnswer asked → listener.new ≡ listener.old) }
    // Whatever comes of it, a link that tells goes on telling.
    ensures lasts { Lasts most_asking_ticks (L.told link.old) (L.told link.new) }
    // A link that was asked tells a history that may happen.
    ensures lawful { 0 < tries → IfOk result (λ asked. IfSome (L.told link.old) IsLawfulSoFar) }
    // The client sends the request, and what the listener makes of packets, and nothing else.
    ensures sends { SendsOnly (IsAsking request.now (H.hearing listener.old)) (L.told link.old) (L.told link.new) }
    // The link failed exactly where the answer says so, and then its count of faults rose.
    ensures fails { Fails (asked_fails result) (L.told link.old) (L.told link.new) }
    ensures fault { IfOk result (λ asked. IsAskedFault asked → Rose (L.faults link.old) (L.faults link.new)) }
    ensures faults { L.faults link.old ≤ L.faults link.new }
    ensures drained { L.drained link.new ≡ L.drained link.old }
{
    let mut tally = Tally { sends: 0, last: 0 };
    ask_counting(link, request, listener, tries, wait, &mut tally)
}

/// Asks as `ask` does, and tells how often the request was sent and when last, whatever came of it.
pub fn ask_counting<L: Link, H: Listener>(
    link: &mut L,
    request: &Packet,
    listener: &mut H,
    tries: u32,
    wait: u64,
    tally: &mut Tally,
) -> Result<Asked<H::Found>, NoMemory>
    requires tries { tries ≤ 64 }
    requires wait { wait ≤ 1000 }
    ensures told { IfOk result (λ asked. Moves (L.told link.old) (L.told link.new) (IsAsked request.now (H.hearing listener.old) (H.shows listener.new) tries wait asked)) }
    // Over a link that tells, the request was sent so often, at once and then every `wait` ticks.
    ensures tallied { Moves (L.told link.old) (L.told link.new) (IsTallied request.now (H.hearing listener.old) wait tally.new result) }
    ensures most { tally.new.sends ≤ tries }
    // Over every link the last send was in between.
    ensures began { 0 < tally.new.sends → L.clock link.old ≤ tally.new.last }
    ensures ended { 0 < tally.new.sends → tally.new.last ≤ L.clock link.new }
    ensures low { tally.new.last ≤ last_tick }
    ensures once { 0 < tries → 0 < tally.new.sends }
    // Over every link an answer needs a packet, a flood its packets, and a timeout the whole time.
    ensures handed { IfOk result (λ asked. HandedFor asked (L.handed link.old) (L.handed link.new)) }
    ensures waited { IfOk result (λ asked. WaitedFor (tries * wait) asked (L.clock link.old) (L.clock link.new)) }
    ensures counts { L.handed link.old ≤ L.handed link.new }
    ensures later { L.clock link.old ≤ L.clock link.new }
    ensures found { IfOk result (IsAnswer (H.hearing listener.old) (H.shows listener.new)) }
    ensures same { IfOk result (λ asked. IsNoAnswer asked → listener.new ≡ listener.old) }
    ensures lasts { Lasts most_asking_ticks (L.told link.old) (L.told link.new) }
    ensures lawful { 0 < tries → IfOk result (λ asked. IfSome (L.told link.old) IsLawfulSoFar) }
    ensures fails { Fails (asked_fails result) (L.told link.old) (L.told link.new) }
    ensures sends { SendsOnly (IsAsking request.now (H.hearing listener.old)) (L.told link.old) (L.told link.new) }
    ensures fault { IfOk result (λ asked. IsAskedFault asked → Rose (L.faults link.old) (L.faults link.new)) }
    ensures faults { L.faults link.old ≤ L.faults link.new }
    ensures drained { L.drained link.new ≡ L.drained link.old }
{
    *tally = Tally { sends: 0, last: 0 };
    for count in 0..tries {
        tally.sends = count + 1;
        tally.last = link.now();
        match try_once(link, request, listener, wait)? {
            Heard::Found(found) => return Ok(Asked::Answer(found)),
            Heard::Nothing => {}
            Heard::Flood => return Ok(Asked::Flood),
            Heard::Fault => return Ok(Asked::Fault),
        }
    }
    Ok(Asked::Timeout)
}
