//! What the sessions do at a tick.
ghost use Rattle.std.specs.Prelude.{◌≡◌, [], ◌∷◌, ◌++◌, IfOk, OnOk};
ghost use Rattle.std.specs.List.{AllByRecursion, flat_map, list_any};
ghost use Rattle.sd_server.specs.Sessions.{session_of, IsSending};
ghost use Rattle.sd_services.specs.Sessions.{is_due};
ghost use Rattle.sd_server.specs.Ticks.{sent_at, due_of};
ghost use Rattle.sd_server.specs.Ticking.{sending_kept, due_at};

use crate::replies::PacketList;
use crate::sessions::Sending;
use crate::tftp::block_packet;
use sd_config::Config;
use sd_outside::{ListOf, NoMemory};
use sd_tftp::SenderTick;
use std::alloc::Global;

/// A session whose present block is due.
#[derive(Clone, Copy, Debug, PartialEq, Eq)]
pub struct Due {
    /// The session's number.
    pub number: u64,
    /// The block is sent again. Else the session ends, since it was sent often enough.
    pub again: bool,
}

/// Sessions that are due, in order.
pub type DueList = ListOf<Due>;

/// What is sent at a tick, and the sessions after it.
#[derive(Drop)]
pub struct Ticked {
    pub packets: PacketList,
    pub sessions: Vec<Sending>,
}

impl Ticked {
    /// A session stays.
    fn keep(&mut self, session: Sending) -> Result<(), NoMemory>
        ensures sessions { OnOk result (self.new.sessions.items ≡ self.old.sessions.items ++ session ∷ []) }
        ensures packets { self.new.packets ≡ self.old.packets }
    {
        self.sessions.push(session)?;
        Ok(())
    }

    /// One session more.
    fn turn(
        &mut self,
        alloc: Global,
        config: &Config,
        tick: u64,
        session: &Sending,
    ) -> Result<(), NoMemory>
        requires { IsSending config.now session.now }
        ensures packets { OnOk result (self.new.packets ≡ self.old.packets ++ sent_at config.now tick (session_of config.now session.now)) }
        ensures sessions { OnOk result (self.new.sessions.items ≡ self.old.sessions.items ++ sending_kept config.now tick session.now) }
    {
        let mut sender = session.sender.copy();
        match sender.tick(tick, config.wait, config.tries) {
            SenderTick::Rest => self.keep(session.copy())?,
            SenderTick::Resend { number } => {
                let packet = block_packet(alloc, config, session, number)?;
                self.packets.push(packet)?;
                self.keep(Sending {
                    number: session.number,
                    file: session.file,
                    peer: session.peer,
                    sender,
                })?;
            }
            SenderTick::Ended => {}
        }
        Ok(())
    }
}

/// What all sessions do at a tick, in order.
pub fn all_turns(
    alloc: Global,
    config: &Config,
    tick: u64,
    sessions: &[Sending],
) -> Result<Ticked, NoMemory>
    requires { AllByRecursion (IsSending config.now) sessions.now }
    ensures packets { IfOk result (λ t. t.packets ≡ flat_map (λ s. sent_at config.now tick (session_of config.now s)) sessions.now) }
    ensures sessions { IfOk result (λ t. t.sessions.items ≡ flat_map (sending_kept config.now tick) sessions.now) }
{
    let mut done = Ticked {
        packets: PacketList::empty(alloc),
        sessions: Vec::new(alloc),
    };
    for session in sessions {
        done.turn(alloc, config, tick, session)?;
    }
    Ok(done)
}

fn is_due(config: &Config, tick: u64, session: &Sending) -> bool
    ensures { result ≡ is_due config.now tick (session_of config.now session.now) }
{
    session.sender.is_due(tick, config.wait)
}

fn due_of(config: &Config, session: &Sending) -> Due
    ensures { result ≡ due_of config.now (session_of config.now session.now) }
{
    Due {
        number: session.number,
        again: session.sender.may_send(config.tries),
    }
}

/// Whether a session is due.
pub fn any_due(config: &Config, tick: u64, sessions: &[Sending]) -> bool
    ensures { result ≡ list_any (λ s. is_due config.now tick (session_of config.now s)) sessions.now }
{
    let mut any = false;
    for session in sessions {
        any = any || is_due(config, tick, session);
    }
    any
}

/// A session more, where it is due.
fn push_due(
    list: &mut DueList,
    config: &Config,
    tick: u64,
    session: &Sending,
) -> Result<(), NoMemory>
    ensures { OnOk result (list.new ≡ list.old ++ due_at config.now tick (session_of config.now session.now)) }
{
    if is_due(config, tick, session) {
        list.push(due_of(config, session))?;
    }
    Ok(())
}

/// The sessions that are due.
pub fn all_due(
    alloc: Global,
    config: &Config,
    tick: u64,
    sessions: &[Sending],
) -> Result<DueList, NoMemory>
    ensures { IfOk result (λ list. list ≡ flat_map (λ s. due_at config.now tick (session_of config.now s)) sessions.now) }
{
    let mut list = DueList::empty(alloc);
    for session in sessions {
        push_due(&mut list, config, tick, session)?;
    }
    Ok(list)
}
