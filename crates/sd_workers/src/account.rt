//! What is told of a turn of the server.
use sd_outside::{Disk, Packet};
use sd_server::{Replies, Server};
use sd_turnstile::{Account, Held};
use std::snapshot::Snapshot;

/// What a server did.
pub enum Event {
    /// It served this packet.
    Served(Packet),
    /// It sent the blocks again that were due at a tick.
    Ticked,
}

/// One call of a server, as a history tells it. No value of it is made.
pub struct Entry {
    /// The number of the caller's seat.
    pub by: u64,
    pub now: u64,
    pub event: Event,
    pub replies: Replies,
    /// The disk's count of faults before the call and after it.
    pub before: u64,
    pub after: u64,
}

/// A server as it stands in a turnstile.
#[derive(Drop)]
pub(crate) struct Hosted<D: Disk> {
    pub server: Server<D>,
}

impl<D: Disk + Send> Held for Hosted<D> {
    ghost use Rattle.sd_workers.specs.Legal.{Leads, leads_nowhere, leads_on};

    type Entry = Entry;

    ghost caller = { λ e. e.by };

    ghost leads = { λ x history y. Leads D.seen D.may_leave D.faults x.server history y.server };

    ghost stays = { λ x. leads_nowhere D.seen D.may_leave D.faults x.server };

    ghost joins = { λ x y z es fs. leads_on D.seen D.may_leave D.faults x.server y.server z.server es fs };
}

/// What is told of a packet that was served.
#[derive(Drop)]
pub(crate) struct ServeAccount<'a, D: Disk> {
    pub now: u64,
    pub packet: &'a Packet,
    pub replies: &'a Replies,
    pub before: Snapshot<Server<D>>,
    pub after: Snapshot<Server<D>>,
}

impl<'a, D: Disk + Send> Account<Hosted<D>> for ServeAccount<'a, D> {
    ghost use Rattle.std.specs.Prelude.{Some};
    ghost use Rattle.sd_workers.specs.Entries.{entry};
    ghost use Rattle.sd_workers.specs.declared.account.Event.TheVariants.{Served};

    ghost entry = { λ a by. Some (entry by a.now (Served a.packet.now) a.replies.now (D.faults a.before.value.store.disk) (D.faults a.after.value.store.disk)) };
}

/// What is told of a tick.
#[derive(Drop)]
pub(crate) struct TickAccount<'a, D: Disk> {
    pub now: u64,
    pub replies: &'a Replies,
    pub before: Snapshot<Server<D>>,
    pub after: Snapshot<Server<D>>,
}

impl<'a, D: Disk + Send> Account<Hosted<D>> for TickAccount<'a, D> {
    ghost use Rattle.std.specs.Prelude.{Some};
    ghost use Rattle.sd_workers.specs.Entries.{entry};
    ghost use Rattle.sd_workers.specs.declared.account.Event.TheVariants.{Ticked};

    ghost entry = { λ a by. Some (entry by a.now Ticked a.replies.now (D.faults a.before.value.store.disk) (D.faults a.after.value.store.disk)) };
}
