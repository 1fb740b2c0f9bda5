//! The blocks that are due at a tick, in turns.
ghost use Rattle.std.specs.Prelude.{◌≡◌, IfOk, OnErr};
ghost use Rattle.sd_workers.specs.Seats.{parts_of, IsSeatOf, IsSameSeat, MadeOneCall, MadeNoCall, HasSeen};
ghost use Rattle.sd_workers.specs.declared.account.Event.TheVariants.{Ticked};

use crate::account::{Hosted, TickAccount};
use crate::hall::{Hall, HallSeat};
use sd_outside::{Disk, NoMemory};
use sd_server::Replies;
use sd_turnstile::Nothing;
use std::snapshot::Snapshot;
use std::sync::Wait;

impl<D: Disk + Send> Hall<D> {
    /// Sends the blocks again that are due at a tick, in the seat's turn, as `serve` does with a packet.
    pub fn tick<R: Wait>(
        &self,
        rt: &R,
        seat: &mut HallSeat<D>,
        now: u64,
    ) -> Result<Replies, NoMemory>
        requires { IsSeatOf self.now seat.old }
        ensures same { IsSameSeat seat.old seat.new × (parts_of seat.new ≡ parts_of seat.old) }
        ensures ok { IfOk result (λ replies. MadeOneCall seat.old seat.new now Ticked replies) }
        ensures err { OnErr result (MadeNoCall seat.old seat.new) }
        ensures legal { HasSeen D.seen D.may_leave D.faults self.now seat.new }
    {
        let Hosted { mut server } = self.turnstile.enter(rt, &mut seat.seat);
        let before = Snapshot::of(&server);
        match server.tick(now) {
            Ok(replies) => {
                let after = Snapshot::of(&server);
                let account = TickAccount {
                    now,
                    replies: &replies,
                    before,
                    after,
                };
                self.turnstile
                    .leave(&mut seat.seat, Hosted { server }, &account);
                drop(account);
                Ok(replies)
            }
            Err(NoMemory) => {
                self.turnstile
                    .leave(&mut seat.seat, Hosted { server }, &Nothing);
                Err(NoMemory)
            }
        }
    }
}
