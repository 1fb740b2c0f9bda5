//! Serving in turns.
ghost use Rattle.std.specs.Prelude.{◌≡◌, IfOk, OnErr};
ghost use Rattle.sd_workers.specs.Seats.{parts_of, IsSeatOf, IsSameSeat, MadeOneCall, MadeNoCall, HasSeen};
ghost use Rattle.sd_workers.specs.declared.account.Event.TheVariants.{Served};

use crate::account::{Hosted, ServeAccount};
use crate::hall::{Hall, HallSeat};
use sd_outside::{Disk, NoMemory, Packet};
use sd_server::Replies;
use sd_turnstile::Nothing;
use std::snapshot::Snapshot;
use std::sync::Wait;

impl<D: Disk + Send> Hall<D> {
    /// Serves a packet in the seat's turn. It may wait for other seats, and its promise holds if it returns: what the seat has then
    /// seen is one legal history, which begins with all that it had seen and ends with this call and its replies. Out of memory, no
    /// call was made.
    pub fn serve<R: Wait>(
        &self,
        rt: &R,
        seat: &mut HallSeat<D>,
        now: u64,
        packet: &Packet,
    ) -> Result<Replies, NoMemory>
        requires { IsSeatOf self.now seat.old }
        ensures same { IsSameSeat seat.old seat.new × (parts_of seat.new ≡ parts_of seat.old) }
        ensures ok { IfOk result (λ replies. MadeOneCall seat.old seat.new now (Served packet.now) replies) }
        ensures err { OnErr result (MadeNoCall seat.old seat.new) }
        ensures legal { HasSeen D.seen D.may_leave D.faults self.now seat.new }
    {
        let Hosted { mut server } = self.turnstile.enter(rt, &mut seat.seat);
        let before = Snapshot::of(&server);
        match server.serve(now, packet) {
            Ok(replies) => {
                let after = Snapshot::of(&server);
                let account = ServeAccount {
                    now,
                    packet,
                    replies: &replies,
                    before,
                    after,
                };
                self.turnstile
                    .leave(&mut seat.seat, Hosted { server }, &account);
                drop(account);
                Ok(replies)
            }
            Err(NoMemory) => {
                self.turnstile
                    .leave(&mut seat.seat, Hosted { server }, &Nothing);
                Err(NoMemory)
            }
        }
    }
}
