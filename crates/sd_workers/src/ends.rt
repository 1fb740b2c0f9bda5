//! How a hall begins and ends, and its seats.
ghost use Rattle.std.specs.Prelude.{◌≡◌, ◌≢◌, ◌↔◌, ◌+◌, ◌<◌, [], IfOk, IfErr, IsOk, IsNone, IfNone, IfSome};
ghost use Rattle.sd_turnstile.specs.History.{StartsWith, calls_by};
ghost use Rattle.sd_workers.specs.Seats.{opened_with, seats_of, number_of, parts_of, seen_by, own_of, IsSeatOf, IsSameHall, IsSameSeat, HasSeenTo};

use crate::account::Hosted;
use crate::hall::{Hall, HallSeat};
use sd_outside::{Disk, NoMemory};
use sd_server::Server;
use sd_turnstile::Turnstile;
use std::alloc::Global;

impl<D: Disk + Send> Hall<D> {
    /// A hall for at most so many seats, and the first seat, which has all parts. Out of memory, the server comes back.
    pub fn open(
        alloc: Global,
        server: Server<D>,
        seats: u32,
    ) -> Result<(Hall<D>, HallSeat<D>), (NoMemory, Server<D>)>
        requires { 0 < seats }
        ensures hall { IfOk result (λ t. (opened_with t.0 ≡ server) × (seats_of t.0 ≡ seats)) }
        ensures seat { IfOk result (λ t. IsSeatOf t.0 t.1 × (parts_of t.1 ≡ seats)) }
        ensures seen { IfOk result (λ t. (seen_by t.1 ≡ []) × (own_of t.1 ≡ [])) }
        ensures refused { IfErr result (λ e. e.1 ≡ server) }
    {
        let still = match server.still() {
            Ok(still) => still,
            Err(NoMemory) => return Err((NoMemory, server)),
        };
        match Turnstile::new(alloc, seats, Hosted { server }) {
            Ok((turnstile, seat)) => Ok((Hall { turnstile, still }, HallSeat { seat })),
            Err((NoMemory, Hosted { server })) => Err((NoMemory, server)),
        }
    }

    /// A new seat with one of the seat's parts and another number, which has seen as much and made no call. `None` where the seat has
    /// one part alone.
    pub fn split(&self, seat: &mut HallSeat<D>) -> Option<HallSeat<D>>
        requires { IsSeatOf self.now seat.old }
        ensures none { IsNone result ↔ (parts_of seat.old ≡ 1) }
        ensures same { IsSameSeat seat.old seat.new × (seen_by seat.new ≡ seen_by seat.old) × (own_of seat.new ≡ own_of seat.old) }
        ensures new { IfSome result (λ s. IsSeatOf self.now s × (parts_of s ≡ 1) × (seen_by s ≡ seen_by seat.old) × (own_of s ≡ [])) }
        ensures number { IfSome result (λ s. number_of s ≢ number_of seat.old) }
        ensures parts { IfSome result (λ s. parts_of seat.new + 1 ≡ parts_of seat.old) }
        ensures alone { IfNone result (parts_of seat.new ≡ parts_of seat.old) }
    {
        let seat = self.turnstile.split(&mut seat.seat)?;
        Some(HallSeat { seat })
    }

    /// Takes another seat in. The seat has the parts of both, and has seen what both had. In that, the calls of the other seat's number
    /// are just those that it made.
    pub fn join(&self, seat: &mut HallSeat<D>, other: HallSeat<D>)
        requires seat { IsSeatOf self.now seat.old }
        requires other { IsSeatOf self.now other }
        ensures same { IsSameSeat seat.old seat.new × (own_of seat.new ≡ own_of seat.old) }
        ensures parts { parts_of seat.new ≡ parts_of seat.old + parts_of other }
        ensures seen { StartsWith (seen_by seat.new) (seen_by seat.old) × StartsWith (seen_by seat.new) (seen_by other) }
        ensures theirs { (number_of other ≢ number_of seat.old) × (calls_by (λ e. e.by) (number_of other) (seen_by seat.new) ≡ own_of other) }
    {
        self.turnstile.join(&mut seat.seat, other.into_seat());
    }

    /// The server, at the end of the legal history that the seat has seen: nobody made a call that it hasn't seen. Where the seat hasn't
    /// all parts, so that another seat is out, both come back.
    pub fn close(self, seat: HallSeat<D>) -> Result<Server<D>, (Hall<D>, HallSeat<D>)>
        requires { IsSeatOf self seat }
        ensures closed { IsOk result ↔ (parts_of seat ≡ seats_of self) }
        ensures server { IfOk result (λ server. HasSeenTo D.seen D.may_leave D.faults self seat server) }
        ensures refused { IfErr result (λ e. IsSameHall self e.0 × (e.1.seat ≡ seat.seat)) }
    {
        let Hall { turnstile, still } = self;
        match turnstile.close(seat.into_seat()) {
            Ok(Hosted { server }) => Ok(server),
            Err((turnstile, seat)) => Err((Hall { turnstile, still }, HallSeat { seat })),
        }
    }
}
