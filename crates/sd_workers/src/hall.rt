//! The hall: a server in its turnstile.
ghost use Rattle.std.specs.Prelude.{◌≡◌};
ghost use Rattle.sd_turnstile.specs.Seats.{opening_of, KnowsOwn, IsIdle};

use crate::account::Hosted;
use sd_outside::Disk;
use sd_server::Still;
use sd_turnstile::{Seat, Turnstile};

/// A server that seats take turns at, and what it answers to anyone without a turn.
#[derive(Drop)]
pub struct Hall<D: Disk + Send> {
    pub(crate) turnstile: Turnstile<Hosted<D>>,
    pub(crate) still: Still,
    ghost same: { still ≡ (opening_of turnstile).server.config },
}

/// The right to have packets served, in turn. Between two calls it has no ticket.
///
/// A seat that is let go takes its parts with it, so that the hall can't be closed.
pub struct HallSeat<D: Disk + Send> {
    pub(crate) seat: Seat<Hosted<D>>,
    ghost idle: { IsIdle seat },
    ghost mine: { KnowsOwn (λ e. e.by) seat },
}

impl<D: Disk + Send> HallSeat<D> {
    /// How many parts it has: one for each seat that it may be split into.
    pub fn parts(&self) -> u32
        ensures { result ≡ self.now.seat.parts }
    {
        self.seat.parts()
    }

    pub(crate) fn into_seat(self) -> Seat<Hosted<D>>
        ensures { (result ≡ self.seat) × IsIdle result × KnowsOwn (λ e. e.by) result }
    {
        let HallSeat { seat } = self;
        seat
    }
}

impl<D: Disk + Send> Drop for HallSeat<D> {
    fn drop(self) {
        let HallSeat { seat: _ } = self;
    }
}
