//! The turnstile, and its seats.
ghost use Rattle.std.specs.Prelude.{◌≡◌, ◌↔◌, ◌<◌, IsTrue, None};

use crate::held::Held;
use crate::order::{Opening, TakesTurns};
use crate::view::View;
use std::alloc::Global;

/// An object that seats take turns at.
#[derive(Drop)]
pub struct Turnstile<O: Held> {
    pub(crate) table: atomic_table::Table<
        Option<O>,
        View<O::Entry>,
        Opening<O>,
        TakesTurns,
        Global,
    >,
    pub(crate) seats: u32,
    ghost sized: { (table.shared.table_id.words ≡ 2) × (table.shared.table_id.slots ≡ 1) × (table.shared.key.seats ≡ seats) },
}

/// The right to take turns at an object whose entries are `E`. Between two calls it has seen all that it was told.
///
/// A seat that is let go takes its parts with it, so that the turnstile can't be closed. One that is let go in its turn keeps the object, and all others wait.
pub struct EntrySeat<O, E> {
    pub(crate) place: atomic_table::Seat<Option<O>, View<E>>,
    pub(crate) parts: u32,
    ghost counted: { (place.me.0.parts ≡ parts) × (0 < parts) },
    ghost settled: { place.me.0.told ≡ None },
}

/// The right to take turns at an object.
pub type Seat<O> = EntrySeat<O, <O as Held>::Entry>;

impl<O: Held> Turnstile<O> {
    /// Whether the seat has all parts.
    pub(crate) fn has_all_parts(&self, seat: &Seat<O>) -> bool
        ensures { IsTrue result ↔ (seat.now.parts ≡ self.now.seats) }
    {
        seat.parts == self.seats
    }
}

impl<O, E> EntrySeat<O, E> {
    /// How many parts it has: one for each seat that it may be split into.
    pub fn parts(&self) -> u32
        ensures { result ≡ self.now.parts }
    {
        self.parts
    }

    /// Whether it has one part alone.
    pub(crate) fn has_one_part(&self) -> bool
        ensures { IsTrue result ↔ (self.now.parts ≡ 1) }
    {
        self.parts == 1
    }

    pub(crate) fn into_place(self) -> atomic_table::Seat<Option<O>, View<E>>
        ensures { result ≡ self.place }
    {
        let EntrySeat { place, parts: _ } = self;
        place
    }
}

impl<O, E> Drop for EntrySeat<O, E> {
    fn drop(self) {
        let EntrySeat { place: _, parts: _ } = self;
    }
}
