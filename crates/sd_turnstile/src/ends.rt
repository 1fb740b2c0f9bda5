//! How a turnstile begins and ends.
ghost use Rattle.std.specs.Prelude.{◌≡◌, ◌↔◌, ℕ, ◌<◌, List, [], ◌∷◌, Some, IfOk, IfErr, IsOk};
ghost use Rattle.sd_turnstile.specs.Seats.{opening_of, seats_of, number_of, parts_of, seen_by, own_of, IsSeatOf, IsIdle, KnowsOwn};

use crate::held::Held;
use crate::order::Opening;
use crate::seat::{EntrySeat, Seat, Turnstile};
use atomic_table::{Refused, Table};
use sd_outside::NoMemory;
use std::alloc::Global;
use std::snapshot::Snapshot;

/// The object out of slots that were refused.
fn only_object<O>(mut slots: Vec<Option<O>>) -> O
    requires { (object : O) × (slots.items ≡ Some object ∷ []) }
    ensures { slots.items ≡ Some result ∷ [] }
{
    let object = slots.pop().unwrap().unwrap();
    slots.destroy_empty();
    object
}

impl<O: Held> Turnstile<O> {
    /// A turnstile for at most so many seats, and the first seat, which has all parts. Out of memory, the object comes back.
    pub fn new(
        alloc: Global,
        seats: u32,
        object: O,
    ) -> Result<(Turnstile<O>, Seat<O>), (NoMemory, O)>
        requires { 0 < seats }
        ensures turnstile { IfOk result (λ t. (opening_of t.0 ≡ object) × (seats_of t.0 ≡ seats)) }
        ensures seat { IfOk result (λ t. IsSeatOf t.0 t.1 × IsIdle t.1 × (number_of t.1 ≡ 0) × (parts_of t.1 ≡ seats) × (seen_by t.1 ≡ []) × (own_of t.1 ≡ [])) }
        ensures refused { IfErr result (λ e. e.1 ≡ object) }
    {
        let opening = Opening {
            object: Snapshot::of(&object),
            seats,
        };
        let Ok(mut slots) = Vec::with_capacity(alloc, 1) else {
            return Err((NoMemory, object));
        };
        slots.push_reserved(Some(object));
        match Table::new(alloc, &[0, 0], slots, &opening) {
            Ok((table, place)) => Ok((
                Turnstile { table, seats },
                EntrySeat {
                    place,
                    parts: seats,
                },
            )),
            Err(Refused { slots }) => Err((NoMemory, only_object(slots))),
        }
    }

    /// The object, where all that the seat has seen leads: nobody else has an entry that it hasn't seen. Where the seat hasn't all parts, both come back.
    pub fn close(self, seat: Seat<O>) -> Result<O, (Turnstile<O>, Seat<O>)>
        requires seat { IsSeatOf self seat }
        requires idle { IsIdle seat }
        ensures closed { IsOk result ↔ (parts_of seat ≡ seats_of self) }
        ensures object { IfOk result (λ x. O.leads (opening_of self) (seen_by seat) x) }
        ensures mine { IfOk result (λ _. KnowsOwn O.caller seat) }
        ensures refused { IfErr result (λ e. (e.0 ≡ self) × (e.1 ≡ seat)) }
    {
        if !self.has_all_parts(&seat) {
            return Err((self, seat));
        }
        let Turnstile { table, seats: _ } = self;
        let mut closed = table.close_with(seat.into_place());
        let object = closed.take(0);
        closed.free();
        Ok(object.unwrap())
    }
}
