//! The steps of a turn.
ghost use Rattle.std.specs.Prelude.{◌≡◌, ℕ, ◌+◌, ◌<◌, List, [], ◌∷◌, ◌++◌, Option, None, Some};
ghost use Rattle.sd_turnstile.specs.declared.view.Stage.TheVariants.{Idle, Waiting, Serving};
ghost use Rattle.sd_turnstile.specs.History.{entries, IsBy};
ghost use Rattle.sd_turnstile.specs.Order.{view};
ghost use Rattle.sd_turnstile.specs.Plays.{Took};
ghost use Rattle.sd_turnstile.specs.Seats.{opening_of};

use crate::held::Held;
use crate::plays::{Advance, Draw, Look, Told};
use crate::seat::Turnstile;
use crate::view::View;
use std::sync::Wait;

/// A seat of the table.
pub(crate) type Place<O, E> = atomic_table::Seat<Option<O>, View<E>>;

/// A slot out of which the object was taken.
fn let_go<O>(empty: Option<O>)
    requires { empty ≡ None }
{
    empty.ok_or(()).unwrap_err()
}

impl<O: Held> Turnstile<O> {
    /// Draws a ticket.
    pub(crate) fn draw(&self, place: &mut Place<O, O::Entry>) -> u64
        requires table { place.old.table_id ≡ self.now.table.shared.table_id }
        requires idle { (place.old.me.0.stage ≡ Idle) × (0 < place.old.me.0.parts) }
        ensures same { (place.new.table_id ≡ place.old.table_id) × (place.new.id ≡ place.old.id) }
        ensures drew { let v = place.old.me.0 in place.new.me ≡ (view v.parts v.seen v.own v.told (Waiting result), place.old.me.1) }
    {
        self.table.shared.fetch_add::<Draw>(place, 0, 1)
    }

    /// Waits until the ticket is served, and then has the slot.
    pub(crate) fn await_turn<W: Told<O, O::Entry>, R: Wait>(
        &self,
        rt: &R,
        place: &mut Place<O, O::Entry>,
        ticket: u64,
    )
        requires table { place.old.table_id ≡ self.now.table.shared.table_id }
        requires told { (W.number ≡ place.old.id) × (W.start ≡ Some (opening_of self.now)) }
        requires waits { (place.old.me.0.stage ≡ Waiting ticket) × (0 < place.old.me.0.parts) }
        ensures same { (place.new.table_id ≡ place.old.table_id) × (place.new.id ≡ place.old.id) }
        ensures took { Took O.caller O.leads W.number W.start place.old.me ticket place.new.me }
    {
        let shared = &self.table.shared;
        for _ in rt.forever() {
            let found = shared.load::<Look<W>>(place, 1);
            if found == ticket {
                return;
            }
            shared.park(rt, 1, (found % (1 << 32)) as u32);
        }
    }

    /// Puts the object back, and serves the next ticket.
    pub(crate) fn finish<W: Told<O, O::Entry>>(&self, place: &mut Place<O, O::Entry>, object: O)
        requires table { place.old.table_id ≡ self.now.table.shared.table_id }
        requires turn { ((ticket : ℕ) × (place.old.me.0.stage ≡ Serving ticket)) × (place.old.me.1 ≡ (0, None) ∷ []) × (0 < place.old.me.0.parts) }
        requires entry { IsBy O.caller place.old.id W.entry }
        requires legal { O.leads (opening_of self.now) (place.old.me.0.seen ++ entries W.entry) object }
        ensures same { (place.new.table_id ≡ place.old.table_id) × (place.new.id ≡ place.old.id) }
        ensures done { let v = place.old.me.0 in place.new.me ≡ (view v.parts (v.seen ++ entries W.entry) (v.own ++ entries W.entry) None Idle, []) }
    {
        let shared = &self.table.shared;
        let_go(shared.exchange(place, 0, Some(object)));
        shared.fetch_add::<Advance<W>>(place, 1, 1);
        shared.wake_all(1);
    }
}
