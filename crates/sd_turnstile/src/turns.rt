//! Taking turns, splitting and joining seats.
ghost use Rattle.std.specs.Prelude.{◌≡◌, ◌≢◌, ◌↔◌, ℕ, ◌+◌, ◌-◌, ◌<◌, List, [], ◌∷◌, ◌++◌, Option, None, Some, IsNone, IfSome, IfNone};
ghost use Rattle.sd_turnstile.specs.declared.view.Stage.TheVariants.{Idle, Waiting, Serving};
ghost use Rattle.sd_turnstile.specs.History.{entries, IsBy, StartsWith, longer, calls_by};
ghost use Rattle.sd_turnstile.specs.Plays.{Settled, first_part, new_part, with_both};
ghost use Rattle.sd_turnstile.specs.Order.{view, heard, KnowsTheirs};
ghost use Rattle.sd_turnstile.specs.Seats.{opening_of, number_of, parts_of, seen_by, own_of, IsSeatOf, IsIdle, HasTurn, IsSameSeat, KnowsOwn};

use crate::held::{Account, Held};
use crate::plays::{Numbered, Settle, SplitOff, TakeIn, Told};
use crate::seat::{EntrySeat, Seat, Turnstile};
use crate::steps::Place;
use std::marker::Brand;
use std::sync::Wait;

impl<O: Held> Turnstile<O> {
    /// Draws a ticket, waits until it is served, and takes the object out.
    fn enter_told<W: Told<O, O::Entry>, R: Wait>(&self, rt: &R, place: &mut Place<O, O::Entry>) -> O
        requires table { place.old.table_id ≡ self.now.table.shared.table_id }
        requires told { (W.number ≡ place.old.id) × (W.start ≡ Some (opening_of self.now)) }
        requires idle { (place.old.me.0.stage ≡ Idle) × (place.old.me.1 ≡ []) × (0 < place.old.me.0.parts) }
        ensures same { (place.new.table_id ≡ place.old.table_id) × (place.new.id ≡ place.old.id) × (place.new.me.0.parts ≡ place.old.me.0.parts) × (place.new.me.0.own ≡ place.old.me.0.own) × (place.new.me.0.told ≡ None) }
        ensures turn { ((ticket : ℕ) × (place.new.me.0.stage ≡ Serving ticket)) × (place.new.me.1 ≡ (0, None) ∷ []) }
        ensures seen { StartsWith place.new.me.0.seen place.old.me.0.seen × (calls_by O.caller place.old.id place.new.me.0.seen ≡ place.new.me.0.own) }
        ensures legal { O.leads (opening_of self.now) place.new.me.0.seen result }
    {
        let ticket = self.draw(place);
        self.await_turn::<W, R>(rt, place, ticket);
        self.table.shared.exchange(place, 0, None).unwrap()
    }

    /// Waits for the seat's turn, and takes the object out. The seat has then seen the whole history, which leads to the object. The promise holds if the call returns: a seat that doesn't leave keeps all others waiting.
    pub fn enter<R: Wait>(&self, rt: &R, seat: &mut Seat<O>) -> O
        requires seat { IsSeatOf self.now seat.old }
        requires idle { IsIdle seat.old }
        ensures same { IsSameSeat seat.old seat.new × (parts_of seat.new ≡ parts_of seat.old) × (own_of seat.new ≡ own_of seat.old) }
        ensures turn { HasTurn seat.new }
        ensures seen { StartsWith (seen_by seat.new) (seen_by seat.old) }
        ensures mine { KnowsOwn O.caller seat.new }
        ensures legal { O.leads (opening_of self.now) (seen_by seat.new) result }
    {
        self.enter_told::<Brand, R>(rt, &mut seat.place)
    }

    /// Puts the object back with what is told of the turn, and serves the next ticket.
    fn leave_told<W: Told<O, O::Entry>, A>(
        &self,
        place: &mut Place<O, O::Entry>,
        object: O,
        _account: &A,
    )
        requires table { place.old.table_id ≡ self.now.table.shared.table_id }
        requires turn { ((ticket : ℕ) × (place.old.me.0.stage ≡ Serving ticket)) × (place.old.me.1 ≡ (0, None) ∷ []) × (0 < place.old.me.0.parts) }
        requires entry { IsBy O.caller place.old.id W.entry }
        requires legal { O.leads (opening_of self.now) (place.old.me.0.seen ++ entries W.entry) object }
        ensures same { (place.new.table_id ≡ place.old.table_id) × (place.new.id ≡ place.old.id) }
        ensures done { let v = place.old.me.0 in place.new.me ≡ (view v.parts (v.seen ++ entries W.entry) (v.own ++ entries W.entry) None Idle, []) }
    {
        self.finish::<W>(place, object);
    }

    /// Ends the turn. The account's entry, where there is one, is the last of what the seat has seen, and of its own.
    pub fn leave<A: Account<O>>(&self, seat: &mut Seat<O>, object: O, account: &A)
        requires seat { IsSeatOf self.now seat.old }
        requires turn { HasTurn seat.old }
        requires entry { IsBy O.caller (number_of seat.old) (A.entry account.now (number_of seat.old)) }
        requires legal { O.leads (opening_of self.now) (seen_by seat.old ++ entries (A.entry account.now (number_of seat.old))) object }
        ensures same { IsSameSeat seat.old seat.new × (parts_of seat.new ≡ parts_of seat.old) }
        ensures idle { IsIdle seat.new }
        ensures seen { seen_by seat.new ≡ seen_by seat.old ++ entries (A.entry account.now (number_of seat.old)) }
        ensures own { own_of seat.new ≡ own_of seat.old ++ entries (A.entry account.now (number_of seat.old)) }
        ensures mine { KnowsOwn O.caller seat.old → KnowsOwn O.caller seat.new }
    {
        self.leave_told::<Brand, A>(&mut seat.place, object, account);
    }

    /// A look after which the seat has seen what it was told, too.
    fn settle<W: Told<O, O::Entry>>(&self, place: &mut Place<O, O::Entry>)
        requires table { place.old.table_id ≡ self.now.table.shared.table_id }
        requires told { W.number ≡ place.old.id }
        requires idle { (place.old.me.0.stage ≡ Idle) × (0 < place.old.me.0.parts) }
        ensures same { (place.new.table_id ≡ place.old.table_id) × (place.new.id ≡ place.old.id) }
        ensures settled { Settled O.caller W.number place.old.me place.new.me }
    {
        self.table.shared.load::<Settle<W>>(place, 0);
    }

    /// Cuts a part off.
    fn split_told<W: Numbered>(&self, place: &mut Place<O, O::Entry>) -> Place<O, O::Entry>
        requires table { place.old.table_id ≡ self.now.table.shared.table_id }
        requires told { W.number ≡ place.old.id }
        requires idle { (place.old.me.0.stage ≡ Idle) × (1 < place.old.me.0.parts) }
        ensures same { (place.new.table_id ≡ place.old.table_id) × (place.new.id ≡ place.old.id) × (result.table_id ≡ place.old.table_id) }
        ensures left { place.new.me ≡ (first_part place.old.me.0, place.old.me.1) }
        ensures new { result.me ≡ (new_part place.old.id place.old.me.0, []) }
    {
        self.table.shared.split_seat::<SplitOff<W>>(place)
    }

    /// A new seat with one part, which has seen what it was told.
    fn seated(&self, mut place: Place<O, O::Entry>) -> Seat<O>
        requires table { place.table_id ≡ self.now.table.shared.table_id }
        requires idle { (place.me.0.stage ≡ Idle) × (place.me.1 ≡ []) × (place.me.0.parts ≡ 1) }
        ensures same { IsSeatOf self.now result × (number_of result ≡ place.id) }
        ensures idle { IsIdle result × (parts_of result ≡ 1) }
        ensures seen { (seen_by result ≡ longer place.me.0.seen (heard place.me.0.told)) × (own_of result ≡ place.me.0.own) }
        ensures mine { KnowsOwn O.caller result }
        ensures theirs { KnowsTheirs O.caller (number_of result) place.me.0.seen place.me.0.told }
    {
        self.settle::<Brand>(&mut place);
        EntrySeat { place, parts: 1 }
    }

    /// A new seat with one of the seat's parts and another number, which has seen as much. `None` where the seat has one part alone.
    pub fn split(&self, seat: &mut Seat<O>) -> Option<Seat<O>>
        requires seat { IsSeatOf self.now seat.old }
        requires idle { IsIdle seat.old }
        ensures none { IsNone result ↔ (parts_of seat.old ≡ 1) }
        ensures same { IsSameSeat seat.old seat.new × IsIdle seat.new × (seen_by seat.new ≡ seen_by seat.old) × (own_of seat.new ≡ own_of seat.old) }
        ensures new { IfSome result (λ s. IsSeatOf self.now s × IsIdle s × (parts_of s ≡ 1) × (seen_by s ≡ seen_by seat.old) × (own_of s ≡ []) × KnowsOwn O.caller s) }
        ensures number { IfSome result (λ s. number_of s ≢ number_of seat.old) }
        ensures parts { IfSome result (λ s. parts_of seat.new + 1 ≡ parts_of seat.old) }
        ensures alone { IfNone result (parts_of seat.new ≡ parts_of seat.old) }
    {
        if seat.has_one_part() {
            return None;
        }
        let place = self.split_told::<Brand>(&mut seat.place);
        seat.parts -= 1;
        Some(self.seated(place))
    }

    /// Takes in the parts of another.
    fn join_told<W: Numbered>(&self, place: &mut Place<O, O::Entry>, other: Place<O, O::Entry>)
        requires table { (place.old.table_id ≡ self.now.table.shared.table_id) × (other.table_id ≡ self.now.table.shared.table_id) }
        requires told { W.number ≡ other.id }
        requires idle { (place.old.me.0.stage ≡ Idle) × (other.me.0.stage ≡ Idle) × (other.me.1 ≡ []) }
        requires parts { (0 < place.old.me.0.parts) × (0 < other.me.0.parts) }
        requires settled { (place.old.me.0.told ≡ None) × (other.me.0.told ≡ None) }
        ensures same { (place.new.table_id ≡ place.old.table_id) × (place.new.id ≡ place.old.id) }
        ensures both { place.new.me ≡ (with_both other.id place.old.me.0 other.me.0, place.old.me.1) }
    {
        self.table.shared.join_seat::<TakeIn<W>>(place, other);
    }

    /// Takes another seat in. The seat has the parts of both, and has seen what both had. In that, the entries of the other seat's number are just that seat's own, as the entries of its number are its own.
    pub fn join(&self, seat: &mut Seat<O>, other: Seat<O>)
        requires seat { IsSeatOf self.now seat.old × IsSeatOf self.now other }
        requires idle { IsIdle seat.old × IsIdle other }
        ensures same { IsSameSeat seat.old seat.new × IsIdle seat.new × (own_of seat.new ≡ own_of seat.old) }
        ensures parts { parts_of seat.new ≡ parts_of seat.old + parts_of other }
        ensures seen { StartsWith (seen_by seat.new) (seen_by seat.old) × StartsWith (seen_by seat.new) (seen_by other) }
        ensures mine { KnowsOwn O.caller seat.new }
        ensures theirs { (number_of other ≢ number_of seat.old) × (calls_by O.caller (number_of other) (seen_by seat.new) ≡ own_of other) }
    {
        let more = other.parts;
        self.join_told::<Brand>(&mut seat.place, other.into_place());
        self.settle::<Brand>(&mut seat.place);
        seat.parts += more;
    }
}
