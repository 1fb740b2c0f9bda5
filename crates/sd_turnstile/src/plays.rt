//! What each step tells its seat.
ghost use Rattle.std.specs.Prelude.{ℕ, Option, None};
ghost use Rattle.sd_turnstile.specs.Order.{spent};
ghost use Rattle.sd_turnstile.specs.Plays.{drew, looked, advanced, first_part, new_part, with_both, settled};

use crate::held::Held;
use crate::view::View;
use atomic_table::{Join, Play, Split};
use std::marker::{Brand, PhantomData};

/// What a step is told, for the proof alone: a seat's number, the object as it was at the opening, and the entry of a turn that ends.
/// A call at `Brand` chooses it.
pub(crate) trait Told<O, E> {
    ghost number: { ℕ };

    ghost start: { Option O };

    ghost entry: { Option E };
}

impl<O, E> Told<O, E> for Brand {
    ghost number = { 0 };

    ghost start = { None };

    ghost entry = { None };
}

/// The number of a seat, for the proof alone. A call at `Brand` chooses it.
pub(crate) trait Numbered {
    ghost number: { ℕ };
}

impl Numbered for Brand {
    ghost number = { 0 };
}

/// A ticket is drawn.
pub(crate) struct Draw;

impl<O: Held> Play<Option<O>, View<O::Entry>> for Draw {
    ghost then = { drew };
}

/// A look at the ticket that is served.
pub(crate) struct Look<W> {
    told: PhantomData<W>,
}

impl<O: Held, W: Told<O, O::Entry>> Play<Option<O>, View<O::Entry>> for Look<W> {
    ghost then = { looked O.caller O.leads W.number W.start };
}

/// The next ticket is served.
pub(crate) struct Advance<W> {
    told: PhantomData<W>,
}

impl<O: Held, W: Told<O, O::Entry>> Play<Option<O>, View<O::Entry>> for Advance<W> {
    ghost then = { advanced W.entry };
}

/// A seat, whose number is told, is split.
pub(crate) struct SplitOff<W> {
    told: PhantomData<W>,
}

impl<E, W: Numbered> Split<View<E>> for SplitOff<W> {
    ghost left = { first_part };

    ghost right = { new_part W.number };
}

/// A seat takes another in, whose number is told.
pub(crate) struct TakeIn<W> {
    told: PhantomData<W>,
}

impl<E, W: Numbered> Join<View<E>> for TakeIn<W> {
    ghost both = { with_both W.number };

    ghost spent = { spent };
}

/// A look after which a seat has seen what it was told.
pub(crate) struct Settle<W> {
    told: PhantomData<W>,
}

impl<O: Held, W: Told<O, O::Entry>> Play<Option<O>, View<O::Entry>> for Settle<W> {
    ghost then = { settled O.caller W.number };
}
