//! The changes of a disk in memory since a named moment.
ghost use Rattle.std.specs.Prelude.{◌≡◌, ◌<◌, ◌≤◌, [], ◌∷◌, ◌++◌, length, IfOk};
ghost use Rattle.sd_outside.specs.Moments.Change.{Write, Sync};
ghost use Rattle.sd_outside.specs.Kept.{SparedBy, Spares, AllFit, end_of, Refreshed, Near};

use crate::NoMemory;
use crate::range::{Span, refresh};
use crate::surface::Surface;
use std::alloc::Global;
use std::marker::Model;

/// How many changes are kept.
pub(crate) const ROOM: usize = 64;

/// The most bytes of a write that is kept.
pub(crate) const LONGEST: usize = 8256;

/// A place for a change, with room for the bytes of any write.
#[derive(Drop)]
pub(crate) struct Slot {
    is_sync: bool,
    at: usize,
    bytes: Vec<u8>,
}

impl Model for Slot {
    ghost use Rattle.std.specs.Prelude.{◌≤◌, vec_capacity, if◌then◌else◌};
    ghost use Rattle.sd_outside.specs.Moments.{Change};
    ghost use Rattle.sd_outside.specs.Moments.Change.{Write, Sync};

    ghost Value = { Change };

    ghost view = { λ slot. if slot.is_sync then Sync else Write slot.at slot.bytes.items };

    ghost invariant = { λ slot. 8256 ≤ vec_capacity slot.bytes };
}

impl Slot {
    fn new(alloc: Global) -> Result<Slot, NoMemory>
        ensures { IfOk result (λ slot. slot ≡ Sync) }
    {
        Ok(Slot {
            is_sync: true,
            at: 0,
            bytes: Vec::with_capacity(alloc, LONGEST)?,
        })
    }

    fn set_write(&mut self, at: usize, bytes: &[u8])
        requires { length bytes.now ≤ 8256 }
        ensures { self.new ≡ Write at bytes.now }
    {
        self.is_sync = false;
        self.at = at;
        self.bytes.clear();
        // The slot has room for the longest change.
        let _ = self.bytes.extend_from_slice(bytes);
    }

    fn set_sync(&mut self)
        ensures { self.new ≡ Sync }
    {
        self.is_sync = true;
    }

    /// Makes the places that the change wrote equal to those of the other list.
    fn refresh<T: Copy + Drop>(&self, items: &mut Vec<T>, from: &[T])
        requires fits { end_of self.now ≤ length items.old.items }
        requires size { length items.old.items ≡ length from.now }
        ensures { Refreshed (λ place. Spares place self.now) from.now items.old.items items.new.items }
    {
        let is_sync = self.is_sync;
        if is_sync {
            return;
        }
        let written = Span {
            start: self.at,
            end: self.at + self.bytes.len(),
        };
        refresh(items, from, written);
    }
}

/// Makes the places that these changes wrote equal to those of the other list.
fn refresh_all<T: Copy + Drop>(items: &mut Vec<T>, from: &[T], slots: &[Slot])
    requires fit { AllFit (length items.old.items) slots.now }
    requires size { length items.old.items ≡ length from.now }
    ensures { Refreshed (SparedBy (length slots.now) slots.now) from.now items.old.items items.new.items }
{
    for place in 0..slots.len() {
        slots[place].refresh(items, from);
    }
}

fn empty_slots(alloc: Global) -> Result<Vec<Slot>, NoMemory>
    ensures { IfOk result (λ slots. length slots.items ≡ 64) }
{
    let mut slots = Vec::new(alloc);
    for made in 0..ROOM {
        slots.push(Slot::new(alloc)?)?;
    }
    Ok(slots)
}

/// What the disk held at the named moment, and the changes since, at most 64.
#[derive(Drop)]
pub(crate) struct History {
    bytes: Vec<u8>,
    unsynced: Vec<bool>,
    slots: Vec<Slot>,
    kept: usize,
}

impl Model for History {
    ghost use Rattle.std.specs.Prelude.{◌≡◌, ◌≤◌, length, take};
    ghost use Rattle.sd_outside.specs.Kept.{HistoryView};

    ghost Value = { HistoryView };

    ghost view = { λ history. record { named = record { bytes = history.bytes.items; unsynced = history.unsynced.items }; changes = take history.kept history.slots.items } };

    ghost invariant = { λ history. (length history.slots.items ≡ 64) × (history.kept ≤ 64) };
}

impl History {
    /// The moment is now.
    pub(crate) fn new(alloc: Global, surface: &Surface) -> Result<History, NoMemory>
        ensures named { IfOk result (λ history. history.named ≡ surface.now.state) }
        ensures changes { IfOk result (λ history. history.changes ≡ []) }
    {
        Ok(History {
            bytes: Vec::from_slice(alloc, surface.bytes())?,
            unsynced: Vec::from_slice(alloc, surface.unsynced())?,
            slots: empty_slots(alloc)?,
            kept: 0,
        })
    }

    /// How many changes are kept.
    pub(crate) fn kept(&self) -> usize
        ensures kept { result ≡ length self.now.changes }
        ensures few { result ≤ 64 }
    {
        self.kept
    }

    /// A write of these bytes comes.
    pub(crate) fn add_write(&mut self, at: usize, bytes: &[u8])
        requires room { length self.old.changes < 64 }
        requires short { length bytes.now ≤ 8256 }
        ensures named { self.new.named ≡ self.old.named }
        ensures changes { self.new.changes ≡ self.old.changes ++ Write at bytes.now ∷ [] }
    {
        self.slots[self.kept].set_write(at, bytes);
        self.kept += 1;
    }

    /// A sync comes.
    pub(crate) fn add_sync(&mut self)
        requires room { length self.old.changes < 64 }
        ensures named { self.new.named ≡ self.old.named }
        ensures changes { self.new.changes ≡ self.old.changes ++ Sync ∷ [] }
    {
        self.slots[self.kept].set_sync();
        self.kept += 1;
    }

    /// Names the present moment. What the disk holds differs from what it held at the last one in the span and where the
    /// changes wrote, so only these places are copied.
    pub(crate) fn begin(&mut self, surface: &Surface, span: Span)
        requires near { Near self.old.changes span self.old.named surface.now.state }
        requires fit { AllFit (length surface.now.state.bytes) self.old.changes }
        requires size { length surface.now.state.unsynced ≡ length surface.now.state.bytes }
        requires ordered { span.start ≤ span.end }
        requires inside { span.end ≤ length surface.now.state.bytes }
        ensures named { self.new.named ≡ surface.now.state }
        ensures changes { self.new.changes ≡ [] }
    {
        refresh_all(&mut self.bytes, surface.bytes(), &self.slots[..self.kept]);
        refresh_all(
            &mut self.unsynced,
            surface.unsynced(),
            &self.slots[..self.kept],
        );
        refresh(&mut self.bytes, surface.bytes(), span);
        refresh(&mut self.unsynced, surface.unsynced(), span);
        self.kept = 0;
    }
}
