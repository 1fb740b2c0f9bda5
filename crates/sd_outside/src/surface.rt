//! The bytes of a disk in memory, and what is unsynced.
ghost use Rattle.std.specs.Prelude.{◌≡◌, ◌+◌, ◌≤◌, length, get_or, replicate, false, true, IfOk};
ghost use Rattle.sd_outside.specs.Ranges.{part};
ghost use Rattle.sd_outside.specs.Moments.{after, pick, picked, MayLeave};
ghost use Rattle.sd_outside.specs.Moments.Change.{Write, Sync};
ghost use Rattle.sd_outside.specs.Kept.{Outside};

use crate::NoMemory;
use crate::range::{NOWHERE, Span, copy_out, mark, overwrite, refresh, unmark};
use std::alloc::Global;
use std::marker::Model;

/// The bytes, those at the last sync, and which were written since.
#[derive(Drop)]
pub(crate) struct Surface {
    bytes: Vec<u8>,
    synced: Vec<u8>,
    unsynced: Vec<bool>,
    /// All that is unsynced lies in it, so that no call walks over the others.
    dirty: Span,
}

impl Model for Surface {
    ghost use Rattle.sd_outside.specs.Kept.{SurfaceView, IsSurface};

    ghost Value = { SurfaceView };

    ghost view = { λ surface. record { state = record { bytes = surface.bytes.items; unsynced = surface.unsynced.items }; synced = surface.synced.items } };

    ghost invariant = { λ surface. IsSurface surface.bytes.items surface.synced.items surface.unsynced.items surface.dirty };
}

impl Surface {
    /// These bytes, all of them synced.
    pub(crate) fn new(alloc: Global, image: &[u8]) -> Result<Surface, NoMemory>
        ensures bytes { IfOk result (λ surface. surface.state.bytes ≡ image.now) }
        ensures unsynced { IfOk result (λ surface. surface.state.unsynced ≡ replicate (length image.now) false) }
        ensures synced { IfOk result (λ surface. surface.synced ≡ image.now) }
    {
        Ok(Surface {
            bytes: Vec::from_slice(alloc, image)?,
            synced: Vec::from_slice(alloc, image)?,
            unsynced: vec![in alloc; false; image.len()]?,
            dirty: NOWHERE,
        })
    }

    pub(crate) fn bytes(&self) -> &[u8]
        ensures { result.now ≡ self.now.state.bytes }
    {
        &self.bytes
    }

    pub(crate) fn unsynced(&self) -> &[bool]
        ensures { result.now ≡ self.now.state.unsynced }
    {
        &self.unsynced
    }

    /// Where all that is unsynced lies.
    pub(crate) fn dirty(&self) -> Span
        ensures covered { (place : _) → Outside result place → get_or self.now.state.unsynced place false ≡ false }
        ensures ordered { result.start ≤ result.end }
        ensures inside { result.end ≤ length self.now.state.bytes }
    {
        self.dirty
    }

    pub(crate) fn read(&self, at: usize, into: &mut [u8])
        requires { at + length into.old ≤ length self.now.state.bytes }
        ensures { into.new ≡ part at (length into.old) self.now.state.bytes }
    {
        copy_out(&self.bytes, at, into);
    }

    pub(crate) fn write(&mut self, at: usize, bytes: &[u8])
        requires { at + length bytes.now ≤ length self.old.state.bytes }
        ensures state { self.new.state ≡ after (Write at bytes.now) self.old.state }
        ensures synced { self.new.synced ≡ self.old.synced }
    {
        let list = &mut self.bytes;
        overwrite(list, at, bytes);
        mark(&mut self.unsynced, at, bytes.len());
        let written = Span {
            start: at,
            end: at + bytes.len(),
        };
        self.dirty = self.dirty.joined(written);
    }

    pub(crate) fn sync(&mut self)
        ensures state { self.new.state ≡ after Sync self.old.state }
        ensures synced { self.new.synced ≡ self.old.state.bytes }
    {
        refresh(&mut self.synced, &self.bytes, self.dirty);
        unmark(&mut self.unsynced, self.dirty);
        self.dirty = NOWHERE;
    }

    /// A crash with that outcome picks what becomes of the unsynced bytes.
    pub(crate) fn settle(&mut self, outcome: u8)
        ensures bytes { self.new.state.bytes ≡ picked outcome 0 self.old.synced self.old.state.bytes self.old.state.unsynced }
        ensures may_be { MayLeave self.old.state self.new.state.bytes }
        ensures unsynced { self.new.state.unsynced ≡ self.old.state.unsynced }
        ensures synced { self.new.synced ≡ self.old.synced }
    {
        settle_span(
            outcome,
            &self.synced,
            &self.unsynced,
            self.dirty,
            &mut self.bytes,
        );
    }
}

/// What a crash makes of an unsynced byte.
fn picked_byte(outcome: u8, place: usize, old: u8, new: u8) -> u8
    ensures { result ≡ pick outcome place old new }
{
    match outcome {
        0 => old,
        1 => new,
        2 => { if place % 2 == 0 { new } else { old } }
        _ => 0xa5,
    }
}

/// What a crash makes of the bytes, where all that is unsynced lies in the span.
fn settle_span(outcome: u8, synced: &[u8], unsynced: &[bool], span: Span, bytes: &mut Vec<u8>)
    requires synced { length synced.now ≡ length bytes.old.items }
    requires unsynced { length unsynced.now ≡ length bytes.old.items }
    requires ordered { span.start ≤ span.end }
    requires inside { span.end ≤ length bytes.old.items }
    requires covered { (place : _) → Outside span place → get_or unsynced.now place false ≡ false }
    ensures { bytes.new.items ≡ picked outcome 0 synced.now bytes.old.items unsynced.now }
{
    for place in span.start..span.end {
        if unsynced[place] {
            bytes[place] = picked_byte(outcome, place, synced[place], bytes[place]);
        }
    }
}
