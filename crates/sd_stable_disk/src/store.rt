//! Files on a disk, as callers see them.
ghost use Rattle.std.specs.Prelude.{◌≡◌, ◌≢◌, ◌⊎◌, ◌↔◌, ◌+◌, ◌<◌, ◌≤◌, ℕ, [], length, map, true, false, slice_index, slice_index_or, is_ok, OnOk, IfOk, IfErr, IfSome, IsOk, IsErr, IsTrue, IsSome, Some, None, Err};
ghost use Rattle.std.specs.Option.{option_map, option_and_then};
ghost use Rattle.std.specs.Result.{result_err};
ghost use Rattle.sd_outside.specs.Ranges.{part};
ghost use Rattle.sd_outside.specs.Causes.{HasCause};
ghost use Rattle.sd_outside.specs.Disk.{Only, LeavesOnly};
ghost use Rattle.sd_outside.specs.DiskPlan.{Both, Makes, Begins, Stops};
ghost use Rattle.sd_stable_disk.specs.Image.{opens, held, written};
ghost use Rattle.sd_stable_disk.specs.Files.{files, may_hold, held_since, IsEither, OnlyHolds, OpensAs, IsRefused, HasFault};
ghost use Rattle.sd_stable_disk.specs.declared.errors.OpenError.TheVariants.{DiskFault as OpenFault, NoMemory as NoRoom};

use crate::entry::{ENTRY, fill_entry};
use crate::gate::{home, journal};
use crate::head::home_place;
use crate::opening::load;
use crate::recovery::{BUFFER, settle_journal};
use crate::{OpenError, StoreError};
use sd_outside::{Disk, NoMemory, StopDisk};
use std::alloc::Global;
use std::marker::Model;

/// Files on a disk. It is up, or down since a write or a recovery failed. A contract sees its disk, the sizes of its files,
/// whether it is up, and what the latest recovery was refused for; the files are what its disk holds as it reads.
#[derive(Drop)]
pub struct Store<D: Disk> {
    disk: D,
    buffer: Vec<u8>,
    sizes: Vec<u64>,
    up: bool,
    refusal: Option<OpenError>,
}

impl<D: Disk> Model for Store<D> {
    ghost use Rattle.std.specs.Prelude.{◌≡◌, length};
    ghost use Rattle.sd_stable_disk.specs.Files.{Stored, IsSound};

    ghost Value = { Stored D };

    ghost view = { λ store. record { disk = store.disk; sizes = store.sizes.items; up = store.up; refusal = store.refusal } };

    ghost invariant = { λ store. IsSound D.Disk.size D.Disk.seen D.Disk.may_leave store.disk store.sizes.items store.up × (length store.buffer.items ≡ 8256) };
}

fn take_buffer(alloc: Global) -> Result<Vec<u8>, NoMemory>
    ensures { IfOk result (λ buffer. length buffer.items ≡ 8256) }
{
    Ok(vec![in alloc; 0; BUFFER]?)
}

impl<D: Disk> Store<D> {
    /// Opens a disk with the files that it holds as it reads, or gives it back with the reason why it is refused. A crash
    /// meanwhile leaves these files, or what a crash could leave before. The one buffer is taken here.
    pub fn open(alloc: Global, mut disk: D) -> Result<Store<D>, (OpenError, D)>
        ensures up { IfOk result (λ store. store.up ≡ true) }
        ensures refusal { IfOk result (λ store. store.refusal ≡ None) }
        ensures files { IfOk result (λ store. files D.seen store ≡ option_and_then held (D.seen disk)) }
        ensures sizes { IfOk result (λ store. IfSome (files D.seen store) (λ files. store.sizes ≡ map (λ file. length file) files)) }
        ensures readable { IfOk result (λ store. IfSome (D.seen disk) (λ image. IsOk (opens image))) }
        ensures durable { IfOk result (λ store. OnlyHolds (files D.seen store) (may_hold D.may_leave store)) }
        ensures moments { IfOk result (λ store. LeavesOnly D.moment D.left_since disk store.disk (λ image. D.may_leave disk image ⊎ OpensAs (D.seen disk) image)) }
        ensures tells { IfOk result (λ store. D.tells_crash store.disk ≡ D.tells_crash disk) }
        ensures plan { IfOk result (λ store. Both (Makes 5 4 ⊥) (D.plan disk) (D.plan store.disk)) }
        ensures faults { IfOk result (λ store. D.faults store.disk ≡ D.faults disk) }

        ensures refused { IfErr result (λ refusal. IsRefused (D.seen disk) refusal.0) }
        ensures same { IfErr result (λ refusal. option_map opens (D.seen refusal.1) ≡ option_map opens (D.seen disk)) }
        ensures refused_crash { IfErr result (λ refusal. (image : _) → D.may_leave refusal.1 image → D.may_leave disk image ⊎ OpensAs (D.seen disk) image) }
        ensures refused_moments { IfErr result (λ refusal. LeavesOnly D.moment D.left_since disk refusal.1 (λ image. D.may_leave disk image ⊎ OpensAs (D.seen disk) image)) }
        ensures refused_tells { IfErr result (λ refusal. D.tells_crash refusal.1 ≡ D.tells_crash disk) }
        ensures refused_plan { IfErr result (λ refusal. Both (Makes 5 4 (refusal.0 ≡ OpenFault)) (D.plan disk) (D.plan refusal.1)) }
        ensures cause { IfErr result (λ refusal. HasFault (D.faults disk) (D.faults refusal.1) (refusal.0 ≡ OpenFault)) }
    {
        let Ok(mut buffer) = take_buffer(alloc) else {
            return Err((OpenError::NoMemory, disk));
        };
        match load(alloc, &mut disk, &mut buffer) {
            Ok(sizes) => Ok(Store {
                disk,
                buffer,
                sizes,
                up: true,
                refusal: None,
            }),
            Err(error) => Err((error, disk)),
        }
    }

    /// The sizes of the files.
    pub fn sizes(&self) -> &[u64]
        ensures { result.now ≡ self.now.sizes }
    {
        &self.sizes
    }

    /// It is up.
    pub fn is_up(&self) -> bool
        ensures { result ≡ self.now.up }
    {
        self.up
    }

    /// The disk.
    pub fn close(self) -> D
        ensures { result ≡ self.disk }
    {
        let Store {
            disk,
            buffer: _,
            sizes: _,
            up: _,
            refusal: _,
        } = self;
        disk
    }

    /// Reads bytes of a file. No bytes mean no call of the disk.
    pub fn read(&mut self, file: u32, at: u64, into: &mut [u8]) -> Result<(), StoreError>
        requires up { IsTrue self.old.up }
        requires file { file < length self.old.sizes }
        requires range { at + length into.old ≤ slice_index self.old.sizes file }
        requires short { length into.old ≤ 8192 }

        ensures read { OnOk result (IfSome (files D.seen self.old) (λ files. into.new ≡ part at (length into.old) (slice_index_or files file []))) }
        ensures files { files D.seen self.new ≡ files D.seen self.old }
        ensures up { self.new.up ≡ true }
        ensures sizes { self.new.sizes ≡ self.old.sizes }
        ensures refusal { self.new.refusal ≡ self.old.refusal }
        ensures durable { OnlyHolds (files D.seen self.old) (may_hold D.may_leave self.new) }
        ensures moments { LeavesOnly (λ store. D.moment store.disk) (held_since D.left_since) self.old self.new (λ left. left ≡ files D.seen self.old) }
        ensures none { length into.old ≡ 0 → (self.new ≡ self.old) × IsOk result }
        ensures tells { D.tells_crash self.new.disk ≡ D.tells_crash self.old.disk }
        ensures plan { Both (Makes 0 1 (IsErr result)) (D.plan self.old.disk) (D.plan self.new.disk) }
        ensures cause { HasCause (D.faults self.old.disk) (D.faults self.new.disk) result }
    {
        let place = home_place(&self.sizes, file as usize) + at;
        if into.is_empty() {
            return Ok(());
        }
        self.disk.read(place, into)?;
        Ok(())
    }

    /// Writes bytes of a file. At `Ok` each crash leaves them. At `Err` the store is down, with the whole write or
    /// without it. No bytes mean no call of the disk.
    pub fn write(&mut self, file: u32, at: u64, bytes: &[u8]) -> Result<(), StoreError>
        requires up { IsTrue self.old.up }
        requires file { file < length self.old.sizes }
        requires range { at + length bytes.now ≤ slice_index self.old.sizes file }
        requires short { length bytes.now ≤ 8192 }

        ensures written { OnOk result (files D.seen self.new ≡ option_map (written file at bytes.now) (files D.seen self.old)) }
        ensures durable { OnOk result (OnlyHolds (files D.seen self.new) (may_hold D.may_leave self.new)) }
        ensures up { self.new.up ≡ is_ok result }
        ensures sizes { self.new.sizes ≡ self.old.sizes }
        ensures refusal { self.new.refusal ≡ self.old.refusal }

        // Whatever the answer, there is the whole write or none of it, also after a crash at any moment of the call.
        ensures files { IsEither file at bytes.now (files D.seen self.old) (files D.seen self.new) }
        ensures crash { (left : _) → may_hold D.may_leave self.new left → IsEither file at bytes.now (files D.seen self.old) left }
        ensures moments { LeavesOnly (λ store. D.moment store.disk) (held_since D.left_since) self.old self.new (IsEither file at bytes.now (files D.seen self.old)) }
        ensures none { length bytes.now ≡ 0 → (self.new ≡ self.old) × IsOk result }
        ensures tells { D.tells_crash self.new.disk ≡ D.tells_crash self.old.disk }
        ensures plan { Both (Makes 8 0 (IsErr result)) (D.plan self.old.disk) (D.plan self.new.disk) }
        ensures cause { HasCause (D.faults self.old.disk) (D.faults self.new.disk) result }
    {
        let place = home_place(&self.sizes, file as usize) + at;
        if bytes.is_empty() {
            return Ok(());
        }
        self.up = false;
        fill_entry(&mut self.buffer, file, at, bytes);
        journal(&mut self.disk, &self.buffer[..ENTRY + bytes.len()])?;
        home(&mut self.disk, place, bytes)?;
        self.up = true;
        Ok(())
    }

    /// Brings the store up again, with the files that the disk as it reads holds. It takes no memory.
    pub fn recover(&mut self) -> Result<(), OpenError>
        ensures up { self.new.up ≡ is_ok result }
        ensures sizes { self.new.sizes ≡ self.old.sizes }
        ensures refusal { self.new.refusal ≡ result_err result }
        ensures files { files D.seen self.new ≡ files D.seen self.old }
        ensures durable { OnOk result (OnlyHolds (files D.seen self.new) (may_hold D.may_leave self.new)) }
        ensures crash { (left : _) → may_hold D.may_leave self.new left → may_hold D.may_leave self.old left ⊎ (left ≡ files D.seen self.old) }
        ensures moments { LeavesOnly (λ store. D.moment store.disk) (held_since D.left_since) self.old self.new (λ left. may_hold D.may_leave self.old left ⊎ (left ≡ files D.seen self.old)) }

        // Only a disk fault refuses a disk that tells what a read gives.
        ensures refused { IsSome (files D.seen self.old) → IfErr result (λ error. error ≡ OpenFault) }
        ensures memory { result ≢ Err NoRoom }
        ensures tells { D.tells_crash self.new.disk ≡ D.tells_crash self.old.disk }
        ensures plan { Both (Makes 5 3 (result ≡ Err OpenFault)) (D.plan self.old.disk) (D.plan self.new.disk) }
        ensures cause { HasFault (D.faults self.old.disk) (D.faults self.new.disk) (result ≡ Err OpenFault) }
    {
        self.up = false;
        self.refusal = Some(OpenError::DiskFault);
        self.disk.sync()?;
        match settle_journal(&mut self.disk, &mut self.buffer, &self.sizes) {
            Ok(()) => {
                self.up = true;
                self.refusal = None;
                Ok(())
            }
            Err(error) => {
                self.refusal = Some(error);
                Err(error)
            }
        }
    }
}

impl<D: StopDisk> Store<D> {
    /// Names this moment as the one from which the disk keeps its changes.
    pub fn begin(&mut self)
        ensures named { D.Disk.moment self.new.disk ≡ 0 }
        ensures files { files D.Disk.seen self.new ≡ files D.Disk.seen self.old }
        ensures up { self.new.up ≡ self.old.up }
        ensures sizes { self.new.sizes ≡ self.old.sizes }
        ensures refusal { self.new.refusal ≡ self.old.refusal }
        ensures crash { (left : _) → may_hold D.Disk.may_leave self.new left ↔ may_hold D.Disk.may_leave self.old left }
        ensures tells { D.Disk.tells_crash self.new.disk ≡ D.Disk.tells_crash self.old.disk }
        ensures plan { Both Begins (D.Disk.plan self.old.disk) (D.Disk.plan self.new.disk) }
        ensures faults { D.Disk.faults self.new.disk ≡ D.Disk.faults self.old.disk }
    {
        self.disk.begin();
    }

    /// Lets so many changes of the disk pass and fails each later one.
    pub fn stop_after(&mut self, changes: u32)
        ensures moment { D.Disk.moment self.new.disk ≡ D.Disk.moment self.old.disk }
        ensures time { (since : ℕ) (left : _) → held_since D.Disk.left_since self.new since left ↔ held_since D.Disk.left_since self.old since left }
        ensures files { files D.Disk.seen self.new ≡ files D.Disk.seen self.old }
        ensures up { self.new.up ≡ self.old.up }
        ensures sizes { self.new.sizes ≡ self.old.sizes }
        ensures refusal { self.new.refusal ≡ self.old.refusal }
        ensures crash { (left : _) → may_hold D.Disk.may_leave self.new left ↔ may_hold D.Disk.may_leave self.old left }
        ensures tells { D.Disk.tells_crash self.new.disk ≡ D.Disk.tells_crash self.old.disk }
        ensures plan { Both (Stops (D.Disk.tells_crash self.old.disk) changes) (D.Disk.plan self.old.disk) (D.Disk.plan self.new.disk) }
        ensures faults { D.Disk.faults self.new.disk ≡ D.Disk.faults self.old.disk }
    {
        self.disk.stop_after(changes);
    }
}
