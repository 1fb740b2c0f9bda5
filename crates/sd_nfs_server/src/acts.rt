//! Reads and writes of the swap file in a store that may have to come up first. They take no memory.
ghost use Rattle.std.specs.Prelude.{◌≡◌, ◌≢◌, ◌⊎◌, ◌+◌, ◌<◌, ◌≤◌, [], length, not, true, false, slice_index, is_ok, OnOk, IfErr, IfSome, IsOk, IsSome, Err};
ghost use Rattle.std.specs.Option.{option_map};
ghost use Rattle.std.specs.Result.{result_err};
ghost use Rattle.sd_outside.specs.Ranges.{part};
ghost use Rattle.sd_outside.specs.Disk.{LeavesOnly};
ghost use Rattle.sd_outside.specs.DiskPlan.{Both, Makes};
ghost use Rattle.sd_stable_disk.specs.Image.{written};
ghost use Rattle.sd_stable_disk.specs.Files.{files, may_hold, held_since, IsEither, OnlyHolds, HasFault};
ghost use Rattle.sd_stable_disk.specs.declared.errors.OpenError.TheVariants.{DiskFault as OpenFault, NoMemory as NoRoom};
ghost use Rattle.sd_services.specs.NfsReply.{swap_file, file_in};
ghost use Rattle.sd_nfs_server.specs.Acts.{acted_of, damaged_in, is_refused, is_done, IsFault, HasReason, LeavesOneDoubt};

use crate::status::IO;
use sd_outside::Disk;
use sd_stable_disk::{OpenError, Store, StoreError};

/// The swap file's number in the store.
const SWAP: u32 = 0;

/// What an act did.
#[derive(Clone, Copy, Debug, PartialEq, Eq)]
pub struct Acted {
    /// 0, or 5 where the store refused: NFSERR_IO (RFC 1094, section 2.3.1).
    pub status: u32,
    /// The place at which bringing the store up found its image damaged in this call, 8 for its version.
    pub damaged: Option<u64>,
}

const DONE: Acted = Acted {
    status: 0,
    damaged: None,
};

const FAILED: Acted = Acted {
    status: IO,
    damaged: None,
};

fn refused(error: OpenError) -> Acted
    ensures { result ≡ acted_of error }
{
    let damaged = match error {
        OpenError::DiskFault | OpenError::NoMemory => None,
        OpenError::Damaged { at } => Some(at),
        OpenError::Version { .. } => Some(8),
    };
    Acted {
        status: IO,
        damaged,
    }
}

/// Recovers the store where it is down.
fn rise<D: Disk>(store: &mut Store<D>) -> Result<(), OpenError>
    ensures up { store.new.up ≡ is_ok result }
    ensures kept { store.old.up ≡ true → (store.new ≡ store.old) × IsOk result }
    ensures sizes { store.new.sizes ≡ store.old.sizes }
    ensures refusal { store.old.up ≡ false → store.new.refusal ≡ result_err result }
    ensures files { files D.seen store.new ≡ files D.seen store.old }
    ensures durable { store.old.up ≡ false → OnOk result (OnlyHolds (files D.seen store.new) (may_hold D.may_leave store.new)) }
    ensures crash { (left : _) → may_hold D.may_leave store.new left → may_hold D.may_leave store.old left ⊎ (left ≡ files D.seen store.old) }
    ensures moments { LeavesOnly (λ store. D.moment store.disk) (held_since D.left_since) store.old store.new (λ left. may_hold D.may_leave store.old left ⊎ (left ≡ files D.seen store.old)) }
    ensures refused { IsSome (files D.seen store.old) → IfErr result (λ error. error ≡ OpenFault) }
    ensures memory { result ≢ Err NoRoom }
    ensures tells { D.tells_crash store.new.disk ≡ D.tells_crash store.old.disk }
    ensures plan { Both (Makes 5 3 (result ≡ Err OpenFault)) (D.plan store.old.disk) (D.plan store.new.disk) }
    ensures cause { HasFault (D.faults store.old.disk) (D.faults store.new.disk) (result ≡ Err OpenFault) }
{
    if store.is_up() {
        return Ok(());
    }
    store.recover()
}

/// Brings the store up where it is down. The files stay.
pub fn bring_up<D: Disk>(store: &mut Store<D>) -> Acted
    ensures up { store.new.up ≡ is_done result }
    ensures kept { store.old.up ≡ true → store.new ≡ store.old }
    ensures sizes { store.new.sizes ≡ store.old.sizes }
    ensures files { files D.seen store.new ≡ files D.seen store.old }
    ensures came_up { store.new.up ≡ not (is_refused store.old.up store.new.refusal) }
    ensures durable { store.old.up ≡ false → result.status ≡ 0 → OnlyHolds (files D.seen store.new) (may_hold D.may_leave store.new) }
    ensures crash { (left : _) → may_hold D.may_leave store.new left → may_hold D.may_leave store.old left ⊎ (left ≡ files D.seen store.old) }
    ensures moments { LeavesOnly (λ store. D.moment store.disk) (held_since D.left_since) store.old store.new (λ left. may_hold D.may_leave store.old left ⊎ (left ≡ files D.seen store.old)) }
    ensures damaged { result.damaged ≡ damaged_in store.old.up store.new.refusal }
    ensures tells { D.tells_crash store.new.disk ≡ D.tells_crash store.old.disk }
    ensures plan { Both (Makes 5 3 (IsFault result)) (D.plan store.old.disk) (D.plan store.new.disk) }
    ensures reason { HasReason (IsSome (files D.seen store.old)) (D.faults store.old.disk) (D.faults store.new.disk) result }
{
    match rise(store) {
        Ok(()) => DONE,
        Err(error) => refused(error),
    }
}

/// Reads bytes of the swap file, after the store was brought up where it was down. The files stay.
pub fn act_read<D: Disk>(store: &mut Store<D>, at: u64, into: &mut [u8]) -> Acted
    requires file { swap_file < length store.old.sizes }
    requires range { at + length into.old ≤ slice_index store.old.sizes swap_file }
    requires short { length into.old ≤ 8192 }
    ensures read { result.status ≡ 0 → IfSome (files D.seen store.old) (λ stored. into.new ≡ part at (length into.old) (file_in stored swap_file)) }
    ensures files { files D.seen store.new ≡ files D.seen store.old }
    ensures up { result.status ≡ 0 → store.new.up ≡ true }
    ensures came_up { store.new.up ≡ not (is_refused store.old.up store.new.refusal) }
    ensures sizes { store.new.sizes ≡ store.old.sizes }
    ensures durable { store.new.up ≡ true → OnlyHolds (files D.seen store.old) (may_hold D.may_leave store.new) }
    ensures crash { (left : _) → may_hold D.may_leave store.new left → may_hold D.may_leave store.old left ⊎ (left ≡ files D.seen store.old) }
    ensures moments { LeavesOnly (λ store. D.moment store.disk) (held_since D.left_since) store.old store.new (λ left. may_hold D.may_leave store.old left ⊎ (left ≡ files D.seen store.old)) }
    ensures damaged { result.damaged ≡ damaged_in store.old.up store.new.refusal }
    ensures tells { D.tells_crash store.new.disk ≡ D.tells_crash store.old.disk }
    ensures plan { Both (Makes 5 4 (IsFault result)) (D.plan store.old.disk) (D.plan store.new.disk) }
    ensures reason { HasReason (IsSome (files D.seen store.old)) (D.faults store.old.disk) (D.faults store.new.disk) result }
{
    match rise(store) {
        Ok(()) => match store.read(SWAP, at, into) {
            Ok(()) => DONE,
            Err(StoreError::DiskFault) => FAILED,
        },
        Err(error) => refused(error),
    }
}

/// Writes bytes of the swap file, after the store was brought up where it was down. At status 0 each crash leaves them. At
/// another the store is down, with the whole write or without it.
pub fn act_write<D: Disk>(store: &mut Store<D>, at: u64, bytes: &[u8]) -> Acted
    requires file { swap_file < length store.old.sizes }
    requires range { at + length bytes.now ≤ slice_index store.old.sizes swap_file }
    requires short { length bytes.now ≤ 8192 }
    ensures written { result.status ≡ 0 → files D.seen store.new ≡ option_map (written swap_file at bytes.now) (files D.seen store.old) }
    ensures durable { result.status ≡ 0 → OnlyHolds (files D.seen store.new) (may_hold D.may_leave store.new) }
    ensures up { store.new.up ≡ is_done result }
    ensures sizes { store.new.sizes ≡ store.old.sizes }
    ensures files { IsEither swap_file at bytes.now (files D.seen store.old) (files D.seen store.new) }
    ensures crash { (left : _) → may_hold D.may_leave store.new left → may_hold D.may_leave store.old left ⊎ IsEither swap_file at bytes.now (files D.seen store.old) left }
    ensures apart { result.status ≡ 5 → LeavesOneDoubt D.seen D.may_leave swap_file at bytes.now store.old store.new (is_refused store.old.up store.new.refusal) }
    ensures came_up { result.status ≡ 0 → is_refused store.old.up store.new.refusal ≡ false }
    ensures moments { LeavesOnly (λ store. D.moment store.disk) (held_since D.left_since) store.old store.new (λ left. may_hold D.may_leave store.old left ⊎ IsEither swap_file at bytes.now (files D.seen store.old) left) }
    ensures damaged { result.damaged ≡ damaged_in store.old.up store.new.refusal }
    ensures tells { D.tells_crash store.new.disk ≡ D.tells_crash store.old.disk }
    ensures plan { Both (Makes 13 3 (IsFault result)) (D.plan store.old.disk) (D.plan store.new.disk) }
    ensures reason { HasReason (IsSome (files D.seen store.old)) (D.faults store.old.disk) (D.faults store.new.disk) result }
{
    match rise(store) {
        Ok(()) => match store.write(SWAP, at, bytes) {
            Ok(()) => DONE,
            Err(StoreError::DiskFault) => FAILED,
        },
        Err(error) => refused(error),
    }
}
