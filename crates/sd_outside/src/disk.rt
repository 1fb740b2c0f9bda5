//! Disks, and what a crash leaves of them.
//!
//! A disk may tell what a read gives, what a crash leaves, and its planned faults. The clauses on what it doesn't tell say nothing.
ghost use Rattle.std.specs.Prelude.{◌≡◌, ◌⊎◌, ◌+◌, ◌≤◌, ℕ, Bool, List, length, Option, Some, IsSome, IsSomeAnd, IsTrue, IfSome, IfOk, OnOk, OnErr, IsErr, ◌<◌};
ghost use Rattle.std.specs.Option.{option_map};
ghost use Rattle.sd_outside.specs.Causes.{HasCause};
ghost use Rattle.sd_outside.specs.Ranges.{part, put, Torn};
ghost use Rattle.sd_outside.specs.Disk.{Only, Follows, LeavesNoMore, LeavesSame, Elapses, Unchanged};
ghost use Rattle.sd_outside.specs.DiskPlan.{Plan, Both, Answers, TooLong, Begins, Stops, Restarts};
ghost use Rattle.sd_outside.specs.Moments.{Unsynced, marked, all_synced, LeavesUnsynced, crashed};

use crate::Failed;

/// A disk of fixed length. A crash may leave any bytes in a range that was written since the last sync, and leaves all others.
pub trait Disk {
    /// How many bytes it has. It never changes.
    ghost size: { Self → ℕ };

    /// The bytes that a read gives, where they are told.
    ghost seen: { Self → Option (List ℕ) };

    /// The disk tells what a crash leaves. One that doesn't has no outcomes, so that nothing is said of them.
    ghost tells_crash: { Self → Bool };

    /// Which bytes were written since the last sync, and all bytes as they were then, where they are told.
    ghost unsynced: { Self → Option Unsynced };

    /// What a crash at this moment may leave.
    ghost may_leave: { Self → List ℕ → Type 0 };

    /// The moment, counted from the named one.
    ghost moment: { Self → ℕ };

    /// What a crash at some moment from that one on might have left.
    ghost left_since: { Self → ℕ → List ℕ → Type 0 };

    /// The planned faults, the stop and the room, where they are told.
    ghost plan: { Self → Option Plan };

    /// How often a call failed. It never falls.
    ghost faults: { Self → ℕ };

    /// How many bytes it has. `Failed` comes only where the count of faults rose, and never where the plan is told.
    fn len(&mut self) -> Result<u64, Failed>
        ensures len { IfOk result (λ len. len ≡ size self.old) }
        ensures size { size self.new ≡ size self.old }
        ensures seen { seen self.new ≡ seen self.old }
        ensures tells { tells_crash self.new ≡ tells_crash self.old }
        ensures crash { LeavesNoMore (may_leave self.old) (may_leave self.new) }
        ensures time { Elapses (moment self.old) (moment self.new) (left_since self.old) (left_since self.new) (may_leave self.new) }
        ensures unsynced { unsynced self.new ≡ unsynced self.old }
        ensures plan { plan self.new ≡ plan self.old }
        ensures told { IsSome (plan self.old) → IsErr result → ⊥ }
        ensures cause { HasCause (faults self.old) (faults self.new) result };

    /// The bytes from `at`. `Failed` comes only where the count of faults rose.
    fn read(&mut self, at: u64, into: &mut [u8]) -> Result<(), Failed>
        requires { at + length into.old ≤ size self.old }
        ensures read { OnOk result (IfSome (seen self.old) (λ bytes. into.new ≡ part at (length into.old) bytes)) }
        ensures size { size self.new ≡ size self.old }
        ensures seen { seen self.new ≡ seen self.old }
        ensures tells { tells_crash self.new ≡ tells_crash self.old }
        ensures crash { LeavesNoMore (may_leave self.old) (may_leave self.new) }
        ensures time { Elapses (moment self.old) (moment self.new) (left_since self.old) (left_since self.new) (may_leave self.new) }
        ensures unsynced { unsynced self.new ≡ unsynced self.old }
        ensures plan { Both (Answers 0 1 ⊥ (IsErr result)) (plan self.old) (plan self.new) }
        ensures cause { HasCause (faults self.old) (faults self.new) result };

    /// Writes over the bytes from `at`. A write that fails may have put any bytes into its range, which then counts as
    /// written; where the plan is told it did nothing. `Failed` comes only where the count of faults rose.
    fn write(&mut self, at: u64, bytes: &[u8]) -> Result<(), Failed>
        requires { at + length bytes.now ≤ size self.old }
        ensures written { OnOk result (seen self.new ≡ option_map (put at bytes.now) (seen self.old)) }
        ensures size { size self.new ≡ size self.old }
        ensures seen { Both (Torn at (length bytes.now)) (seen self.old) (seen self.new) }
        ensures tells { tells_crash self.new ≡ tells_crash self.old }
        ensures crash { Follows (Torn at (length bytes.now)) (may_leave self.old) (may_leave self.new) }
        ensures time { Elapses (moment self.old) (moment self.new) (left_since self.old) (left_since self.new) (may_leave self.new) }
        ensures unsynced { (unsynced self.new ≡ option_map (marked at (length bytes.now)) (unsynced self.old)) ⊎ (IsErr result × (unsynced self.new ≡ unsynced self.old)) }
        ensures plan { Both (Answers 1 0 (TooLong (tells_crash self.old) (length bytes.now)) (IsErr result)) (plan self.old) (plan self.new) }
        ensures undone { IsSome (plan self.old) → IsErr result → Unchanged seen unsynced may_leave moment left_since self.old self.new }
        ensures cause { HasCause (faults self.old) (faults self.new) result };

    /// After `Ok` a crash leaves what a read gives. A sync that fails where the plan is told did nothing. `Failed` comes only
    /// where the count of faults rose.
    fn sync(&mut self) -> Result<(), Failed>
        ensures durable { OnOk result (Only (seen self.old) (may_leave self.new)) }
        ensures size { size self.new ≡ size self.old }
        ensures seen { seen self.new ≡ seen self.old }
        ensures tells { tells_crash self.new ≡ tells_crash self.old }
        ensures crash { LeavesNoMore (may_leave self.old) (may_leave self.new) }
        ensures time { Elapses (moment self.old) (moment self.new) (left_since self.old) (left_since self.new) (may_leave self.new) }
        ensures unsynced { OnOk result (IfSome (seen self.old) (λ bytes. unsynced self.new ≡ option_map (λ _. all_synced bytes) (unsynced self.old))) }
        ensures plan { Both (Answers 1 0 ⊥ (IsErr result)) (plan self.old) (plan self.new) }
        ensures undone { IsSome (plan self.old) → IsErr result → Unchanged seen unsynced may_leave moment left_since self.old self.new }
        ensures cause { HasCause (faults self.old) (faults self.new) result };

    /// What a read gives is as long as the disk.
    ghost is_whole: { (disk : Self) (bytes : List ℕ) → seen disk ≡ Some bytes → length bytes ≡ size disk };

    /// A disk that tells what a crash leaves tells what a read gives.
    ghost tells_seen: { (disk : Self) → IsTrue (tells_crash disk) → IsSome (seen disk) };

    /// A disk that tells what a crash leaves tells what is unsynced.
    ghost tells_unsynced: { (disk : Self) → IsTrue (tells_crash disk) → IsSome (unsynced disk) };

    /// A crash may leave any bytes where something is unsynced, and leaves the others.
    ghost leaves_unsynced: { (disk : Self) → IfSome (seen disk) (λ bytes. IfSome (unsynced disk) (λ unsynced. LeavesUnsynced bytes unsynced (may_leave disk))) };

    /// A crash may leave what was written.
    ghost seen_may_stay: { (disk : Self) (bytes : List ℕ) → IsTrue (tells_crash disk) → seen disk ≡ Some bytes → may_leave disk bytes };

    /// This moment is one of those since an earlier one.
    ghost counts_now: { (disk : Self) (since : ℕ) (image : List ℕ) → since ≤ moment disk → may_leave disk image → left_since disk since image };

    /// Since this moment there is no other.
    ghost only_now: { (disk : Self) (image : List ℕ) → left_since disk (moment disk) image → may_leave disk image };
}

/// A disk that can be stopped after some changes and made to crash. A change is a write or a sync.
pub trait StopDisk: Disk {
    /// Names this moment as the one from which the disk keeps its changes. There is room for 64 of them.
    fn begin(&mut self)
        ensures named { Self.Disk.moment self.new ≡ 0 }
        ensures size { Self.Disk.size self.new ≡ Self.Disk.size self.old }
        ensures seen { Self.Disk.seen self.new ≡ Self.Disk.seen self.old }
        ensures unsynced { Self.Disk.unsynced self.new ≡ Self.Disk.unsynced self.old }
        ensures tells { Self.Disk.tells_crash self.new ≡ Self.Disk.tells_crash self.old }
        ensures crash { LeavesSame (Self.Disk.may_leave self.old) (Self.Disk.may_leave self.new) }
        ensures plan { Both Begins (Self.Disk.plan self.old) (Self.Disk.plan self.new) }
        ensures faults { Self.Disk.faults self.new ≡ Self.Disk.faults self.old };

    /// Lets so many changes pass and fails each later one, until `crash`. A disk that tells no crash sets no stop.
    fn stop_after(&mut self, changes: u32)
        ensures size { Self.Disk.size self.new ≡ Self.Disk.size self.old }
        ensures seen { Self.Disk.seen self.new ≡ Self.Disk.seen self.old }
        ensures unsynced { Self.Disk.unsynced self.new ≡ Self.Disk.unsynced self.old }
        ensures tells { Self.Disk.tells_crash self.new ≡ Self.Disk.tells_crash self.old }
        ensures crash { LeavesSame (Self.Disk.may_leave self.old) (Self.Disk.may_leave self.new) }
        ensures moment { Self.Disk.moment self.new ≡ Self.Disk.moment self.old }
        ensures time { (since : ℕ) → LeavesSame (Self.Disk.left_since self.old since) (Self.Disk.left_since self.new since) }
        ensures plan { Both (Stops (Self.Disk.tells_crash self.old) changes) (Self.Disk.plan self.old) (Self.Disk.plan self.new) }
        ensures faults { Self.Disk.faults self.new ≡ Self.Disk.faults self.old };

    /// Each byte that was written since the last sync becomes what it was then (0), stays as it is (1), stays at even places
    /// and becomes what it was at odd ones (2), or becomes A5 (3). Nothing is unsynced then, so that a crash leaves just that.
    /// There is no stop any more.
    fn crash(&mut self, outcome: u8)
        requires { outcome ≤ 3 }
        ensures picked { IsSomeAnd (Self.Disk.seen self.old) (λ bytes. Self.Disk.seen self.new ≡ Some (crashed outcome bytes (Self.Disk.unsynced self.old))) }
        ensures synced { IfSome (Self.Disk.seen self.new) (λ bytes. Self.Disk.unsynced self.new ≡ option_map (λ _. all_synced bytes) (Self.Disk.unsynced self.old)) }
        ensures only { Only (Self.Disk.seen self.new) (Self.Disk.may_leave self.new) }
        ensures size { Self.Disk.size self.new ≡ Self.Disk.size self.old }
        ensures tells { Self.Disk.tells_crash self.new ≡ Self.Disk.tells_crash self.old }
        ensures plan { Both Restarts (Self.Disk.plan self.old) (Self.Disk.plan self.new) }
        ensures faults { Self.Disk.faults self.new ≡ Self.Disk.faults self.old };

    /// Each outcome is one that a crash may leave.
    ghost may_happen: { (disk : Self) (outcome : ℕ) → outcome ≤ 3 → IsTrue (Self.Disk.tells_crash disk) → IfSome (Self.Disk.seen disk) (λ bytes. Self.Disk.may_leave disk (crashed outcome bytes (Self.Disk.unsynced disk))) };

    /// Its plan is told.
    ghost tells_plan: { (disk : Self) → IsSome (Self.Disk.plan disk) };
}
