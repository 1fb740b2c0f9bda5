//! The two halves of a write: into the journal, and home. The gate stands between them.
ghost use Rattle.std.specs.Prelude.{◌≡◌, ◌+◌, ◌≤◌, length, OnOk, IsErr};
ghost use Rattle.std.specs.Option.{option_map};
ghost use Rattle.sd_outside.specs.Causes.{HasCause};
ghost use Rattle.sd_outside.specs.Disk.{Only, LeavesOnly};
ghost use Rattle.sd_outside.specs.DiskPlan.{Both, Makes};
ghost use Rattle.sd_stable_disk.specs.Run.{MidWrite, Midway, gated};

use sd_outside::{Disk, Failed};

/// Where the gate stands.
pub(crate) const GATE: u64 = 512;

/// Where the journal begins.
pub(crate) const JOURNAL: u64 = 1024;

/// Puts a write into the journal, and opens the gate once it is on the disk.
pub(crate) fn journal<D: Disk>(disk: &mut D, entry: &[u8]) -> Result<(), Failed>
    requires only { Only (D.seen disk.old) (D.may_leave disk.old) }
    requires fits { 1024 + length entry.now ≤ D.size disk.old }
    requires short { length entry.now ≤ 8256 }
    ensures done { OnOk result (D.seen disk.new ≡ option_map (gated 1024 entry.now 1) (D.seen disk.old)) }
    ensures durable { OnOk result (Only (D.seen disk.new) (D.may_leave disk.new)) }
    ensures size { D.size disk.new ≡ D.size disk.old }
    ensures tells { D.tells_crash disk.new ≡ D.tells_crash disk.old }
    ensures seen { Both (MidWrite 1024 entry.now) (D.seen disk.old) (D.seen disk.new) }
    ensures crash { (image : _) → D.may_leave disk.new image → Midway 1024 entry.now (D.seen disk.old) image }
    ensures moments { LeavesOnly D.moment D.left_since disk.old disk.new (Midway 1024 entry.now (D.seen disk.old)) }
    ensures plan { Both (Makes 4 0 (IsErr result)) (D.plan disk.old) (D.plan disk.new) }
    ensures cause { HasCause (D.faults disk.old) (D.faults disk.new) result }
{
    disk.write(JOURNAL, entry)?;
    disk.sync()?;
    disk.write(GATE, &[1])?;
    disk.sync()
}

/// Writes to a home, and shuts the gate once that is on the disk.
pub(crate) fn home<D: Disk>(disk: &mut D, at: u64, bytes: &[u8]) -> Result<(), Failed>
    requires only { Only (D.seen disk.old) (D.may_leave disk.old) }
    requires fits { at + length bytes.now ≤ D.size disk.old }
    requires far { 16384 ≤ at }
    requires short { length bytes.now ≤ 8256 }
    ensures done { OnOk result (D.seen disk.new ≡ option_map (gated at bytes.now 0) (D.seen disk.old)) }
    ensures durable { OnOk result (Only (D.seen disk.new) (D.may_leave disk.new)) }
    ensures size { D.size disk.new ≡ D.size disk.old }
    ensures tells { D.tells_crash disk.new ≡ D.tells_crash disk.old }
    ensures seen { Both (MidWrite at bytes.now) (D.seen disk.old) (D.seen disk.new) }
    ensures crash { (image : _) → D.may_leave disk.new image → Midway at bytes.now (D.seen disk.old) image }
    ensures moments { LeavesOnly D.moment D.left_since disk.old disk.new (Midway at bytes.now (D.seen disk.old)) }
    ensures plan { Both (Makes 4 0 (IsErr result)) (D.plan disk.old) (D.plan disk.new) }
    ensures cause { HasCause (D.faults disk.old) (D.faults disk.new) result }
{
    disk.write(at, bytes)?;
    disk.sync()?;
    disk.write(GATE, &[0])?;
    disk.sync()
}
