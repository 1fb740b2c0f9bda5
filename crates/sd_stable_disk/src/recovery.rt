//! What an open gate asks for.
ghost use Rattle.std.specs.Prelude.{◌≡◌, ◌≢◌, ◌+◌, ◌≤◌, length, OnOk, IfErr, IfSome, IsOk, Err};
ghost use Rattle.std.specs.Option.{option_map};
ghost use Rattle.sd_outside.specs.Disk.{Only, LeavesOnly};
ghost use Rattle.sd_outside.specs.DiskPlan.{Both, Makes};
ghost use Rattle.sd_stable_disk.specs.Image.{opens, total, AreSizes};
ghost use Rattle.sd_stable_disk.specs.Files.{OpensAs, TellsSizes, IsShut, IsRefused, HasFault};
ghost use Rattle.sd_stable_disk.specs.declared.errors.OpenError.TheVariants.{DiskFault as OpenFault, NoMemory as NoRoom};

use crate::OpenError;
use crate::entry::{ENTRY, read_entry};
use crate::gate::{GATE, JOURNAL, home};
use crate::head::home_place;
use sd_outside::Disk;

/// How many bytes a buffer has: the head of a journal and the bytes of a write.
pub(crate) const BUFFER: usize = 8256;

/// Brings home what the journal holds, where the gate is open. What is read on the disk is all on it.
pub(crate) fn settle_journal<D: Disk>(
    disk: &mut D,
    buffer: &mut Vec<u8>,
    sizes: &[u64],
) -> Result<(), OpenError>
    requires only { Only (D.seen disk.old) (D.may_leave disk.old) }
    requires fit { AreSizes sizes.now }
    requires whole { D.size disk.old ≡ 16384 + total sizes.now }
    requires told { TellsSizes (D.seen disk.old) sizes.now }
    requires room { length buffer.old.items ≡ 8256 }

    ensures durable { OnOk result (Only (D.seen disk.new) (D.may_leave disk.new)) }
    ensures shut { OnOk result (IsShut (D.seen disk.new)) }
    ensures readable { OnOk result (IfSome (D.seen disk.old) (λ image. IsOk (opens image))) }

    // Refused or not, the image opens as before.
    ensures same { option_map opens (D.seen disk.new) ≡ option_map opens (D.seen disk.old) }
    ensures told { TellsSizes (D.seen disk.new) sizes.now }
    ensures size { D.size disk.new ≡ D.size disk.old }
    ensures tells { D.tells_crash disk.new ≡ D.tells_crash disk.old }
    ensures room { length buffer.new.items ≡ length buffer.old.items }
    ensures crash { (image : _) → D.may_leave disk.new image → OpensAs (D.seen disk.old) image }
    ensures moments { LeavesOnly D.moment D.left_since disk.old disk.new (OpensAs (D.seen disk.old)) }

    ensures refused { IfErr result (IsRefused (D.seen disk.old)) }
    ensures memory { result ≢ Err NoRoom }
    ensures plan { Both (Makes 4 3 (result ≡ Err OpenFault)) (D.plan disk.old) (D.plan disk.new) }
    ensures cause { HasFault (D.faults disk.old) (D.faults disk.new) (result ≡ Err OpenFault) }
{
    let mut gate = [0; 1];
    disk.read(GATE, &mut gate)?;
    if gate[0] != 1 {
        return Ok(());
    }
    let mut head = [0; 16];
    disk.read(JOURNAL, &mut head)?;
    let entry = read_entry(&head, sizes)?;
    let bytes = &mut buffer[ENTRY..ENTRY + entry.len];
    disk.read(JOURNAL + 64, bytes)?;
    home(disk, home_place(sizes, entry.file) + entry.at, bytes)?;
    Ok(())
}
