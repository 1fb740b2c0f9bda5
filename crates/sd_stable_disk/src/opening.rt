//! What an opening reads.
ghost use Rattle.std.specs.Prelude.{◌≡◌, ◌⊎◌, ◌+◌, length, OnOk, IfOk, IfErr, IfSome, IsOk, Err};
ghost use Rattle.std.specs.Option.{option_map};
ghost use Rattle.sd_outside.specs.Disk.{Only, LeavesOnly};
ghost use Rattle.sd_outside.specs.DiskPlan.{Both, Makes};
ghost use Rattle.sd_stable_disk.specs.Image.{opens, total, AreSizes};
ghost use Rattle.sd_stable_disk.specs.Files.{OpensAs, TellsSizes, IsShut, IsRefused, HasFault};
ghost use Rattle.sd_stable_disk.specs.declared.errors.OpenError.TheVariants.{DiskFault as OpenFault};

use crate::OpenError;
use crate::head::{HOMES, read_head};
use crate::recovery::settle_journal;
use sd_outside::Disk;
use std::alloc::Global;

/// The sizes of the files on a disk, which is settled.
pub(crate) fn load<D: Disk>(
    alloc: Global,
    disk: &mut D,
    buffer: &mut Vec<u8>,
) -> Result<Vec<u64>, OpenError>
    requires room { length buffer.old.items ≡ 8256 }

    ensures fit { IfOk result (λ sizes. AreSizes sizes.items) }
    ensures whole { IfOk result (λ sizes. D.size disk.new ≡ 16384 + total sizes.items) }
    ensures told { IfOk result (λ sizes. TellsSizes (D.seen disk.new) sizes.items) }
    ensures durable { OnOk result (Only (D.seen disk.new) (D.may_leave disk.new)) }
    ensures shut { OnOk result (IsShut (D.seen disk.new)) }
    ensures readable { OnOk result (IfSome (D.seen disk.old) (λ image. IsOk (opens image))) }

    // Refused or not, the image opens as before.
    ensures same { option_map opens (D.seen disk.new) ≡ option_map opens (D.seen disk.old) }
    ensures size { D.size disk.new ≡ D.size disk.old }
    ensures tells { D.tells_crash disk.new ≡ D.tells_crash disk.old }
    ensures room { length buffer.new.items ≡ length buffer.old.items }
    ensures crash { (image : _) → D.may_leave disk.new image → D.may_leave disk.old image ⊎ OpensAs (D.seen disk.old) image }
    ensures moments { LeavesOnly D.moment D.left_since disk.old disk.new (λ image. D.may_leave disk.old image ⊎ OpensAs (D.seen disk.old) image) }

    ensures refused { IfErr result (IsRefused (D.seen disk.old)) }
    ensures plan { Both (Makes 5 4 (result ≡ Err OpenFault)) (D.plan disk.old) (D.plan disk.new) }
    ensures cause { HasFault (D.faults disk.old) (D.faults disk.new) (result ≡ Err OpenFault) }
{
    disk.sync()?;
    let size = disk.len()?;
    if size < HOMES {
        return Err(OpenError::Damaged { at: size });
    }
    let mut head = [0; 512];
    disk.read(0, &mut head)?;
    let sizes = read_head(alloc, &head, size)?;
    settle_journal(disk, buffer, &sizes)?;
    Ok(sizes)
}
