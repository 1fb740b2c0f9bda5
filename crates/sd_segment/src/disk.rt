//! The disk of a segment's server.
ghost use Rattle.std.specs.Prelude.{◌≡◌, [], Some, None, IfSome, IfOk};
ghost use Rattle.std.specs.Option.{option_and_then};
ghost use Rattle.sd_config.specs.Config.{IsSwap};
ghost use Rattle.sd_services.specs.Part.{swap_files};
ghost use Rattle.sd_stable_disk.specs.Image.{held};

use sd_config::SwapLine;
use sd_outside::{ByteList, CalmDisk, Disk, NoMemory};
use sd_stable_disk::image_of;
use std::alloc::Global;

/// The image of the files of the start.
fn new_image(alloc: Global, swap: &Option<SwapLine>) -> Result<ByteList, NoMemory>
    requires { IfSome swap.now IsSwap }
    ensures { IfOk result (λ image. held image ≡ Some (swap_files swap.now)) }
{
    match swap {
        Some(swap) => Ok(image_of(alloc, &[swap.size])?),
        None => Ok(image_of(alloc, &[])?),
    }
}

/// A disk that never fails, with the files of the start: the swap file's zeros, or no file where there is no swap line.
pub fn new_disk(alloc: Global, swap: &Option<SwapLine>) -> Result<CalmDisk, NoMemory>
    requires { IfSome swap.now IsSwap }
    ensures { IfOk result (λ disk. option_and_then held (⟦<CalmDisk as Disk>⟧.seen disk) ≡ Some (swap_files swap.now)) }
{
    let image = new_image(alloc, swap)?;
    Ok(CalmDisk::new(alloc, image.as_slice())?)
}
