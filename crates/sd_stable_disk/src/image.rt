//! New images.
ghost use Rattle.std.specs.Prelude.{◌≡◌, ◌+◌, ◌++◌, OnOk, IfOk, replicate, take};
ghost use Rattle.std.specs.List.{flat_map};
ghost use Rattle.std.specs.Int.{w32, w64, to_be_bytes};
ghost use Rattle.sd_stable_disk.specs.Image.{holds, new_image, zero_files, total, AreSizes};

use crate::head::{FORMAT_NAME, HOMES, rounded_size};
use sd_outside::{ByteList, NoMemory};
use std::alloc::Global;

/// How many zeros are put at once.
const CHUNK: usize = 4096;

/// The image of files of zeros.
pub fn image_of(alloc: Global, sizes: &[u64]) -> Result<ByteList, NoMemory>
    requires { AreSizes sizes.now }
    ensures image { IfOk result (λ image. image ≡ new_image sizes.now) }
    ensures holds { IfOk result (λ image. holds image (zero_files sizes.now)) }
{
    let mut image = ByteList::empty(alloc);
    image.push_slice(&FORMAT_NAME)?;
    image.push_slice(&1_u32.to_be_bytes())?;
    image.push_slice(&(sizes.len() as u32).to_be_bytes())?;
    push_sizes(&mut image, sizes)?;
    let length = HOMES as usize + room_of(sizes);
    let head = image.as_slice().len();
    push_zeros(&mut image, length - head)?;
    Ok(image)
}

/// The room that all the files take.
fn room_of(sizes: &[u64]) -> usize
    requires { AreSizes sizes.now }
    ensures { result ≡ total sizes.now }
{
    let mut room = 0;
    for size in sizes {
        room += rounded_size(*size) as usize;
    }
    room
}

fn push_sizes(image: &mut ByteList, sizes: &[u64]) -> Result<(), NoMemory>
    ensures { OnOk result (image.new ≡ image.old ++ flat_map (to_be_bytes w64) sizes.now) }
{
    for size in sizes {
        image.push_slice(&size.to_be_bytes())?;
    }
    Ok(())
}

fn push_zeros(image: &mut ByteList, count: usize) -> Result<(), NoMemory>
    ensures { OnOk result (image.new ≡ image.old ++ replicate count 0) }
{
    let zeros = [0; CHUNK];
    let mut left = count;
    while left > 0 {
        let some = left.min(CHUNK);
        image.push_slice(&zeros[..some])?;
        left -= some;
    }
    Ok(())
}
