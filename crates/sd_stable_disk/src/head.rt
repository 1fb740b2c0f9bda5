//! The head of an image: how many files, and how large.
ghost use Rattle.std.specs.Prelude.{◌≡◌, ◌⊎◌, ◌+◌, ◌<◌, ◌≤◌, ◌++◌, [], ◌∷◌, OnOk, length, ◌≢◌, MatchResult, IfOk, IfErr, Ok, Err};
ghost use Rattle.sd_outside.specs.Ranges.{part};
ghost use Rattle.sd_stable_disk.specs.Image.{sizes_told, rounded, total, home_of, AreSizes, first_wrong, format_name};
ghost use Rattle.sd_stable_disk.specs.declared.errors.OpenError.TheVariants.{DiskFault as Fault, NoMemory as NoRoom};

use crate::OpenError;
use crate::entry::{word32_at, word64_at};
use sd_outside::NoMemory;
use std::alloc::Global;

/// Where the homes of the files begin.
pub(crate) const HOMES: u64 = 16384;

/// The name of the format, at the front of an image.
pub(crate) const FORMAT_NAME: [u8; 8] = [0x53, 0x44, 0x53, 0x54, 0x4f, 0x52, 0x45, 0x0a];

/// The most files.
const MOST_FILES: u32 = 16;

/// The most bytes of a file.
const LARGEST_FILE: u64 = 33_554_432;

/// The room that all files may take.
const ALL_ROOM: u64 = 50_331_648;

/// The room that a file takes.
pub(crate) fn rounded_size(size: u64) -> u64
    requires { size ≤ 33554432 }
    ensures { result ≡ rounded size }
{
    (size + 8191) / 8192 * 8192
}

/// The first place at which these bytes aren't the name of the format.
fn wrong_name(name: &[u8]) -> Option<usize>
    requires { 8 ≤ length name.now }
    ensures { result ≡ first_wrong 0 format_name (part 0 8 name.now) }
{
    for place in 0..8 {
        if name[place] != FORMAT_NAME[place] {
            return Some(place);
        }
    }
    None
}

/// The sizes of the files, or the first refusal.
pub(crate) fn read_head(alloc: Global, head: &[u8], size: u64) -> Result<Vec<u64>, OpenError>
    requires head { 512 ≤ length head.now }
    requires long { 16384 ≤ size }
    ensures told { MatchResult result (λ sizes. sizes_told size head.now ≡ Ok sizes.items) (λ error. (error ≡ NoRoom) ⊎ (sizes_told size head.now ≡ Err error)) }
    ensures kind { IfErr result (λ error. error ≢ Fault) }
    ensures sizes { IfOk result (λ sizes. AreSizes sizes.items) }
    ensures whole { IfOk result (λ sizes. size ≡ 16384 + total sizes.items) }
{
    if let Some(place) = wrong_name(head) {
        return Err(OpenError::Damaged { at: place as u64 });
    }
    let version = word32_at(head, 8);
    if version != 1 {
        return Err(OpenError::Version { got: version });
    }
    let count = word32_at(head, 12);
    if count > MOST_FILES {
        return Err(OpenError::Damaged { at: 12 });
    }
    let mut sizes = Vec::new(alloc);
    let mut room = ALL_ROOM;
    for file in 0..count as usize {
        let place = 16 + 8 * file;
        let size = word64_at(head, place);
        if size == 0 || size > LARGEST_FILE || rounded_size(size) > room {
            return Err(OpenError::Damaged { at: place as u64 });
        }
        room -= rounded_size(size);
        add(&mut sizes, size)?;
    }
    let wanted = HOMES + (ALL_ROOM - room);
    if size != wanted {
        return Err(OpenError::Damaged {
            at: size.min(wanted),
        });
    }
    Ok(sizes)
}

fn add(sizes: &mut Vec<u64>, size: u64) -> Result<(), NoMemory>
    ensures { OnOk result (sizes.new.items ≡ sizes.old.items ++ size ∷ []) }
{
    sizes.push(size)?;
    Ok(())
}

/// Where the home of a file begins.
pub(crate) fn home_place(sizes: &[u64], file: usize) -> u64
    requires few { AreSizes sizes.now }
    requires file { file < length sizes.now }
    ensures { result ≡ home_of 16384 sizes.now file }
{
    let mut place = HOMES;
    for size in &sizes[..file] {
        place += rounded_size(*size);
    }
    place
}
