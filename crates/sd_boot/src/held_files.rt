//! The text of the files that a store holds.
ghost use Rattle.std.specs.Prelude.{◌≡◌, ◌+◌, ◌<◌, ◌≤◌, ◌++◌, [], length, slice_index, slice_index_or, true, OnOk, IfOk, IfSome, IsTrue};
ghost use Rattle.sd_outside.specs.Ranges.{part};
ghost use Rattle.sd_stable_disk.specs.Files.{files};
ghost use Rattle.sd_boot.specs.Images.{file_line, files_text, HasSizes};

use sd_outside::{ByteList, CalmDisk, Disk, NoMemory};
use sd_script::{push_number, write_runs};
use sd_stable_disk::Store;
use std::alloc::Global;

/// How many bytes of a file are read at once.
const PIECE: usize = 8192;

/// Adds so many bytes of a file from a place on. They are read into the buffer.
fn push_piece(
    store: &mut Store<CalmDisk>,
    file: u32,
    at: u64,
    count: usize,
    buffer: &mut Vec<u8>,
    bytes: &mut ByteList,
) -> Result<(), NoMemory>
    requires up { IsTrue store.old.up }
    requires file { file < length store.old.sizes }
    requires range { at + count ≤ slice_index store.old.sizes file }
    requires short { count ≤ 8192 }
    requires room { length buffer.old.items ≡ 8192 }
    ensures bytes { OnOk result (IfSome (files ⟦<CalmDisk as Disk>⟧.seen store.old) (λ files. bytes.new ≡ bytes.old ++ part at count (slice_index_or files file []))) }
    ensures room { length buffer.new.items ≡ length buffer.old.items }
    ensures files { files ⟦<CalmDisk as Disk>⟧.seen store.new ≡ files ⟦<CalmDisk as Disk>⟧.seen store.old }
    ensures up { store.new.up ≡ true }
    ensures sizes { store.new.sizes ≡ store.old.sizes }
{
    let piece = &mut buffer[..count];
    // A calm disk has no fault.
    let _ = store.read(file, at, piece);
    bytes.push_slice(piece)
}

fn take_piece(alloc: Global) -> Result<Vec<u8>, NoMemory>
    ensures { IfOk result (λ piece. length piece.items ≡ 8192) }
{
    Ok(vec![in alloc; 0; PIECE]?)
}

/// The bytes of a file of that size.
fn file_bytes(
    alloc: Global,
    store: &mut Store<CalmDisk>,
    file: u32,
    size: u64,
) -> Result<ByteList, NoMemory>
    requires up { IsTrue store.old.up }
    requires file { file < length store.old.sizes }
    requires size { size ≡ slice_index store.old.sizes file }
    requires sizes { HasSizes (files ⟦<CalmDisk as Disk>⟧.seen store.old) store.old.sizes }
    ensures bytes { IfOk result (λ bytes. IfSome (files ⟦<CalmDisk as Disk>⟧.seen store.old) (λ files. bytes ≡ slice_index_or files file [])) }
    ensures files { files ⟦<CalmDisk as Disk>⟧.seen store.new ≡ files ⟦<CalmDisk as Disk>⟧.seen store.old }
    ensures up { store.new.up ≡ true }
    ensures sizes { store.new.sizes ≡ store.old.sizes }
{
    let mut bytes = ByteList::empty(alloc);
    let mut buffer = take_piece(alloc)?;
    let mut at = 0;
    'reading: while at < size {
        let count = (size - at).min(PIECE as u64);
        push_piece(store, file, at, count as usize, &mut buffer, &mut bytes)?;
        at += count;
    }
    Ok(bytes)
}

/// Adds the line of a file.
fn push_line(alloc: Global, text: &mut ByteList, file: u32, bytes: &[u8]) -> Result<(), NoMemory>
    ensures { OnOk result (text.new ≡ text.old ++ file_line file bytes.now) }
{
    text.push_slice(b"file ")?;
    push_number(alloc, text, u64::from(file))?;
    text.push_slice(b" ")?;
    push_number(alloc, text, bytes.len() as u64)?;
    text.push_slice(b" ")?;
    write_runs(alloc, bytes, text)?;
    text.push_slice(b"\n")
}

/// The text of the files that a store holds.
pub(crate) fn files_text(alloc: Global, store: &mut Store<CalmDisk>) -> Result<ByteList, NoMemory>
    requires up { IsTrue store.old.up }
    requires few { length store.old.sizes ≤ 16 }
    requires sizes { HasSizes (files ⟦<CalmDisk as Disk>⟧.seen store.old) store.old.sizes }
    ensures { IfOk result (λ text. IfSome (files ⟦<CalmDisk as Disk>⟧.seen store.old) (λ files. text ≡ files_text files)) }
{
    let count = store.sizes().len();
    let mut text = ByteList::from_slice(alloc, b"image files ")?;
    push_number(alloc, &mut text, count as u64)?;
    text.push_slice(b"\n")?;
    for file in 0..count as u32 {
        let size = store.sizes()[file as usize];
        let bytes = file_bytes(alloc, store, file, size)?;
        push_line(alloc, &mut text, file, bytes.as_slice())?;
    }
    Ok(text)
}
