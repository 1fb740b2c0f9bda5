//! The write that a journal holds.
ghost use Rattle.std.specs.Prelude.{◌≡◌, ◌+◌, ◌<◌, ◌≤◌, ◌++◌, length, take, replicate, slice_index, ℕ, IfOk, IfErr};
ghost use Rattle.sd_stable_disk.specs.declared.errors.OpenError.TheVariants.{Damaged as Damage};
ghost use Rattle.std.specs.Int.{w32, w64, to_be_bytes};
ghost use Rattle.sd_outside.specs.Ranges.{part, put};
ghost use Rattle.sd_stable_disk.specs.Image.{word32, word64, entry_told, entry_bytes, IsEntryOf};

use crate::OpenError;

/// The write that a journal holds: so many bytes of a file from a place on.
#[derive(Clone, Copy)]
pub(crate) struct Entry {
    pub file: usize,
    pub at: u64,
    pub len: usize,
}

/// How many bytes the head of a journal has.
pub(crate) const ENTRY: usize = 64;

pub(crate) fn word32_at(bytes: &[u8], at: usize) -> u32
    requires { at + 4 ≤ length bytes.now }
    ensures { result ≡ word32 at bytes.now }
{
    let mut word = [0; 4];
    word.copy_from_slice(&bytes[at..at + 4]);
    u32::from_be_bytes(word)
}

pub(crate) fn word64_at(bytes: &[u8], at: usize) -> u64
    requires { at + 8 ≤ length bytes.now }
    ensures { result ≡ word64 at bytes.now }
{
    let mut word = [0; 8];
    word.copy_from_slice(&bytes[at..at + 8]);
    u64::from_be_bytes(word)
}

/// The write that the head of a journal tells.
pub(crate) fn read_entry(head: &[u8], sizes: &[u64]) -> Result<Entry, OpenError>
    requires { 16 ≤ length head.now }
    ensures told { result ≡ entry_told sizes.now head.now }
    ensures fits { IfOk result (IsEntryOf sizes.now) }
    ensures damage { IfErr result (λ error. (place : ℕ) × (error ≡ Damage place)) }
{
    let file = word32_at(head, 0) as usize;
    if file >= sizes.len() {
        return Err(OpenError::Damaged { at: 1024 });
    }
    let len = word32_at(head, 4);
    if len == 0 || len > 8192 {
        return Err(OpenError::Damaged { at: 1028 });
    }
    let at = word64_at(head, 8);
    if at > sizes[file] || u64::from(len) > sizes[file] - at {
        return Err(OpenError::Damaged { at: 1032 });
    }
    Ok(Entry {
        file,
        at,
        len: len as usize,
    })
}

/// Puts a write into a buffer, as a journal has it.
pub(crate) fn fill_entry(buffer: &mut Vec<u8>, file: u32, at: u64, bytes: &[u8])
    requires short { length bytes.now ≤ 8192 }
    requires room { 8256 ≤ length buffer.old.items }
    ensures size { length buffer.new.items ≡ length buffer.old.items }
    ensures entry { part 0 (64 + length bytes.now) buffer.new.items ≡ entry_bytes file at bytes.now }
{
    overwrite(buffer, 0, &file.to_be_bytes());
    overwrite(buffer, 4, &(bytes.len() as u32).to_be_bytes());
    overwrite(buffer, 8, &at.to_be_bytes());
    overwrite(buffer, 16, &[0; 48]);
    overwrite(buffer, ENTRY, bytes);
}

/// Writes over the bytes from `at`.
fn overwrite(buffer: &mut Vec<u8>, at: usize, bytes: &[u8])
    requires { at + length bytes.now ≤ length buffer.old.items }
    ensures after { buffer.new.items ≡ put at bytes.now buffer.old.items }
    ensures size { length buffer.new.items ≡ length buffer.old.items }
{
    buffer[at..at + bytes.len()].copy_from_slice(bytes);
}
