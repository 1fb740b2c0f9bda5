//! Lists and arrays, whose items are all of one kind.

ghost use Rattle.std.specs.Prelude.{◌≡◌, ℕ, ◌++◌, ◌^◌, ◌<◌, ◌≤◌, length, map, OnOk, IfOk, All};
ghost use Rattle.sd_xdr.specs.Kind.{part, Kind, Value, any, fixed, upto, word, opaque, list, times, array, chain, none, number, bytes, ◌⊗◌};
ghost use Rattle.sd_xdr.specs.Grammar.{writes};
ghost use Rattle.sd_xdr.specs.Reading.{Takes};

use crate::error::MsgError;
use crate::reader::XdrReader;
use crate::writer::XdrWriter;
use sd_outside::{ByteList, FHandle, ListOf, NoMemory};
use std::alloc::Global;

/// What a list or an array is made of.
pub trait Item: Drop {
    /// The kind of the item.
    ghost kind: { Kind part };

    /// The value that the item is.
    ghost value: { Self → Value };

    /// Which items have a spelling.
    ghost fits: { Self → Type 0 };

    fn read(alloc: Global, reader: &mut XdrReader) -> Result<Self, MsgError>
        ensures { Takes kind value reader.old reader.new result };

    fn write(&self, writer: &mut XdrWriter) -> Result<(), NoMemory>
        requires { fits self.now }
        ensures { OnOk result (writer.new ≡ writer.old ++ writes kind (value self.now)) };
}

/// Each item behind the bool 1, and at the end the bool 0 (RFC 1014, section 3.18).
#[tactic(auto, unfolding(crate::specs::Reading::reading))]
pub fn read_list<T: Item>(alloc: Global, reader: &mut XdrReader) -> Result<ListOf<T>, MsgError>
    ensures { Takes (list T.kind) (λ v. chain (map T.value v) none) reader.old reader.new result }
{
    let mut items = ListOf::empty(alloc);
    while reader.bool()? {
        let item = T::read(alloc, reader)?;
        items.push(item)?;
    }
    Ok(items)
}

/// So many items (RFC 1014, section 3.12).
#[tactic(auto, unfolding(crate::specs::Reading::reading))]
pub fn read_times<T: Item>(
    alloc: Global,
    reader: &mut XdrReader,
    count: u32,
) -> Result<ListOf<T>, MsgError>
    ensures takes { Takes (times count T.kind) (λ v. chain (map T.value v) none) reader.old reader.new result }
    ensures count { IfOk result (λ v. length v ≡ count) }
{
    let mut items = ListOf::empty(alloc);
    for _ in 0..count {
        let item = T::read(alloc, reader)?;
        items.push(item)?;
    }
    Ok(items)
}

/// Each item behind the bool 1, and at the end the bool 0 (RFC 1014, section 3.18).
pub fn write_list<T: Item>(writer: &mut XdrWriter, items: &[T]) -> Result<(), NoMemory>
    requires { All T.fits items.now }
    ensures { OnOk result (writer.new ≡ writer.old ++ writes (list T.kind) (chain (map T.value items.now) none)) }
{
    for item in items {
        writer.bool(true)?;
        item.write(writer)?;
    }
    writer.bool(false)
}

/// Items, one after the other (RFC 1014, section 3.12).
pub fn write_times<T: Item>(writer: &mut XdrWriter, items: &[T]) -> Result<(), NoMemory>
    requires { All T.fits items.now }
    ensures { OnOk result (writer.new ≡ writer.old ++ writes (times (length items.now) T.kind) (chain (map T.value items.now) none)) }
{
    for item in items {
        item.write(writer)?;
    }
    Ok(())
}

impl Item for u32 {
    ghost kind = { word any };

    ghost value = { number };

    ghost fits = { λ _. Unit {0} };

    fn read(_alloc: Global, reader: &mut XdrReader) -> Result<u32, MsgError> {
        Ok(reader.u32()?)
    }

    fn write(&self, writer: &mut XdrWriter) -> Result<(), NoMemory> {
        writer.u32(*self)
    }
}

/// A name of at most 255 bytes.
impl Item for ByteList {
    ghost kind = { opaque (upto 255) };

    ghost value = { bytes };

    ghost fits = { λ name. length name ≤ 255 };

    #[tactic(auto, unfolding(crate::specs::Reading::reading))]
    fn read(alloc: Global, reader: &mut XdrReader) -> Result<ByteList, MsgError> {
        Ok(ByteList::from_slice(alloc, reader.opaque_var(255)?)?)
    }

    fn write(&self, writer: &mut XdrWriter) -> Result<(), NoMemory> {
        writer.opaque_var(self.as_slice())
    }
}

/// The handle of a file (RFC 1094, 2.3.3).
impl Item for FHandle {
    ghost kind = { opaque (fixed 32) };

    ghost value = { λ file. bytes file.0 };

    ghost fits = { λ _. Unit {0} };

    #[tactic(auto, unfolding(crate::specs::Reading::reading))]
    fn read(_alloc: Global, reader: &mut XdrReader) -> Result<FHandle, MsgError> {
        let body = reader.opaque_fixed(32)?;
        let mut bytes = [0u8; 32];
        bytes.copy_from_slice(body);
        Ok(FHandle(bytes))
    }

    fn write(&self, writer: &mut XdrWriter) -> Result<(), NoMemory> {
        writer.opaque_fixed(&self.0)
    }
}
