//! Reading all of an input.
ghost use Rattle.std.specs.Prelude.{◌≡◌, OnOk, IfOk, IsErrOf};
ghost use Rattle.sd_outside.specs.Causes.{Rose};
ghost use Rattle.sd_streams.specs.Reading.{IsAll};

use sd_outside::{ByteList, Failed, NoMemory, Source};
use std::alloc::Global;

/// Why an input wasn't read to its end.
#[derive(Clone, Copy, Debug, PartialEq, Eq)]
pub enum ReadError {
    /// The source failed.
    Fault,
    /// Out of memory.
    NoMemory,
}

impl From<NoMemory> for ReadError {
    ghost use Rattle.std.specs.Prelude.{◌≡◌};
    ghost use Rattle.sd_streams.specs.declared.reading.ReadError.TheVariants as errors;

    ghost from_gives = { λ _ e. e ≡ errors.NoMemory };

    fn from(_: NoMemory) -> Self {
        ReadError::NoMemory
    }
}

/// All bytes of a source, which is at its end then.
pub fn read_all<S: Source>(alloc: Global, source: &mut S) -> Result<ByteList, ReadError>
    ensures told { IfOk result (IsAll (S.left source.old) (S.left source.new)) }
    ensures calm { OnOk result (S.faults source.new ≡ S.faults source.old) }
    ensures fault { IsErrOf result ReadError.Fault → Rose (S.faults source.old) (S.faults source.new) }
    ensures memory { IsErrOf result ReadError.NoMemory → S.faults source.new ≡ S.faults source.old }
{
    let mut text = ByteList::empty(alloc);
    let mut buffer = [0u8; 4096];
    'reading: loop {
        match source.read(&mut buffer) {
            Err(Failed) => return Err(ReadError::Fault),
            Ok(0) => return Ok(text),
            Ok(count) => text.push_slice(&buffer[..count])?,
        }
    }
}
