//! Reading the input.
ghost use Rattle.std.specs.Prelude.{◌≡◌, OnOk, IfOk, IsErrOf};
ghost use Rattle.sd_outside.specs.Causes.{Rose};
ghost use Rattle.sd_boot.specs.Input.{IsRead};

use crate::status::Stop;
use sd_outside::{ByteList, Failed, Source};
use std::alloc::Global;

/// The most bytes of an input that is whole.
pub(crate) const INPUT_LIMIT: usize = 67_108_864;

/// All of the input, or a prefix of it that passes the limit.
pub(crate) fn read_all<S: Source>(alloc: Global, source: &mut S) -> Result<ByteList, Stop>
    ensures told { IfOk result (IsRead (S.left source.old) (S.left source.new)) }
    ensures calm { OnOk result (S.faults source.new ≡ S.faults source.old) }
    ensures fault { IsErrOf result Stop.SourceFault → Rose (S.faults source.old) (S.faults source.new) }
    ensures sink { IsErrOf result Stop.SinkFault → ⊥ }
{
    let mut text = ByteList::empty(alloc);
    let mut buffer = [0u8; 4096];
    'reading: while text.as_slice().len() <= INPUT_LIMIT {
        match source.read(&mut buffer) {
            Err(Failed) => return Err(Stop::SourceFault),
            Ok(0) => return Ok(text),
            Ok(count) => text.push_slice(&buffer[..count])?,
        }
    }
    Ok(text)
}
