//! Byte runs of an input.

ghost use Rattle.std.specs.Prelude.{List, ℕ, IfOk, IsErrOf};
ghost use Rattle.sd_text.specs.Runs.{IsRunsWithin};
ghost use Rattle.sd_script.specs.Limits.{input_limit};

use crate::error::RunsError;
use crate::limits::INPUT_LIMIT;
use sd_outside::ByteList;
use sd_text::{LineError, read_runs_within};
use std::alloc::Global;

/// The bytes for which a byte run text stands, where they are at most 67,108,864.
pub fn read_runs(alloc: Global, text: &[u8]) -> Result<ByteList, RunsError>
    ensures ok { IfOk result (λ bytes. IsRunsWithin input_limit text.now bytes) }
    ensures bad { IsErrOf result RunsError.BadRuns → (bytes : List ℕ) → IsRunsWithin input_limit text.now bytes → ⊥ }
{
    match read_runs_within(alloc, text, INPUT_LIMIT) {
        Ok(bytes) => Ok(bytes),
        Err(LineError::Outside) => Err(RunsError::BadRuns),
        Err(LineError::NoMemory) => Err(RunsError::NoMemory),
    }
}
