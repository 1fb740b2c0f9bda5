//! Why nothing was mounted, found or loaded.
ghost use Rattle.std.specs.Prelude.{◌≡◌};
ghost use Rattle.sd_rpc_retry.specs.declared.calling.CallError.TheVariants as CallError;
ghost use Rattle.sd_loader.specs.declared.errors.LoadError.TheVariants as LoadError;

use sd_link::Stage;
use sd_rpc_retry::CallError;

/// Why nothing was mounted, found or loaded.
#[derive(Clone, Copy, Debug, PartialEq, Eq)]
pub enum LoadError {
    /// A call has no answer.
    Call { step: Stage, error: CallError },
    /// The server refused a call with this status; or a component is too long to be asked for, which is 63.
    Refused { step: Stage, status: u32 },
    /// The way has more than eight links.
    Loop,
    /// At the end of the way stands something of this kind, which is no file.
    NotFile { kind: u32 },
    /// The file has so many bytes, which are too many.
    TooLarge { size: u64 },
    /// A reply has not as many bytes as were asked for from this offset on.
    Short { at: u64, want: u32, got: u32 },
}

/// Out of memory at a step.
pub(crate) fn out_of_memory(step: Stage) -> LoadError
    ensures { result ≡ LoadError.Call step CallError.NoMemory }
{
    LoadError::Call {
        step,
        error: CallError::NoMemory,
    }
}
