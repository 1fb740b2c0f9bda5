//! Why a text isn't read.

ghost use Rattle.std.specs.Prelude.{◌≡◌};
ghost use Rattle.sd_text.specs.declared.error.LineError.TheVariants as lines;

use sd_outside::NoMemory;
use std::alloc::{AllocError, AllocFailed};

/// Why a packet line isn't read.
#[derive(Clone, Copy, Debug, PartialEq, Eq)]
pub enum PacketLineError {
    /// It is none, or it has too many bytes.
    BadPacket,
    /// Out of memory.
    NoMemory,
}

/// Why a line, or a part of one, isn't read: it is outside the grammar, or out of memory.
#[derive(Debug, Drop)]
pub enum LineError {
    Outside,
    NoMemory,
}

impl From<NoMemory> for LineError {
    ghost from_gives = { λ _ e. e ≡ lines.NoMemory };

    fn from(_error: NoMemory) -> LineError {
        LineError::NoMemory
    }
}

impl From<AllocError> for LineError {
    ghost from_gives = { λ _ e. e ≡ lines.NoMemory };

    fn from(_error: AllocError) -> LineError {
        LineError::NoMemory
    }
}

impl<T: Drop> From<AllocFailed<T>> for LineError {
    ghost from_gives = { λ _ e. e ≡ lines.NoMemory };

    fn from(_error: AllocFailed<T>) -> LineError {
        LineError::NoMemory
    }
}
