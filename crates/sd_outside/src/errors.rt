//! The two answers that no caller can rule out.

use std::alloc::{AllocError, AllocFailed};

/// Out of memory.
#[derive(Clone, Copy, Debug, PartialEq, Eq)]
pub struct NoMemory;

/// A fault of the outside, which the object that met it counted.
#[derive(Clone, Copy, Debug, PartialEq, Eq)]
pub struct Failed;

impl From<AllocError> for NoMemory {
    fn from(_: AllocError) -> Self {
        NoMemory
    }
}

impl<T: Drop> From<AllocFailed<T>> for NoMemory {
    fn from(_: AllocFailed<T>) -> Self {
        NoMemory
    }
}
