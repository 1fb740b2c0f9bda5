//! Why a server isn't opened.

use sd_stable_disk::OpenError;

/// Why a server isn't opened.
#[derive(Clone, Copy, Debug, PartialEq, Eq)]
pub enum ServerError {
    /// The disk is refused, for another reason than that memory ran out.
    Store(OpenError),
    /// The files of the disk have other sizes than the configuration wants; these are the first two that differ. A file that is
    /// missing counts as 0.
    OtherSizes { stored: u64, want: u64 },
    /// Out of memory.
    NoMemory,
}
