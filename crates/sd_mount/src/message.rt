//! What a client asks of a mount server, and what it answers (RFC 1094, appendix A.5).

use crate::lists::{ExportList, PairList};
use sd_outside::{ByteList, FHandle};

/// The arguments of a procedure, one variant for each, in order of their numbers from 0.
#[derive(Debug, Drop)]
pub enum MountArgs {
    Null,
    /// The directory that is to be mounted.
    Mnt { path: ByteList },
    /// All mounts are asked for.
    Dump,
    /// The directory whose mount ends.
    Umnt { path: ByteList },
    /// All mounts of the caller end.
    UmntAll,
    /// What may be mounted is asked for.
    Export,
}

/// What a procedure answers.
#[derive(Debug, Drop)]
pub enum MountResult {
    /// Of procedures 0, 3 and 4.
    Void,
    /// Of procedure 1: the directory's handle.
    Given(FHandle),
    /// Of procedure 1: a status that isn't 0.
    Refused { status: u32 },
    /// Of procedure 2.
    Mounts(PairList),
    /// Of procedure 5.
    Exports(ExportList),
}
