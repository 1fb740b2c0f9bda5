//! The numbers of refusals (RFC 1094, section 2.3.1).

/// NFSERR_PERM: not the owner.
pub(crate) const PERM: u32 = 1;
/// NFSERR_NOENT: no such name.
pub(crate) const NOENT: u32 = 2;
/// NFSERR_IO: the disk failed.
pub(crate) const IO: u32 = 5;
/// NFSERR_NXIO: the file has no such use.
pub(crate) const NXIO: u32 = 6;
/// NFSERR_ACCES: permission denied.
pub(crate) const ACCES: u32 = 13;
/// NFSERR_NOTDIR: not a directory.
pub(crate) const NOTDIR: u32 = 20;
/// NFSERR_ISDIR: a directory.
pub(crate) const ISDIR: u32 = 21;
/// NFSERR_NOSPC: no space left.
pub(crate) const NOSPC: u32 = 28;
/// NFSERR_ROFS: the file system is read only.
pub(crate) const ROFS: u32 = 30;
/// NFSERR_STALE: the handle names no live file.
pub(crate) const STALE: u32 = 70;
