//! The handle of a file.

/// What a file server names a file by: 32 bytes that it alone can read (RFC 1094, sections 2.3.3 and 3.5).
#[derive(Clone, Copy, Debug, PartialEq, Eq)]
pub struct FHandle(pub [u8; 32]);
