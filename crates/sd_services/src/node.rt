//! What stands in the root export.

use sd_outside::ByteList;

/// What stands at a path.
#[derive(Debug, Drop)]
pub enum Standing {
    /// A directory, which is on the way to a file or link, or the root itself.
    Directory,
    /// A file with its bytes, at most 33,554,432.
    File { bytes: ByteList },
    /// A link with the path that it names, 1 to 1,024 bytes.
    Symlink { text: ByteList },
}

/// A directory, file or link.
#[derive(Debug, Drop)]
pub struct Node {
    /// Its full path, which begins with a slash. The root directory's is empty.
    pub path: ByteList,
    /// What stands there.
    pub what: Standing,
}
