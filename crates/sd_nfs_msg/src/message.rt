//! What a client asks of a file server, and what it answers (RFC 1094, section 2.2).

use crate::parts::{EntryList, Fattr, Sattr};
use sd_outside::{ByteList, FHandle};

/// The port of a file server (RFC 1094, section 3.4).
pub const NFS_PORT: u16 = 2049;

/// The arguments of a procedure, one variant for each. A name has at most 255 bytes, a path at most 1,024, and what is written at
/// most 8,192. Procedures 3 and 7 are obsolete and unused.
#[derive(Debug, Drop)]
pub enum NfsArgs {
    /// Procedure 0, which does nothing.
    Null,
    /// Procedure 1: the attributes of a file.
    Getattr {
        file: FHandle,
    },
    /// Procedure 2: attributes are set.
    Setattr {
        file: FHandle,
        set: Sattr,
    },
    /// Procedure 4: the file of a name in a directory.
    Lookup {
        dir: FHandle,
        name: ByteList,
    },
    /// Procedure 5: the path in a symbolic link.
    Readlink {
        file: FHandle,
    },
    /// Procedure 6: `count` bytes of a file from `offset`; `total` doesn't count.
    Read {
        file: FHandle,
        offset: u32,
        count: u32,
        total: u32,
    },
    /// Procedure 8: bytes are written from `offset`; `begin` and `total` don't count.
    Write {
        file: FHandle,
        begin: u32,
        offset: u32,
        total: u32,
        bytes: ByteList,
    },
    /// Procedure 9: a file is made.
    Create {
        dir: FHandle,
        name: ByteList,
        set: Sattr,
    },
    /// Procedure 10: a file is removed.
    Remove {
        dir: FHandle,
        name: ByteList,
    },
    /// Procedure 11: a file gets another name, maybe in another directory.
    Rename {
        dir: FHandle,
        name: ByteList,
        to_dir: FHandle,
        to_name: ByteList,
    },
    /// Procedure 12: a file gets a further name.
    Link {
        from: FHandle,
        to_dir: FHandle,
        to_name: ByteList,
    },
    /// Procedure 13: a symbolic link to a path is made.
    Symlink {
        dir: FHandle,
        name: ByteList,
        path: ByteList,
        set: Sattr,
    },
    /// Procedure 14: a directory is made.
    Mkdir {
        dir: FHandle,
        name: ByteList,
        set: Sattr,
    },
    /// Procedure 15: a directory is removed.
    Rmdir {
        dir: FHandle,
        name: ByteList,
    },
    /// Procedure 16: entries of a directory behind that of a cookie, zeros for the first, in at most `count` bytes.
    Readdir {
        dir: FHandle,
        cookie: [u8; 4],
        count: u32,
    },
    /// Procedure 17: the state of the file system in which a file stands.
    Statfs {
        file: FHandle,
    },
}

/// What a procedure answers: what it found or did, one variant for each, or why it didn't.
#[derive(Debug, Drop)]
pub enum NfsResult {
    /// Of procedure 0.
    Null,
    /// A status that isn't 0, of any procedure but the null one (RFC 1094, section 2.3.1).
    Refused {
        status: u32,
    },
    /// Of procedure 1.
    Getattr {
        attr: Fattr,
    },
    /// Of procedure 2: the attributes as they are then.
    Setattr {
        attr: Fattr,
    },
    /// Of procedure 4: the file of the name.
    Lookup {
        file: FHandle,
        attr: Fattr,
    },
    /// Of procedure 5: at most 1,024 bytes.
    Readlink {
        path: ByteList,
    },
    /// Of procedure 6: at most 8,192 bytes.
    Read {
        attr: Fattr,
        bytes: ByteList,
    },
    /// Of procedure 8: the attributes as they are then.
    Write {
        attr: Fattr,
    },
    /// Of procedure 9: the new file.
    Create {
        file: FHandle,
        attr: Fattr,
    },
    /// Of procedure 10.
    Remove,
    /// Of procedure 11.
    Rename,
    /// Of procedure 12.
    Link,
    /// Of procedure 13.
    Symlink,
    /// Of procedure 14: the new directory.
    Mkdir {
        file: FHandle,
        attr: Fattr,
    },
    /// Of procedure 15.
    Rmdir,
    /// Of procedure 16: entries, and whether the last one is the last of the directory.
    Readdir {
        entries: EntryList,
        eof: bool,
    },
    /// Of procedure 17: the best size of a transfer and the size of a block, in bytes, and how many blocks there are, are free, and
    /// are free to others than the superuser.
    Statfs {
        tsize: u32,
        bsize: u32,
        blocks: u32,
        bfree: u32,
        bavail: u32,
    },
}
