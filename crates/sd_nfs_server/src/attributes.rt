//! The attributes of files.

ghost use Rattle.std.specs.Prelude.{◌≡◌, ◌≤◌, ◌+◌};
ghost use Rattle.sd_services.specs.Decisions.{attributes, root_attributes, swap_attributes};
ghost use Rattle.sd_nfs_server.specs.Fits.{StandingFits};

use sd_nfs_msg::Fattr;
use sd_services::Standing;

/// A row of the table of attributes.
struct Row {
    kind: u32,
    mode: u32,
    nlink: u32,
}

const FILE: Row = Row {
    kind: 1,
    mode: 0o100444,
    nlink: 1,
};

const DIRECTORY: Row = Row {
    kind: 2,
    mode: 0o40555,
    nlink: 2,
};

const LINK: Row = Row {
    kind: 5,
    mode: 0o120777,
    nlink: 1,
};

const SWAP: Row = Row {
    kind: 1,
    mode: 0o100600,
    nlink: 1,
};

fn attributes(export: u32, number: u32, row: &Row, size: u32) -> Fattr
    requires export { export ≤ 1 }
    requires size { size ≤ 33554432 }
    ensures { result ≡ attributes export number row.now.kind row.now.mode row.now.nlink size }
{
    Fattr {
        kind: row.kind,
        mode: row.mode,
        nlink: row.nlink,
        uid: 0,
        gid: 0,
        size,
        blocksize: 8192,
        rdev: 0,
        blocks: (size + 511) / 512,
        fsid: export + 1,
        fileid: number,
        atime_s: 0,
        atime_u: 0,
        mtime_s: 0,
        mtime_u: 0,
        ctime_s: 0,
        ctime_u: 0,
    }
}

/// The attributes of a file of the root export.
pub fn root_attributes(number: u32, what: &Standing) -> Fattr
    requires { StandingFits what.now }
    ensures { result ≡ root_attributes number what.now }
{
    match what {
        Standing::Directory => attributes(0, number, &DIRECTORY, 512),
        Standing::File { bytes } => attributes(0, number, &FILE, bytes.as_slice().len() as u32),
        Standing::Symlink { text } => attributes(0, number, &LINK, text.as_slice().len() as u32),
    }
}

/// The attributes of the swap file.
pub fn swap_attributes(size: u32) -> Fattr
    requires { size ≤ 33554432 }
    ensures { result ≡ swap_attributes size }
{
    attributes(1, 1, &SWAP, size)
}
