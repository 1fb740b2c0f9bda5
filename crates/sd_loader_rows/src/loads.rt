//! Files that are loaded.
use crate::world::{FILE_SERVER, ROOT, caller, link_with};
use sd_loader::load;
use sd_nfs_msg::Fattr;
use std::alloc::Global;
use std::test::Fail;

/// Attributes of a file of this size.
fn sized(size: u32) -> Fattr {
    Fattr {
        kind: 1,
        mode: 0o100444,
        nlink: 1,
        uid: 0,
        gid: 0,
        size,
        blocksize: 8192,
        rdev: 0,
        blocks: 0,
        fsid: 1,
        fileid: 7,
        atime_s: 0,
        atime_u: 0,
        mtime_s: 0,
        mtime_u: 0,
        ctime_s: 0,
        ctime_u: 0,
    }
}

/// A size, the results of the calls, and what comes of them.
type Row = (u32, &'static [&'static str], &'static str);

/// Which calls of the link fail, and what comes of it.
type FaultRow = (&'static [u64], &'static str);

/// The first, the last and the number of the bytes that come, and the number of the next call.
fn shown(alloc: Global, size: u32, rows: &[&str], fail: &[u64]) -> Result<String, Fail> {
    let mut link = link_with(alloc, FILE_SERVER, rows, fail)?;
    let mut caller = caller(alloc)?;
    let attr = sized(size);
    match load(alloc, &mut caller, &mut link, FILE_SERVER, &ROOT, &attr) {
        Ok(bytes) => {
            let bytes = bytes.as_slice();
            let ends = match (bytes.first(), bytes.last()) {
                (Some(first), Some(last)) => format!(in alloc; "{first:x}..{last:x}")?,
                _ => format!(in alloc; "nothing")?,
            };
            Ok(format!(in alloc; "{ends} {} {}", bytes.len(), caller.next_xid)?)
        }
        Err(why) => Ok(format!(in alloc; "{why:?} {}", caller.next_xid)?),
    }
}

/// Results of READ: whole blocks of 8,192 bytes, and what may follow.
const BLOCK_A: &str = "00000000 00000001 00*64 00002000 61*8192";

const BLOCK_B: &str = "00000000 00000001 00*64 00002000 62*8192";

const BYTE: &str = "00000000 00000001 00*64 00000001 63*1 00*3";

const FIVE: &str = "00000000 00000001 00*64 00000005 68656c6c 6f*1 00*3";

const FOUR: &str = "00000000 00000001 00*64 00000004 68656c6c";

#[test]
fn files_are_loaded(rt: HostRuntime) -> Result<(), Fail> {
    let rows: [Row; 13] = [
        // An empty file isn't read.
        (0, &[], "nothing 0 1"),
        (5, &[FIVE], "68..6f 5 2"),
        (8192, &[BLOCK_A], "61..61 8192 2"),
        (8193, &[BLOCK_A, BYTE], "61..63 8193 3"),
        (16384, &[BLOCK_A, BLOCK_B], "61..62 16384 3"),
        (16385, &[BLOCK_A, BLOCK_B, BYTE], "61..63 16385 4"),
        // A byte too few, and one too many
        (5, &[FOUR], "Short { at: 0, want: 5, got: 4 } 2"),
        (4, &[FIVE], "Short { at: 0, want: 4, got: 5 } 2"),
        (
            8197,
            &[BLOCK_A, FOUR],
            "Short { at: 8192, want: 5, got: 4 } 3",
        ),
        // The limit
        (16_777_217, &[], "TooLarge { size: 16777217 } 1"),
        (16_777_216, &[], "Call { step: Read, error: Timeout } 2"),
        // NFSERR_ISDIR, and a result of another procedure
        (5, &["00000015"], "Refused { step: Read, status: 21 } 2"),
        (
            5,
            &["00000000 00000003 2f2f6200"],
            "Call { step: Read, error: Timeout } 2",
        ),
    ];
    for (size, replies, comes) in rows {
        assert_eq!(&rt; shown(rt.alloc(), size, replies, &[])?.as_str(), comes);
    }
    Ok(())
}

#[test]
fn faults_end_loading(rt: HostRuntime) -> Result<(), Fail> {
    let rows: [FaultRow; 3] = [
        (&[0], "Call { step: Read, error: LinkFault } 2"),
        (&[3], "Call { step: Read, error: LinkFault } 3"),
        (&[4], "61..63 8193 3"),
    ];
    for (fail, comes) in rows {
        assert_eq!(&rt;
            shown(rt.alloc(), 8193, &[BLOCK_A, BYTE], fail)?.as_str(),
            comes
        );
    }
    Ok(())
}
