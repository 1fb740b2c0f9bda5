//! Where paths lead.
ghost use Rattle.std.specs.Prelude.{◌≤◌, length};

use crate::world::{FILE_SERVER, ROOT, caller, link_with};
use sd_loader::walk;
use std::alloc::Global;
use std::process::Abort;
use std::test::Fail;

/// Handles with attributes: a file of 5 bytes, a link of 3 bytes, a directory, and a device.
const FILE: &str = "00000000 bb*32 00000001 00*16 00000005 00*44";

const LINK: &str = "00000000 cc*32 00000005 00*16 00000003 00*44";

const DIRECTORY: &str = "00000000 dd*32 00000002 00*16 00000200 00*44";

const DEVICE: &str = "00000000 ee*32 00000004 00*16 00000000 00*44";

/// Attributes of a directory and of a file.
const ROOT_DIRECTORY: &str = "00000000 00000002 00*16 00000200 00*44";

const ROOT_FILE: &str = "00000000 00000001 00*16 00000007 00*44";

/// Texts of links: `//b`, `b`, `/`, `b/..`, a name of 256 bytes, and nothing.
const ABSOLUTE: &str = "00000000 00000003 2f2f6200";

const RELATIVE: &str = "00000000 00000001 62000000";

const TO_ROOT: &str = "00000000 00000001 2f000000";

const UP: &str = "00000000 00000004 622f2e2e";

const LONG: &str = "00000000 00000100 61*256";

const NOTHING: &str = "00000000 00000000";

/// A path, the results of the calls, what comes of it, and the number of the next call.
type Row = (&'static [u8], &'static [&'static str], &'static str);

/// Which calls of the link fail, and what comes of it.
type FaultRow = (&'static [u64], &'static str);

fn shown(alloc: Global, path: &[u8], rows: &[&str], fail: &[u64]) -> Result<String, Fail>
    requires { length path.now ≤ 1024 }
{
    let mut link = link_with(alloc, FILE_SERVER, rows, fail)?;
    let mut caller = caller(alloc)?;
    match walk(alloc, &mut caller, &mut link, FILE_SERVER, &ROOT, path) {
        Ok((file, attr)) => {
            let [first, ..] = file.0;
            Ok(format!(in alloc; "{first:x} {} {}", attr.size, caller.next_xid)?)
        }
        Err(why) => Ok(format!(in alloc; "{why:?} {}", caller.next_xid)?),
    }
}

fn check(rt: &impl Abort, alloc: Global, rows: &[Row]) -> Result<(), Fail> {
    for (path, replies, comes) in rows {
        if path.len() <= 1024 {
            let came = shown(alloc, path, replies, &[])?;
            assert_eq!(rt; came.as_str(), *comes);
        } else {
            assert!(rt; false);
        }
    }
    Ok(())
}

#[test]
fn paths_lead(rt: HostRuntime) -> Result<(), Fail> {
    let rows: [Row; 12] = [
        (b"/vmunix", &[FILE], "bb 5 2"),
        (b"vmunix", &[FILE], "bb 5 2"),
        (b"//a//vmunix//", &[DIRECTORY, FILE], "bb 5 3"),
        (b"/a/../vmunix", &[DIRECTORY, DIRECTORY, FILE], "bb 5 4"),
        (b"/l", &[LINK, ABSOLUTE, FILE], "bb 5 4"),
        (b"/a/l", &[DIRECTORY, LINK, RELATIVE, FILE], "bb 5 5"),
        (
            b"/l/vmunix",
            &[LINK, UP, DIRECTORY, DIRECTORY, FILE],
            "bb 5 6",
        ),
        (b"/a/l/vmunix", &[DIRECTORY, LINK, NOTHING, FILE], "bb 5 5"),
        // The root itself has its attributes from GETATTR.
        (b"", &[ROOT_DIRECTORY], "NotFile { kind: 2 } 2"),
        (b"/", &[ROOT_FILE], "aa 7 2"),
        (
            b"/l",
            &[LINK, TO_ROOT, ROOT_DIRECTORY],
            "NotFile { kind: 2 } 4",
        ),
        (b"/l/vmunix", &[LINK, TO_ROOT, FILE], "bb 5 4"),
    ];
    check(&rt, rt.alloc(), &rows)
}

#[test]
fn paths_end(rt: HostRuntime) -> Result<(), Fail> {
    let rows: [Row; 12] = [
        (b"/a", &[DIRECTORY], "NotFile { kind: 2 } 2"),
        (b"/dev", &[DEVICE], "NotFile { kind: 4 } 2"),
        // NFSERR_NOENT; NFSERR_NOTDIR below a file; NFSERR_STALE of a link and of the root
        (
            b"/x",
            &["00000002"],
            "Refused { step: Lookup, status: 2 } 2",
        ),
        (
            b"/f/x",
            &[FILE, "00000014"],
            "Refused { step: Lookup, status: 20 } 3",
        ),
        (
            b"/l",
            &[LINK, "00000046"],
            "Refused { step: Readlink, status: 70 } 3",
        ),
        (
            b"/",
            &["00000046"],
            "Refused { step: Getattr, status: 70 } 2",
        ),
        // A component of 256 bytes isn't asked for.
        (
            b"/l",
            &[LINK, LONG],
            "Refused { step: Lookup, status: 63 } 3",
        ),
        // Nothing comes, or a result of another procedure.
        (b"/x", &[], "Call { step: Lookup, error: Timeout } 2"),
        (
            b"/x",
            &["00000000 00000003 2f2f6200"],
            "Call { step: Lookup, error: Timeout } 2",
        ),
        (b"/l", &[LINK], "Call { step: Readlink, error: Timeout } 3"),
        (
            b"/l",
            &[LINK, FILE],
            "Call { step: Readlink, error: Timeout } 3",
        ),
        (b"/", &[], "Call { step: Getattr, error: Timeout } 2"),
    ];
    check(&rt, rt.alloc(), &rows)
}

#[test]
fn links_are_counted(rt: HostRuntime) -> Result<(), Fail> {
    let rows: [Row; 2] = [
        // Eight links are followed.
        (
            b"/l",
            &[
                LINK, RELATIVE, LINK, RELATIVE, LINK, RELATIVE, LINK, RELATIVE, LINK, RELATIVE,
                LINK, RELATIVE, LINK, RELATIVE, LINK, RELATIVE, FILE,
            ],
            "bb 5 18",
        ),
        // The ninth isn't read.
        (
            b"/l",
            &[
                LINK, RELATIVE, LINK, RELATIVE, LINK, RELATIVE, LINK, RELATIVE, LINK, RELATIVE,
                LINK, RELATIVE, LINK, RELATIVE, LINK, RELATIVE, LINK, RELATIVE, FILE,
            ],
            "Loop 18",
        ),
    ];
    check(&rt, rt.alloc(), &rows)
}

#[test]
fn faults_end_walks(rt: HostRuntime) -> Result<(), Fail> {
    let alloc = rt.alloc();
    // Each call sends and receives once.
    let rows: [FaultRow; 4] = [
        (&[0], "Call { step: Lookup, error: LinkFault } 2"),
        (&[1], "Call { step: Lookup, error: LinkFault } 2"),
        (&[2], "Call { step: Readlink, error: LinkFault } 3"),
        (&[5], "Call { step: Lookup, error: LinkFault } 4"),
    ];
    for (fail, comes) in rows {
        let came = shown(alloc, b"/l", &[LINK, RELATIVE, FILE], fail)?;
        assert_eq!(&rt; came.as_str(), comes);
    }
    Ok(())
}
