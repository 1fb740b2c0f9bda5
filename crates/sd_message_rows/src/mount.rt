//! Every message against tables worked by hand: read, written again, cut anywhere, and with one word more; exports and mounts.

mod rows;

ghost use Rattle.std.specs.Prelude.{IfOk};
ghost use Rattle.sd_mount.specs.Layout.{ArgsFit, ResultFits};

use crate::items::{Row, row_of};
use rows::{ARGS, LIMITS_OF_ARGS, LIMITS_OF_RESULTS, RESULTS};
use sd_mount::{
    ExportEntries, ExportEntry, Exports, FHandle, MountArgs, MountList, MountResult,
    read_mount_args, read_mount_result, write_mount_args, write_mount_result,
};
use sd_outside::ByteList;
use sd_xdr::{MsgError, XdrError};
use std::alloc::Global;
use std::test::Fail;

/// Reading by the row's procedure.
fn args_of(alloc: Global, row: &Row, bytes: &[u8]) -> Result<Result<MountArgs, MsgError>, Fail>
    ensures { IfOk result (λ r. IfOk r ArgsFit) }
{
    let proc_no = row.proc_no;
    if proc_no > 5 {
        return Err("no procedure")?;
    }
    Ok(read_mount_args(alloc, proc_no, bytes))
}

fn result_of(alloc: Global, row: &Row, bytes: &[u8]) -> Result<Result<MountResult, MsgError>, Fail>
    ensures { IfOk result (λ r. IfOk r ResultFits) }
{
    let proc_no = row.proc_no;
    if proc_no > 5 {
        return Err("no procedure")?;
    }
    Ok(read_mount_result(alloc, proc_no, bytes))
}

#[test]
fn arguments(rt: HostRuntime) -> Result<(), Fail> {
    let alloc = rt.alloc();
    for line in ARGS.lines() {
        let (row, want) = row_of(alloc, line)?;
        let bytes = row.bytes.as_slice();
        let args = args_of(alloc, &row, bytes)??;
        assert_eq!(rt; format!(in alloc; "{args:?}")?.as_str(), want);
        assert_eq!(rt; write_mount_args(alloc, &args)?.as_slice(), bytes, "{line}");
        for len in 0..bytes.len() {
            let short = XdrError::Short {
                at: row.cut_at(len),
            };
            let cut = args_of(alloc, &row, &bytes[..len])?.err();
            assert_eq!(rt; cut, Some(MsgError::Xdr(short)), "{len} of {line}");
        }
        let tail = XdrError::Tail { at: bytes.len() };
        let longer = args_of(alloc, &row, row.and_a_word()?.as_slice())?.err();
        assert_eq!(rt; longer, Some(MsgError::Xdr(tail)), "{line}");
    }
    Ok(())
}

#[test]
fn results(rt: HostRuntime) -> Result<(), Fail> {
    let alloc = rt.alloc();
    for line in RESULTS.lines() {
        let (row, want) = row_of(alloc, line)?;
        let bytes = row.bytes.as_slice();
        let outcome = result_of(alloc, &row, bytes)??;
        assert_eq!(rt; format!(in alloc; "{outcome:?}")?.as_str(), want);
        assert_eq!(rt;
            write_mount_result(alloc, &outcome)?.as_slice(),
            bytes,
            "{line}"
        );
        for len in 0..bytes.len() {
            let short = XdrError::Short {
                at: row.cut_at(len),
            };
            let cut = result_of(alloc, &row, &bytes[..len])?.err();
            assert_eq!(rt; cut, Some(MsgError::Xdr(short)), "{len} of {line}");
        }
        let tail = XdrError::Tail { at: bytes.len() };
        let longer = result_of(alloc, &row, row.and_a_word()?.as_slice())?.err();
        assert_eq!(rt; longer, Some(MsgError::Xdr(tail)), "{line}");
    }
    Ok(())
}

#[test]
fn limits(rt: HostRuntime) -> Result<(), Fail> {
    let alloc = rt.alloc();
    for line in LIMITS_OF_ARGS.lines() {
        let (row, want) = row_of(alloc, line)?;
        match args_of(alloc, &row, row.bytes.as_slice())? {
            Ok(_) => assert_eq!(rt; want, "read", "{line}"),
            Err(e) => assert_eq!(rt; format!(in alloc; "{e:?}")?.as_str(), want, "{line}"),
        }
    }
    for line in LIMITS_OF_RESULTS.lines() {
        let (row, want) = row_of(alloc, line)?;
        match result_of(alloc, &row, row.bytes.as_slice())? {
            Ok(_) => assert_eq!(rt; want, "read", "{line}"),
            Err(e) => assert_eq!(rt; format!(in alloc; "{e:?}")?.as_str(), want, "{line}"),
        }
    }
    Ok(())
}

#[test]
fn exports(rt: HostRuntime) -> Result<(), Fail> {
    let alloc = rt.alloc();
    let mut entries = ExportEntries::empty(alloc);
    for (path, owner, first) in [("/root", 7, 1), ("/swap", 8, 2), ("/root", 8, 3)] {
        entries.push(ExportEntry {
            path: ByteList::from_slice(alloc, path.as_bytes())?,
            owner,
            owner_name: ByteList::from_slice(alloc, b"sun")?,
            fhandle: FHandle([first; 32]),
        })?;
    }
    let exports = Exports::new(entries);
    assert_eq!(rt; exports.mnt(7, b"/root"), Ok(FHandle([1; 32])));
    assert_eq!(rt; exports.mnt(8, b"/root"), Err(13));
    assert_eq!(rt; exports.mnt(8, b"/swap"), Ok(FHandle([2; 32])));
    assert_eq!(rt; exports.mnt(7, b"/swap"), Err(13));
    assert_eq!(rt; exports.mnt(7, b"/roo"), Err(2));
    assert_eq!(rt; exports.mnt(7, b"/root/"), Err(2));
    assert_eq!(rt; exports.mnt(7, b""), Err(2));
    assert_eq!(rt; exports.entries().len(), 3);
    Ok(())
}

/// The mounts as text.
fn mounts_text(alloc: Global, mounts: &MountList) -> Result<String, Fail> {
    let mut text = String::new(alloc);
    for mount in mounts.list() {
        let host = mount.0;
        let path = str::from_utf8(mount.1.as_slice())?;
        text.push_str(format!(in alloc; "{host}:{path} ")?.as_str())?;
    }
    Ok(text)
}

#[test]
fn mounts(rt: HostRuntime) -> Result<(), Fail> {
    let alloc = rt.alloc();
    let mut mounts = MountList::new(alloc)?;
    for (host, path) in [
        (1, "/a"),
        (2, "/a"),
        (1, "/b"),
        (1, "/a"),
        (2, "/a"),
        (3, "/"),
    ] {
        mounts.add(host, ByteList::from_slice(alloc, path.as_bytes())?);
    }
    assert_eq!(rt;
        mounts_text(alloc, &mounts)?.as_str(),
        "1:/a 2:/a 1:/b 3:/ "
    );
    mounts.remove(2, b"/b");
    mounts.remove(4, b"/a");
    mounts.remove(2, b"/a");
    assert_eq!(rt; mounts_text(alloc, &mounts)?.as_str(), "1:/a 1:/b 3:/ ");
    mounts.remove_all(1);
    assert_eq!(rt; mounts_text(alloc, &mounts)?.as_str(), "3:/ ");
    mounts.remove_all(1);
    for host in 100..163 {
        mounts.add(host, ByteList::from_slice(alloc, b"/a")?);
    }
    assert_eq!(rt; mounts.list().len(), 64);
    mounts.add(100, ByteList::from_slice(alloc, b"/a")?);
    assert_eq!(rt; mounts.list().first().map(|mount| mount.0), Some(3));
    mounts.add(163, ByteList::from_slice(alloc, b"/a")?);
    assert_eq!(rt; mounts.list().len(), 64);
    assert_eq!(rt; mounts.list().first().map(|mount| mount.0), Some(100));
    assert_eq!(rt; mounts.list().last().map(|mount| mount.0), Some(163));
    Ok(())
}
