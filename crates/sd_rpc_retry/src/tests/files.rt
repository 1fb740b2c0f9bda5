//! Calls of MOUNT and NFS over a link in memory, against rows worked by hand, with answers of any kind and with those of their types.
ghost use Rattle.std.specs.Prelude.{◌≤◌, length, IfOk};

use super::file_rows::{
    FILE_SERVER, GETATTR_SENT, GETATTRS, LOOKUP_SENT, LOOKUPS, MNT_SENT, MOUNT, MOUNTS, READ_SENT,
    READLINK_SENT, READLINKS, READS, REMOVES,
};
use super::rows::Row;
use super::*;
use sd_nfs_msg::NfsArgs;

/// The handle of the rows: 31 bytes 1, and a byte 2.
fn file() -> FHandle {
    let mut bytes = [1; 32];
    bytes[31] = 2;
    FHandle(bytes)
}

#[test]
fn handles_come_or_not(rt: HostRuntime) -> Result<(), Fail> {
    let path = ByteList::from_slice(rt.alloc(), b"/export/root")?;
    check(&rt, rt.alloc(), MOUNT, &Ask::Mnt { path }, &MOUNTS)
}

#[test]
fn attributes_come_or_not(rt: HostRuntime) -> Result<(), Fail> {
    let ask = Ask::Nfs(NfsArgs::Getattr { file: file() });
    check(&rt, rt.alloc(), FILE_SERVER, &ask, &GETATTRS)
}

#[test]
fn entries_come_or_not(rt: HostRuntime) -> Result<(), Fail> {
    let name = ByteList::from_slice(rt.alloc(), b"vmunix")?;
    let ask = Ask::Nfs(NfsArgs::Lookup { dir: file(), name });
    check(&rt, rt.alloc(), FILE_SERVER, &ask, &LOOKUPS)
}

#[test]
fn targets_come_or_not(rt: HostRuntime) -> Result<(), Fail> {
    let ask = Ask::Nfs(NfsArgs::Readlink { file: file() });
    check(&rt, rt.alloc(), FILE_SERVER, &ask, &READLINKS)
}

#[test]
fn bytes_come_or_not(rt: HostRuntime) -> Result<(), Fail> {
    let ask = Ask::Nfs(NfsArgs::Read {
        file: file(),
        offset: 8192,
        count: 5,
        total: 0,
    });
    check(&rt, rt.alloc(), FILE_SERVER, &ask, &READS)
}

#[test]
fn removals_come_or_not(rt: HostRuntime) -> Result<(), Fail> {
    let name = ByteList::from_slice(rt.alloc(), b"vmunix")?;
    let ask = Ask::Nfs(NfsArgs::Remove { dir: file(), name });
    check(&rt, rt.alloc(), FILE_SERVER, &ask, &REMOVES)
}

/// The caller of a machine that has a name.
fn named_caller(alloc: Global) -> Result<Caller, Fail>
    ensures { IfOk result (λ c. length c.machine ≤ 255) }
{
    let mut caller = caller(alloc, 2)?;
    caller.machine = ByteList::from_slice(alloc, b"sparky")?;
    Ok(caller)
}

#[test]
fn the_machine_is_told(rt: HostRuntime) -> Result<(), Fail> {
    let alloc = rt.alloc();
    let caller = named_caller(alloc)?;
    let file = file();
    let mnt = Mnt {
        path: b"/export/root",
    };
    let lookup = Lookup {
        dir: file,
        name: b"vmunix",
    };
    let read = Read {
        file,
        offset: 8192,
        count: 5,
    };
    check_sent(&rt, alloc, &caller, MOUNT, &mnt, MNT_SENT)?;
    check_sent(
        &rt,
        alloc,
        &caller,
        FILE_SERVER,
        &Getattr { file },
        GETATTR_SENT,
    )?;
    check_sent(&rt, alloc, &caller, FILE_SERVER, &lookup, LOOKUP_SENT)?;
    check_sent(
        &rt,
        alloc,
        &caller,
        FILE_SERVER,
        &Readlink { file },
        READLINK_SENT,
    )?;
    check_sent(&rt, alloc, &caller, FILE_SERVER, &read, READ_SENT)
}

/// A link on which the reply of a row's first datagram comes at tick 1.
fn link_with(alloc: Global, row: &Row) -> Result<MemLink, Fail> {
    let mut inbox = PacketTimes::empty(alloc);
    for (src, dst, items) in row.0 {
        let body = bytes_of(alloc, items)?;
        let (src, dst) = (*src, *dst);
        inbox.push((1, Packet::Udp { src, dst, body }))?;
    }
    Ok(MemLink::new(alloc, inbox, &[])?)
}

#[test]
fn answers_have_their_types(rt: HostRuntime) -> Result<(), Fail> {
    let alloc = rt.alloc();
    let mut tally = Tally { sends: 0, last: 0 };
    let mut caller = caller(alloc, 2)?;
    let mut link = link_with(alloc, &MOUNTS[0])?;
    let mnt = Mnt {
        path: b"/export/root",
    };
    match caller.call(alloc, &mut link, MOUNT, &mnt, &mut tally) {
        Ok(Ok(given)) => assert_eq!(rt; given, file()),
        _ => assert!(rt; false),
    }
    Ok(())
}
