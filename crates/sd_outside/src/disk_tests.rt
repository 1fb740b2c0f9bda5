//! The disks in memory, call by call.
ghost use Rattle.std.specs.Prelude.{◌≡◌, ◌≤◌, length};

use super::*;
use std::test::Fail;

/// Four bytes are written from place 1 on, synced or not, and then the disk crashes. What a read gives then goes into the buffer.
fn crashed<D: StopDisk>(disk: &mut D, synced: bool, outcome: u8, into: &mut [u8; 6]) -> bool
    requires size { D.Disk.size disk.old ≡ 6 }
    requires outcome { outcome ≤ 3 }
{
    disk.begin();
    let mut passed = disk.write(1, &[9; 4]).is_ok();
    if synced {
        passed = passed && disk.sync().is_ok();
    }
    disk.crash(outcome);
    passed && disk.read(0, into).is_ok()
}

#[test]
fn crashes_pick_an_outcome(rt: HostRuntime) -> Result<(), Fail> {
    let cases = [
        (false, 0, [0, 1, 2, 3, 4, 5]),
        (false, 1, [0, 9, 9, 9, 9, 5]),
        (false, 2, [0, 1, 9, 3, 9, 5]),
        (false, 3, [0, 0xa5, 0xa5, 0xa5, 0xa5, 5]),
        (true, 0, [0, 9, 9, 9, 9, 5]),
        (true, 3, [0, 9, 9, 9, 9, 5]),
    ];
    for (synced, outcome, left) in cases {
        assert!(rt; outcome <= 3);
        let mut disk = MemDisk::new(rt.alloc(), &[0, 1, 2, 3, 4, 5], &[], &[])?;
        let mut into = [0; 6];
        assert!(rt; crashed(&mut disk, synced, outcome, &mut into));
        assert_eq!(rt; into, left, "outcome {outcome}");
    }
    let mut disk = CalmDisk::new(rt.alloc(), &[0, 1, 2, 3, 4, 5])?;
    let mut into = [0; 6];
    assert!(rt; crashed(&mut disk, false, 0, &mut into));
    assert_eq!(rt; into, [0, 9, 9, 9, 9, 5]);
    Ok(())
}

#[test]
fn fails_as_planned_and_when_stopped(rt: HostRuntime) -> Result<(), Fail> {
    let mut disk = MemDisk::new(rt.alloc(), b"abcd", &[0, 3], &[1])?;
    let mut into = [0; 4];
    assert_eq!(rt; disk.len(), Ok(4));
    assert_eq!(rt; disk.write(0, b"XX"), Err(Failed));
    assert_eq!(rt; disk.read(0, &mut into), Ok(()));
    assert_eq!(rt; into, *b"abcd");
    assert_eq!(rt; disk.write(0, b"YY"), Ok(()));
    assert_eq!(rt; disk.sync(), Ok(()));
    assert_eq!(rt; disk.write(0, b"ZZ"), Err(Failed));
    assert_eq!(rt; disk.read(0, &mut into), Err(Failed));
    disk.stop_after(1);
    disk.begin();
    assert_eq!(rt; disk.write(2, b"ZZ"), Ok(()));
    assert_eq!(rt; disk.sync(), Err(Failed));
    disk.crash(0);
    assert_eq!(rt; disk.sync(), Ok(()));
    assert_eq!(rt; disk.read(0, &mut into), Ok(()));
    assert_eq!(rt; into, *b"YYcd");
    Ok(())
}

#[test]
fn keeps_64_changes(rt: HostRuntime) -> Result<(), Fail> {
    let mut disk = MemDisk::new(rt.alloc(), b"abcd", &[], &[])?;
    for _ in 0..64 {
        assert_eq!(rt; disk.sync(), Ok(()));
    }
    assert_eq!(rt; disk.sync(), Err(Failed));
    disk.begin();
    assert_eq!(rt; disk.sync(), Ok(()));
    Ok(())
}
