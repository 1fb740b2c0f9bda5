//! Images that are made, opened and refused, and stops and crashes at every change.

use sd_outside::{ByteList, CalmDisk, Disk, MemDisk, NoMemory, StopDisk};
use sd_stable_disk::{OpenError, Store, StoreError, image_of};
use std::alloc::Global;
use std::process::Abort;
use std::test::Fail;

/// The head of an image with one file of 16,384 bytes.
const HEAD: [u8; 24] = [
    0x53, 0x44, 0x53, 0x54, 0x4f, 0x52, 0x45, 0x0a, 0, 0, 0, 1, 0, 0, 0, 1, 0, 0, 0, 0, 0, 0, 0x40,
    0,
];

/// The image of a store with a file of 16,384 zeros.
pub fn one_file(alloc: Global) -> Result<ByteList, NoMemory> {
    image_of(alloc, &[16384])
}

/// Why an image is refused, if it is.
fn refusal(alloc: Global, image: &[u8]) -> Result<Option<OpenError>, Fail> {
    let disk = CalmDisk::new(alloc, image)?;
    match Store::open(alloc, disk) {
        Ok(_) => Ok(None),
        Err((error, _)) => Ok(Some(error)),
    }
}

#[test]
fn an_image_is_made_and_opened(rt: HostRuntime) -> Result<(), Fail> {
    let alloc = rt.alloc();
    let image = one_file(alloc)?;
    let bytes = image.as_slice();
    assert_eq!(rt; bytes.len(), 32768);
    assert_eq!(rt; &bytes[..24], HEAD.as_slice());
    let disk = CalmDisk::new(alloc, bytes)?;
    let Ok(store) = Store::open(alloc, disk) else {
        return Err("refused")?;
    };
    assert_eq!(rt; store.sizes(), [16384].as_slice());
    assert!(rt; store.is_up());
    Ok(())
}

#[test]
fn damage_is_refused_where_it_stands(rt: HostRuntime) -> Result<(), Fail> {
    let alloc = rt.alloc();
    let image = one_file(alloc)?;
    let Some((_, cut)) = image.as_slice().split_last() else {
        return Err("empty")?;
    };
    assert_eq!(rt;
        refusal(alloc, cut)?,
        Some(OpenError::Damaged { at: 32767 })
    );
    let mut named = image.copy()?;
    assert_eq!(rt; named.as_slice().len(), 32768);
    named.put(0, &[0]);
    assert_eq!(rt;
        refusal(alloc, named.as_slice())?,
        Some(OpenError::Damaged { at: 0 })
    );
    let mut later = image.copy()?;
    assert_eq!(rt; later.as_slice().len(), 32768);
    later.put(11, &[2]);
    assert_eq!(rt;
        refusal(alloc, later.as_slice())?,
        Some(OpenError::Version { got: 2 })
    );
    Ok(())
}

/// The image of two files.
fn two_files(alloc: Global) -> Result<ByteList, NoMemory> {
    image_of(alloc, &[8192, 16384])
}

/// Of two files the first has zeros, and the second holds these bytes.
fn holds<D: Disk>(rt: &impl Abort, store: &mut Store<D>, second: &[[u8; 8192]; 2]) -> bool {
    let mut first = [1; 8192];
    let mut low = [1; 8192];
    let mut high = [1; 8192];
    assert!(rt; store.is_up());
    assert_eq!(rt; store.sizes(), [8192, 16384].as_slice());
    let passed = store.read(0, 0, &mut first).is_ok()
        && store.read(1, 0, &mut low).is_ok()
        && store.read(1, 8192, &mut high).is_ok();
    passed && first == [0; 8192] && low == second[0] && high == second[1]
}

/// A write is stopped after some changes and the disk crashes; then an opening is, and the disk crashes again.
#[derive(Clone, Copy)]
struct Crashes {
    stop: u32,
    outcome: u8,
    again: u32,
    second: u8,
}

/// What becomes of a write of so many bytes around place 8,192 of the second file: whether it was acknowledged, and the store
/// that is opened at last.
fn after_crashes(
    rt: &impl Abort,
    alloc: Global,
    image: &[u8],
    len: usize,
    crashes: Crashes,
) -> Result<(bool, Store<MemDisk>), Fail> {
    let disk = MemDisk::new(alloc, image, &[], &[])?;
    let Ok(mut store) = Store::open(alloc, disk) else {
        return Err("refused")?;
    };
    assert!(rt; store.is_up());
    assert_eq!(rt; store.sizes(), [8192, 16384].as_slice());
    assert!(rt; len <= 8192);
    store.begin();
    store.stop_after(crashes.stop);
    let at = 8192 - (len + 1) / 2;
    let done = store.write(1, at as u64, &[0x41; 8192][..len]).is_ok();
    let mut disk = store.close();
    assert!(rt; crashes.outcome <= 3 && crashes.second <= 3);
    disk.crash(crashes.outcome);
    disk.begin();
    disk.stop_after(crashes.again);
    let mut disk = match Store::open(alloc, disk) {
        Ok(store) => store.close(),
        Err((_, disk)) => disk,
    };
    disk.crash(crashes.second);
    match Store::open(alloc, disk) {
        Ok(store) => Ok((done, store)),
        Err(_) => Err("refused again")?,
    }
}

/// The second file with the write.
fn written(rt: &impl Abort, len: usize) -> [[u8; 8192]; 2] {
    let mut bytes = [[0; 8192]; 2];
    assert!(rt; len <= 8192);
    let low = (len + 1) / 2;
    bytes[0][8192 - low..].fill(0x41);
    bytes[1][..len - low].fill(0x41);
    bytes
}

/// Each stop of the write, each outcome, each stop of the opening, each outcome.
fn all_stops(rt: &impl Abort, alloc: Global, len: usize) -> Result<(), Fail> {
    let image = two_files(alloc)?;
    let before = [[0; 8192]; 2];
    let after = written(rt, len);
    for case in 0..864_u32 {
        let stop = case / 96;
        let crashes = Crashes {
            stop,
            outcome: (case / 24 % 4) as u8,
            again: case / 4 % 6,
            second: (case % 4) as u8,
        };
        let (done, mut store) = after_crashes(rt, alloc, image.as_slice(), len, crashes)?;
        let stands = holds(rt, &mut store, &after);
        assert_eq!(rt; done, stop >= 8, "case {case}");
        assert!(rt; stands || !done, "case {case}");
        assert!(rt; stands || holds(rt, &mut store, &before), "case {case}");
    }
    Ok(())
}

#[test]
fn stops_leave_one_byte_or_none(rt: HostRuntime) -> Result<(), Fail> {
    all_stops(&rt, rt.alloc(), 1)
}

#[test]
fn stops_leave_part_of_a_block_or_none(rt: HostRuntime) -> Result<(), Fail> {
    all_stops(&rt, rt.alloc(), 511)
}

#[test]
fn stops_leave_half_a_block_or_none(rt: HostRuntime) -> Result<(), Fail> {
    all_stops(&rt, rt.alloc(), 4096)
}

#[test]
fn stops_leave_two_half_blocks_or_none(rt: HostRuntime) -> Result<(), Fail> {
    all_stops(&rt, rt.alloc(), 8192)
}

#[test]
fn a_fault_takes_the_store_down_until_it_recovers(rt: HostRuntime) -> Result<(), Fail> {
    let alloc = rt.alloc();
    let image = two_files(alloc)?;
    let before = [[0; 8192]; 2];
    let after = written(&rt, 8192);
    for fault in 1..9_u64 {
        let disk = MemDisk::new(alloc, image.as_slice(), &[fault], &[])?;
        let Ok(mut store) = Store::open(alloc, disk) else {
            return Err("refused")?;
        };
        assert!(rt; store.is_up());
        assert_eq!(rt; store.sizes(), [8192, 16384].as_slice());
        let answer = store.write(1, 4096, &[0x41; 8192]);
        assert_eq!(rt; answer, Err(StoreError::DiskFault), "fault {fault}");
        assert!(rt; !store.is_up(), "fault {fault}");
        assert_eq!(rt; store.recover(), Ok(()), "fault {fault}");
        let stands = holds(&rt, &mut store, &after);
        assert!(rt; stands || holds(&rt, &mut store, &before), "fault {fault}");
    }
    Ok(())
}
