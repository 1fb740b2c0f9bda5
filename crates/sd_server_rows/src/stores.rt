//! Acts on the swap file of a store.

use crate::disks::one_file;
use sd_nfs_server::{Acted, act_read, act_write, bring_up};
use sd_outside::{ByteList, MemDisk, NoMemory};
use sd_stable_disk::{Store, image_of};
use std::alloc::Global;
use std::process::Abort;
use std::test::Fail;

const DONE: Acted = Acted {
    status: 0,
    damaged: None,
};

pub const FAILED: Acted = Acted {
    status: 5,
    damaged: None,
};

/// A store with a swap file of 16,384 zeros, whose changes and reads of these numbers fail.
fn store_of(alloc: Global, changes: &[u64], reads: &[u64]) -> Result<Store<MemDisk>, Fail> {
    let image = one_file(alloc)?;
    let disk = MemDisk::new(alloc, image.as_slice(), changes, reads)?;
    match Store::open(alloc, disk) {
        Ok(store) => Ok(store),
        Err(_) => Err("refused")?,
    }
}

/// What reading a block gives, and whether all its bytes are this one.
fn reads(rt: &impl Abort, store: &mut Store<MemDisk>, at: u64, byte: u8) -> (Acted, bool) {
    let mut block = [7; 8192];
    assert_eq!(rt; store.sizes(), [16384].as_slice());
    assert!(rt; at <= 8192);
    let acted = act_read(store, at, &mut block);
    (acted, block == [byte; 8192])
}

fn writes(rt: &impl Abort, store: &mut Store<MemDisk>, at: u64, byte: u8) -> Acted {
    assert_eq!(rt; store.sizes(), [16384].as_slice());
    assert!(rt; at <= 8192);
    act_write(store, at, &[byte; 8192])
}

#[test]
fn what_is_written_is_read(rt: HostRuntime) -> Result<(), Fail> {
    let mut store = store_of(rt.alloc(), &[], &[])?;
    assert_eq!(rt; bring_up(&mut store), DONE);
    assert_eq!(rt; writes(&rt, &mut store, 8192, 0x41), DONE);
    assert_eq!(rt; reads(&rt, &mut store, 8192, 0x41), (DONE, true));
    assert_eq!(rt; reads(&rt, &mut store, 0, 0), (DONE, true));
    Ok(())
}

/// The first change of a write fails, then the first read of recovery, then the read after the next recovery. The opening
/// makes change 0 and reads 0 and 1.
#[test]
fn faults_are_status_5(rt: HostRuntime) -> Result<(), Fail> {
    let mut store = store_of(rt.alloc(), &[1], &[2, 4])?;
    assert_eq!(rt; writes(&rt, &mut store, 0, 0x41), FAILED);
    assert!(rt; !store.is_up());
    assert_eq!(rt; bring_up(&mut store), FAILED);
    assert!(rt; !store.is_up());
    assert_eq!(rt; reads(&rt, &mut store, 0, 0), (FAILED, false));
    assert!(rt; store.is_up());
    assert_eq!(rt; reads(&rt, &mut store, 0, 0), (DONE, true));
    assert_eq!(rt; writes(&rt, &mut store, 0, 0x41), DONE);
    assert_eq!(rt; reads(&rt, &mut store, 0, 0x41), (DONE, true));
    Ok(())
}

#[test]
fn a_write_brings_the_store_up(rt: HostRuntime) -> Result<(), Fail> {
    let mut store = store_of(rt.alloc(), &[3, 4], &[])?;
    assert_eq!(rt; writes(&rt, &mut store, 8192, 0x41), FAILED);
    assert!(rt; !store.is_up());
    assert_eq!(rt; writes(&rt, &mut store, 0, 0x42), FAILED);
    assert!(rt; !store.is_up());
    assert_eq!(rt; writes(&rt, &mut store, 0, 0x42), DONE);
    assert_eq!(rt; reads(&rt, &mut store, 0, 0x42), (DONE, true));
    assert_eq!(rt; reads(&rt, &mut store, 8192, 0), (DONE, true));
    Ok(())
}
