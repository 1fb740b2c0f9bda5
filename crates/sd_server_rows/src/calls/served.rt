//! Calls from their plan to their answer, over a store.

use crate::calls::rows::TREE;
use crate::calls::texts::{address, answer_text, call_of, tree_of};
use crate::disks::one_file;
use sd_nfs_msg::{NfsArgs, NfsResult};
use sd_nfs_server::{Acted, NfsPlan, Tree, act_read, act_write, bring_up, plan_nfs};
use sd_outside::{ByteList, MemDisk};
use sd_stable_disk::Store;
use std::alloc::Global;
use std::process::Abort;
use std::test::Fail;

/// Calls on the swap file and the kernel, one after another, the WRITEs of the letter A.
const CALLS: &str = "\
client write 1.1 8192 8192 | attr 1 33152 1 16384 32 2 1
client write 1.1 8193 8192 | 28
other write 1.1 8192 8192 | 13
client write 0.11 0 1 | 30
client write 1.1.2 0 1 | 70
client setattr 1.1 size | 1
client lookup 1.1 . | 20
client read 0.11 8192 8192 | read 1 33060 1 8193 17 1 11 4b
client read 1.1 8192 8192 | read 1 33152 1 16384 32 2 1 41*8192
client read 1.1 8191 2 | read 1 33152 1 16384 32 2 1 0041
client read 1.1 0 8192 | read 1 33152 1 16384 32 2 1 00*8192
client read 1.1 16383 8192 | read 1 33152 1 16384 32 2 1 41
client read 1.1 16384 8192 | read 1 33152 1 16384 32 2 1 -
other read 1.1 8192 1 | 13
client write 1.1 0 1 | attr 1 33152 1 16384 32 2 1
client write 1.1 16384 0 | attr 1 33152 1 16384 32 2 1
client read 1.1 0 2 | read 1 33152 1 16384 32 2 1 4100";

/// The same file where the first change of a WRITE fails, and then twice the first read of recovery.
const FAULTS: &str = "\
client write 1.1 0 1 | 5
client getattr 1.1 | attr 1 33152 1 16384 32 2 1
other write 1.1 8193 8192 | 5
client write 1.1 8193 8192 | 5
client write 1.1 8193 8192 | 28
client read 1.1 0 1 | read 1 33152 1 16384 32 2 1 00";

/// A store with a swap file of 16,384 zeros, whose changes and reads of these numbers fail.
fn store_of(alloc: Global, changes: &[u64], reads: &[u64]) -> Result<Store<MemDisk>, Fail> {
    let image = one_file(alloc)?;
    let disk = MemDisk::new(alloc, image.as_slice(), changes, reads)?;
    match Store::open(alloc, disk) {
        Ok(store) => Ok(store),
        Err(_) => Err("refused")?,
    }
}

/// Does what a plan of a READ or WRITE of the swap file asks of the store.
fn act(
    rt: &impl Abort,
    store: &mut Store<MemDisk>,
    args: &NfsArgs,
    done: &NfsResult,
    at: u64,
    into: &mut [u8],
) -> Acted {
    assert_eq!(rt; store.sizes(), [16384].as_slice());
    match done {
        NfsResult::Read { .. } => {
            assert!(rt; into.len() <= 8192 && at <= 16384 - into.len() as u64);
            act_read(store, at, into)
        }
        NfsResult::Write { .. } => {
            let NfsArgs::Write { bytes, .. } = args else {
                return bring_up(store);
            };
            let bytes = bytes.as_slice();
            assert!(rt; bytes.len() <= 8192 && at <= 16384 - bytes.len() as u64);
            act_write(store, at, bytes)
        }
        _ => bring_up(store),
    }
}

/// The text of the answer to a call.
fn served(
    rt: &impl Abort,
    alloc: Global,
    tree: &Tree,
    store: &mut Store<MemDisk>,
    from: u32,
    args: &NfsArgs,
) -> Result<String, Fail> {
    match plan_nfs(alloc, tree, from, args)? {
        NfsPlan::Now(answer) => answer_text(alloc, &answer),
        NfsPlan::Swap { done, at, len } => {
            let mut bytes = vec![in alloc; 0u8; len as usize]?;
            let acted = act(rt, store, args, &done, at, &mut bytes);
            if acted.status != 0 {
                let status = acted.status;
                return Ok(format!(in alloc; "{status}")?);
            }
            match done {
                NfsResult::Read { attr, .. } => {
                    let bytes = ByteList::from_vec(bytes);
                    answer_text(alloc, &NfsResult::Read { attr, bytes })
                }
                done => answer_text(alloc, &done),
            }
        }
    }
}

fn answers(
    rt: &impl Abort,
    alloc: Global,
    mut store: Store<MemDisk>,
    calls: &str,
) -> Result<(), Fail> {
    let tree = tree_of(alloc, TREE)?;
    for row in calls.lines() {
        let (call, want) = row.split_once(" | ").ok_or("no bar")?;
        let (from, call) = call.split_once(' ').ok_or("no caller")?;
        let args = call_of(alloc, call)?;
        let answer = served(rt, alloc, &tree, &mut store, address(from), &args)?;
        assert_eq!(rt; answer.as_str(), want, "{row}");
    }
    Ok(())
}

#[test]
fn the_swap_file_and_the_kernel(rt: HostRuntime) -> Result<(), Fail> {
    let alloc = rt.alloc();
    answers(&rt, alloc, store_of(alloc, &[], &[])?, CALLS)
}

#[test]
fn a_fault_stands_before_the_row(rt: HostRuntime) -> Result<(), Fail> {
    let alloc = rt.alloc();
    answers(&rt, alloc, store_of(alloc, &[1], &[2, 3])?, FAULTS)
}
