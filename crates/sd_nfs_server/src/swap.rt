//! The rows of the swap export (RFC 1094, 2.2).

ghost use Rattle.std.specs.Prelude.{◌≡◌, ◌≤◌, IfOk, replicate, if◌then◌else◌};
ghost use Rattle.sd_nfs_msg.specs.declared.message.NfsResult.TheVariants as results;
ghost use Rattle.sd_services.specs.Decisions.{changes_nothing, swap_attributes, blocks_of, statfs};
ghost use Rattle.sd_nfs_server.specs.Plan.{decision_of, swap_refused, swap_done, swap_reads, swap_writes, swap_decision};

use crate::attributes::swap_attributes;
use crate::plan::NfsPlan;
use crate::status::{ACCES, NOSPC, NOTDIR, NXIO, PERM};
use sd_nfs_msg::{NfsArgs, NfsResult, Sattr};
use sd_outside::{ByteList, NoMemory};
use std::alloc::Global;

/// A word of attributes that stays as it is.
const UNCHANGED: u32 = 0xffff_ffff;

fn changes_nothing(set: &Sattr) -> bool
    ensures { result ≡ changes_nothing set.now }
{
    set.mode == UNCHANGED
        && set.uid == UNCHANGED
        && set.gid == UNCHANGED
        && set.size == UNCHANGED
        && set.atime_s == UNCHANGED
        && set.atime_u == UNCHANGED
        && set.mtime_s == UNCHANGED
        && set.mtime_u == UNCHANGED
}

/// A refusal of a READ or WRITE of the swap file.
fn refused(status: u32) -> NfsPlan
    ensures { decision_of result ≡ swap_refused status }
{
    NfsPlan::Swap {
        done: NfsResult::Refused { status },
        at: 0,
        len: 0,
    }
}

/// A READ or WRITE of the swap file that is done.
fn answered(done: NfsResult, at: u32, len: u32) -> NfsPlan
    ensures { decision_of result ≡ swap_done done at len }
{
    NfsPlan::Swap {
        done,
        at: if len == 0 { 0 } else { at as u64 },
        len,
    }
}

fn zeros(alloc: Global, len: u32) -> Result<ByteList, NoMemory>
    requires { len ≤ 8192 }
    ensures { IfOk result (λ bytes. bytes ≡ replicate len 0) }
{
    match vec![in alloc; 0u8; len as usize] {
        Ok(zeros) => ByteList::from_slice(alloc, zeros.as_slice()),
        Err(_) => Err(NoMemory),
    }
}

fn swap_read(
    alloc: Global,
    owner: u32,
    from: u32,
    size: u32,
    offset: u32,
    count: u32,
) -> Result<NfsPlan, NoMemory>
    requires { size ≤ 33554432 }
    ensures { IfOk result (λ plan. decision_of plan ≡ swap_reads owner from size offset count) }
{
    if from != owner {
        return Ok(refused(ACCES));
    }
    let len = count.min(8192).min(size.saturating_sub(offset));
    let bytes = zeros(alloc, len)?;
    Ok(answered(
        NfsResult::Read {
            attr: swap_attributes(size),
            bytes,
        },
        offset,
        len,
    ))
}

fn swap_write(owner: u32, from: u32, size: u32, offset: u32, len: usize) -> NfsPlan
    requires { size ≤ 33554432 }
    ensures { decision_of result ≡ swap_writes owner from size offset len }
{
    if owner != from {
        refused(ACCES)
    } else if len > size as usize || offset > size - len as u32 {
        refused(NOSPC)
    } else {
        answered(
            NfsResult::Write {
                attr: swap_attributes(size),
            },
            offset,
            len as u32,
        )
    }
}

fn swap_setattr(size: u32, set: &Sattr) -> NfsResult
    requires { size ≤ 33554432 }
    ensures { result ≡ (if changes_nothing set.now then results.Setattr (swap_attributes size) else results.Refused 1) }
{
    if changes_nothing(set) {
        NfsResult::Setattr {
            attr: swap_attributes(size),
        }
    } else {
        NfsResult::Refused { status: PERM }
    }
}

fn swap_statfs(size: u32) -> NfsResult
    requires { size ≤ 33554432 }
    ensures { result ≡ statfs (blocks_of size) }
{
    NfsResult::Statfs {
        tsize: 8192,
        bsize: 8192,
        blocks: (size + 8191) / 8192,
        bfree: 0,
        bavail: 0,
    }
}

/// What is decided on a call for the swap file.
#[tactic(auto, using(crate::proofs::Zeros::reads_zeros))]
pub fn on_swap(
    alloc: Global,
    owner: u32,
    from: u32,
    size: u32,
    args: &NfsArgs,
) -> Result<NfsPlan, NoMemory>
    requires { size ≤ 33554432 }
    ensures { IfOk result (λ plan. decision_of plan ≡ swap_decision owner from size args.now) }
{
    let result = match args {
        NfsArgs::Null => NfsResult::Null,
        NfsArgs::Getattr { .. } => NfsResult::Getattr {
            attr: swap_attributes(size),
        },
        NfsArgs::Setattr { set, .. } => swap_setattr(size, set),
        NfsArgs::Readlink { .. } => NfsResult::Refused { status: NXIO },
        NfsArgs::Read { offset, count, .. } => {
            let plan = swap_read(alloc, owner, from, size, *offset, *count)?;
            return Ok(plan);
        }
        NfsArgs::Write { offset, bytes, .. } => {
            return Ok(swap_write(owner, from, size, *offset, bytes.as_slice().len()));
        }
        NfsArgs::Statfs { .. } => swap_statfs(size),
        _ => NfsResult::Refused { status: NOTDIR },
    };
    Ok(NfsPlan::Now(result))
}
