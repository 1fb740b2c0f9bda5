//! What the server decides on a call.

ghost use Rattle.std.specs.Prelude.{◌≡◌, ℕ, List, IfOk, IfSome, MatchOption, Some, None};
ghost use Rattle.sd_nfs_msg.specs.Layout.{ResultFits};
ghost use Rattle.sd_services.specs.Decisions.{first_handle, nfs_result};
ghost use Rattle.sd_services.specs.NfsReply.{nfs_change, uses_swap};
ghost use Rattle.sd_nfs_server.specs.Fits.{FilesFit};
ghost use Rattle.sd_nfs_server.specs.Live.{IsLive};
ghost use Rattle.sd_nfs_server.specs.Plan.{decision_of, decision, place_decision, IsSwapContent, answer_of, change_of, bytes_of, is_swap, HasRange};

use crate::root::on_root;
use crate::status::STALE;
use crate::swap::on_swap;
use crate::tree::Tree;
use sd_nfs_msg::{NfsArgs, NfsResult};
use sd_outside::{FHandle, NoMemory};
use std::alloc::Global;

/// What the server does for a call.
#[derive(Debug, Drop)]
pub enum NfsPlan {
    /// It answers this.
    Now(NfsResult),
    /// The call is a READ or WRITE of the swap file. The server reads or writes `len` bytes of it from `at`, and answers `done`,
    /// or status 5 where the store refuses. A READ's `done` has zeros in place of these bytes. Where `done` is a refusal, there
    /// are none, and the store is only brought up. Without bytes `at` is 0.
    Swap { done: NfsResult, at: u64, len: u32 },
}

/// The handle that is looked up first.
fn first_handle(args: &NfsArgs) -> Option<&FHandle>
    ensures { MatchOption result (first_handle args.now ≡ None) (λ h. first_handle args.now ≡ Some h.now) }
{
    match args {
        NfsArgs::Null => None,
        NfsArgs::Getattr { file }
        | NfsArgs::Setattr { file, .. }
        | NfsArgs::Readlink { file }
        | NfsArgs::Read { file, .. }
        | NfsArgs::Write { file, .. }
        | NfsArgs::Statfs { file } => Some(file),
        NfsArgs::Lookup { dir, .. }
        | NfsArgs::Create { dir, .. }
        | NfsArgs::Remove { dir, .. }
        | NfsArgs::Rename { dir, .. }
        | NfsArgs::Symlink { dir, .. }
        | NfsArgs::Mkdir { dir, .. }
        | NfsArgs::Rmdir { dir, .. }
        | NfsArgs::Readdir { dir, .. } => Some(dir),
        NfsArgs::Link { from, .. } => Some(from),
    }
}

/// What is decided on a call for a live file.
fn plan_live(
    alloc: Global,
    tree: &Tree,
    export: u32,
    file: u32,
    from: u32,
    args: &NfsArgs,
) -> Result<NfsPlan, NoMemory>
    requires { IsLive tree.now (export, file) }
    ensures { IfOk result (λ plan. decision_of plan ≡ place_decision tree.now from (Some (export, file)) args.now) }
{
    if export == 0 {
        return Ok(NfsPlan::Now(on_root(alloc, tree.nodes(), file, args)?));
    }
    match tree.swap() {
        Some(size) => Ok(on_swap(alloc, tree.owner(), from, size, args)?),
        None => Ok(NfsPlan::Now(NfsResult::Refused { status: STALE })),
    }
}

/// What is decided on a call from an address, by the first handle alone.
#[tactic(auto, using(crate::proofs::Handles::names))]
fn decide(alloc: Global, tree: &Tree, from: u32, args: &NfsArgs) -> Result<NfsPlan, NoMemory>
    ensures exact { IfOk result (λ plan. decision_of plan ≡ decision tree.now from args.now) }
    ensures fit { IfSome (first_handle args.now) (λ h. FilesFit tree.now) }
{
    match first_handle(args) {
        None => Ok(NfsPlan::Now(NfsResult::Null)),
        Some(handle) => match tree.live_file(handle) {
            Some((export, file)) => Ok(plan_live(alloc, tree, export, file, from, args)?),
            None => Ok(NfsPlan::Now(NfsResult::Refused { status: STALE })),
        },
    }
}

/// What the server does for a call from an address (RFC 1094, section 2.2). The caller's address counts for the swap file alone.
#[tactic(auto, using(crate::proofs::Replies::replies, crate::proofs::Replies::uses, crate::proofs::Replies::changes, crate::proofs::Replies::ranges))]
pub fn plan_nfs(alloc: Global, tree: &Tree, from: u32, args: &NfsArgs) -> Result<NfsPlan, NoMemory>
    ensures exact { IfOk result (λ plan. decision_of plan ≡ decision tree.now from args.now) }
    ensures reply { IfOk result (λ plan. (content : List ℕ) → IsSwapContent tree.now.swap content → answer_of plan content ≡ nfs_result tree.now content from args.now) }
    ensures change { IfOk result (λ plan. change_of plan (bytes_of args.now) ≡ nfs_change tree.now from args.now) }
    ensures swap { IfOk result (λ plan. is_swap plan ≡ uses_swap tree.now args.now) }
    ensures range { IfOk result (λ plan. HasRange tree.now.swap args.now plan) }
    ensures fits { IfOk result (λ plan. ResultFits (decision_of plan).done) }
{
    let plan = decide(alloc, tree, from, args)?;
    Ok(plan)
}
