//! The server's NFS: program 100003, version 2 (RFC 1094).
ghost use Rattle.std.specs.Prelude.{◌≡◌, ◌≢◌, ◌≤◌, ◌<◌, IfOk, IfSome};
ghost use Rattle.std.specs.Option.{option_map};
ghost use Rattle.sd_nfs_msg.specs.Layout.{args_kind, ArgsFit, ResultFits};
ghost use Rattle.sd_rpc_msg.specs.Layout.{OutcomeFits};
ghost use Rattle.sd_services.specs.RpcCalls.{spelled};
ghost use Rattle.sd_services.specs.NfsCalls.{nfs_args_in};
ghost use Rattle.sd_nfs_server.specs.Plan.{is_write};
ghost use Rattle.sd_nfs_server.specs.declared.plan.NfsPlan.TheVariants.{Swap};
ghost use Rattle.sd_server.specs.NfsTurns.{is_read, IsTurn, IsFoundTurn, IsPlanned, IsActOf, IsWriteOf};
ghost use Rattle.sd_server.specs.Access.{given_reply};

use crate::access::Act;
use crate::coming::{Coming, arrive, auth_null, known};
use crate::service::Service;
use crate::setup::Setup;
use sd_nfs_msg::{NfsArgs, NfsResult, read_args, write_result};
use sd_nfs_server::{NfsPlan, plan_nfs};
use sd_outside::NoMemory;
use sd_rpc_msg::{Outcome, Reply};
use std::alloc::Global;

/// What NFS does with a datagram.
#[derive(Drop)]
pub enum NfsTurn {
    /// It is ignored.
    Ignores,
    /// It is answered.
    Replies(Reply),
    /// This is done to the store, and then answered.
    Does { xid: u32, done: NfsResult, act: Act },
}

/// The arguments that the bytes spell.
fn nfs_args_in(alloc: Global, proc_no: u32, bytes: &[u8]) -> Result<Option<NfsArgs>, NoMemory>
    requires limit { proc_no ≤ 17 }
    requires not_root { proc_no ≢ 3 }
    requires not_writecache { proc_no ≢ 7 }
    ensures found { IfOk result (λ found. found ≡ option_map nfs_args_in (spelled (args_kind proc_no) bytes.now)) }
    ensures fits { IfOk result (λ found. IfSome found ArgsFit) }
{
    known(read_args(alloc, proc_no, bytes))
}

fn is_read(done: &NfsResult) -> bool
    ensures { result ≡ is_read done.now }
{
    match done {
        NfsResult::Read { .. } => true,
        _ => false,
    }
}

fn is_write(done: &NfsResult) -> bool
    ensures { result ≡ is_write done.now }
{
    match done {
        NfsResult::Write { .. } => true,
        _ => false,
    }
}

/// What a WRITE's arguments write, or nothing where they have no bytes.
fn write_of(at: u64, len: u32, args: NfsArgs) -> Act
    ensures { IsWriteOf at len args result }
{
    if len == 0 {
        return Act::Nothing;
    }
    match args {
        NfsArgs::Write { bytes, .. } => Act::Write { at, bytes },
        _ => Act::Nothing,
    }
}

/// What is done to the store for a plan.
fn act_of(
    alloc: Global,
    done: &NfsResult,
    at: u64,
    len: u32,
    args: NfsArgs,
) -> Result<Act, NoMemory>
    ensures { IfOk result (IsActOf done.now at len args) }
{
    if is_read(done) {
        let buffer = vec![in alloc; 0; len as usize]?;
        return Ok(Act::Read { at, buffer });
    }
    if is_write(done) {
        return Ok(write_of(at, len, args));
    }
    Ok(Act::Nothing)
}

/// The reply with this result.
fn given_reply(alloc: Global, xid: u32, done: &NfsResult) -> Result<Reply, NoMemory>
    requires { ResultFits done.now }
    ensures reply { IfOk result (λ reply. reply ≡ given_reply xid done.now) }
    ensures fits { IfOk result (λ reply. OutcomeFits reply.outcome) }
{
    let results = write_result(alloc, done)?;
    let verf = auth_null(alloc);
    let outcome = Outcome::Success { verf, results };
    Ok(Reply { xid, outcome })
}

/// A call of a procedure with arguments.
fn nfs_planned(
    alloc: Global,
    setup: &Setup,
    from: u32,
    xid: u32,
    args: NfsArgs,
) -> Result<NfsTurn, NoMemory>
    requires { ArgsFit args }
    ensures { IfOk result (IsPlanned setup.now from xid args) }
{
    match plan_nfs(alloc, setup.tree(), from, &args)? {
        NfsPlan::Now(done) => Ok(NfsTurn::Replies(given_reply(alloc, xid, &done)?)),
        NfsPlan::Swap { done, at, len } => {
            let act = act_of(alloc, &done, at, len, args)?;
            Ok(NfsTurn::Does { xid, done, act })
        }
    }
}

/// A call with the arguments that were found.
fn nfs_found(
    alloc: Global,
    setup: &Setup,
    from: u32,
    xid: u32,
    found: Option<NfsArgs>,
) -> Result<NfsTurn, NoMemory>
    requires { IfSome found ArgsFit }
    ensures { IfOk result (IsFoundTurn setup.now from xid found) }
{
    match found {
        None => {
            let verf = auth_null(alloc);
            let outcome = Outcome::GarbageArgs { verf };
            Ok(NfsTurn::Replies(Reply { xid, outcome }))
        }
        Some(args) => Ok(nfs_planned(alloc, setup, from, xid, args)?),
    }
}

/// What NFS does with a datagram from an address.
pub fn nfs_turn(alloc: Global, setup: &Setup, from: u32, body: &[u8]) -> Result<NfsTurn, NoMemory>
    ensures { IfOk result (IsTurn setup.now from body.now) }
{
    match arrive(alloc, Service::Nfs, body)? {
        Coming::Nowhere => Ok(NfsTurn::Ignores),
        Coming::Refused(reply) => Ok(NfsTurn::Replies(reply)),
        Coming::Asks { xid, proc_no, args } => {
            let found = nfs_args_in(alloc, proc_no, args.as_slice())?;
            Ok(nfs_found(alloc, setup, from, xid, found)?)
        }
    }
}
