//! The server's bootparams: program 100026, version 1.
ghost use Rattle.std.specs.Prelude.{◌≡◌, ◌≤◌, ◌<◌, IfOk, IfSome};
ghost use Rattle.std.specs.Option.{option_map};
ghost use Rattle.sd_rpc_msg.specs.Layout.{OutcomeFits};
ghost use Rattle.sd_bootparams.specs.Layout.{args_kind, ResultFits};
ghost use Rattle.sd_bootparams.specs.Tables.{whoami_of, getfile_of};
ghost use Rattle.sd_bootparams.specs.declared.message.BpResult.TheVariants as results;
ghost use Rattle.sd_config.specs.Config.{IsConfig};
ghost use Rattle.sd_services.specs.RpcCalls.{spelled, answered, accepted, reply_to};
ghost use Rattle.sd_services.specs.RpcReply.{bp_args_in, bp_answer, bootparams};
ghost use Rattle.sd_server.specs.Services.{bp_found};

use crate::coming::{Coming, arrive, auth_null, known, refusal, with_xid};
use crate::service::Service;
use crate::setup::Setup;
use sd_bootparams::{Book, BpArgs, BpResult, read_bp_args, write_bp_result};
use sd_outside::{ByteList, NoMemory};
use sd_rpc_msg::{Outcome, Reply};
use std::alloc::Global;

/// The arguments that the bytes spell.
fn bp_args_in(alloc: Global, proc_no: u32, bytes: &[u8]) -> Result<Option<BpArgs>, NoMemory>
    requires { proc_no ≤ 2 }
    ensures { IfOk result (λ found. found ≡ option_map bp_args_in (spelled (args_kind proc_no) bytes.now)) }
{
    known(read_bp_args(alloc, proc_no, bytes))
}

/// BOOTPARAMPROC_WHOAMI.
fn whoami(alloc: Global, book: &Book, ip: u32) -> Result<Option<BpResult>, NoMemory>
    ensures { IfOk result (λ answer. answer ≡ option_map (λ found. results.Whoami found.0 found.1 found.2) (whoami_of book.now ip)) }
{
    match book.whoami(ip) {
        None => Ok(None),
        Some((client, domain, router)) => Ok(Some(BpResult::Whoami {
            client: ByteList::from_slice(alloc, client)?,
            domain: ByteList::from_slice(alloc, domain)?,
            router,
        })),
    }
}

/// BOOTPARAMPROC_GETFILE.
fn getfile(
    alloc: Global,
    book: &Book,
    client: &[u8],
    key: &[u8],
) -> Result<Option<BpResult>, NoMemory>
    ensures { IfOk result (λ answer. answer ≡ option_map (λ found. results.Getfile found.0 found.1 found.2) (getfile_of book.now client.now key.now)) }
{
    match book.getfile(client, key) {
        None => Ok(None),
        Some((server, ip, path)) => Ok(Some(BpResult::Getfile {
            server: ByteList::from_slice(alloc, server)?,
            ip,
            path: ByteList::from_slice(alloc, path)?,
        })),
    }
}

/// What the book has for these arguments.
fn bp_answer(alloc: Global, setup: &Setup, args: &BpArgs) -> Result<Option<BpResult>, NoMemory>
    ensures answer { IfOk result (λ answer. answer ≡ bp_answer setup.now args.now) }
    ensures rules { IsConfig setup.now }
{
    let book = setup.book();
    match args {
        BpArgs::Null => Ok(Some(BpResult::Void)),
        BpArgs::Whoami { ip } => whoami(alloc, book, *ip),
        BpArgs::Getfile { client, key } => getfile(alloc, book, client.as_slice(), key.as_slice()),
    }
}

/// The same, which has room in a message.
fn bp_fitting(alloc: Global, setup: &Setup, args: &BpArgs) -> Result<Option<BpResult>, NoMemory>
    ensures answer { IfOk result (λ answer. answer ≡ bp_answer setup.now args.now) }
    ensures fits { IfOk result (λ answer. IfSome answer ResultFits) }
{
    bp_answer(alloc, setup, args)
}

/// A call with the arguments that were found.
fn bp_found(
    alloc: Global,
    setup: &Setup,
    found: Option<BpArgs>,
) -> Result<Option<Outcome>, NoMemory>
    ensures outcome { IfOk result (λ o. o ≡ bp_found setup.now found) }
    ensures fits { IfOk result (λ o. IfSome o OutcomeFits) }
{
    let Some(args) = found else {
        let verf = auth_null(alloc);
        return Ok(Some(Outcome::GarbageArgs { verf }));
    };
    match bp_fitting(alloc, setup, &args)? {
        None => Ok(None),
        Some(answer) => {
            let results = write_bp_result(alloc, &answer)?;
            let verf = auth_null(alloc);
            Ok(Some(Outcome::Success { verf, results }))
        }
    }
}

/// A call of a procedure with these arguments.
fn bp_answered(
    alloc: Global,
    setup: &Setup,
    proc_no: u32,
    args: &[u8],
) -> Result<Option<Outcome>, NoMemory>
    requires { proc_no ≤ 2 }
    ensures outcome { IfOk result (λ o. o ≡ answered (bootparams setup.now) (spelled (args_kind proc_no) args.now)) }
    ensures fits { IfOk result (λ o. IfSome o OutcomeFits) }
{
    let found = bp_args_in(alloc, proc_no, args)?;
    bp_found(alloc, setup, found)
}

/// An accepted call.
pub fn bp_accepted(
    alloc: Global,
    setup: &Setup,
    prog: u32,
    vers: u32,
    proc_no: u32,
    args: &[u8],
) -> Result<Option<Outcome>, NoMemory>
    ensures outcome { IfOk result (λ o. o ≡ accepted (bootparams setup.now) prog vers proc_no args.now) }
    ensures fits { IfOk result (λ o. IfSome o OutcomeFits) }
{
    match refusal(alloc, Service::Bootparams, prog, vers, proc_no) {
        Some(refused) => Ok(Some(refused)),
        None => Ok(bp_answered(alloc, setup, proc_no, args)?),
    }
}

/// The reply to a datagram with this body.
pub fn bp_reply(alloc: Global, setup: &Setup, body: &[u8]) -> Result<Option<Reply>, NoMemory>
    ensures reply { IfOk result (λ r. r ≡ reply_to (bootparams setup.now) body.now) }
    ensures fits { IfOk result (λ r. IfSome r (λ reply. OutcomeFits reply.outcome)) }
{
    match arrive(alloc, Service::Bootparams, body)? {
        Coming::Nowhere => Ok(None),
        Coming::Refused(reply) => Ok(Some(reply)),
        Coming::Asks { xid, proc_no, args } => {
            let outcome = bp_answered(alloc, setup, proc_no, args.as_slice())?;
            Ok(with_xid(xid, outcome))
        }
    }
}
