//! The server's portmapper: program 100000, version 2 (RFC 1057, appendix A).
ghost use Rattle.std.specs.Prelude.{◌≡◌, ◌≤◌, ◌++◌, IfOk, IfSome, OnOk};
ghost use Rattle.std.specs.Option.{option_map};
ghost use Rattle.sd_rpc_msg.specs.Layout.{OutcomeFits};
ghost use Rattle.sd_portmap.specs.Layout.{args_kind, ResultFits};
ghost use Rattle.sd_portmap.specs.declared.message.PmapResult.TheVariants as results;
ghost use Rattle.sd_config.specs.Config.{IsConfig};
ghost use Rattle.sd_services.specs.RpcCalls.{spelled, answered, accepted, reply_to};
ghost use Rattle.sd_services.specs.RpcReply.{pmap_args_in, pmap_answer, mappings, portmapper, bootparams, results_in, bootparams_port};
ghost use Rattle.sd_server.specs.Services.{pmap_found};

use crate::bootparams::bp_accepted;
use crate::coming::{Coming, arrive, auth_null, known, with_xid};
use crate::service::{BOOTPARAMS_PORT, Service};
use crate::setup::Setup;
use sd_outside::NoMemory;
use sd_portmap::{Mapping, MappingList, PmapArgs, PmapResult, read_pmap_args, write_pmap_result};
use sd_rpc_msg::{Outcome, Reply};
use std::alloc::Global;

/// The arguments that the bytes spell.
fn pmap_args_in(alloc: Global, proc_no: u32, bytes: &[u8]) -> Result<Option<PmapArgs>, NoMemory>
    requires { proc_no ≤ 5 }
    ensures { IfOk result (λ found. found ≡ option_map pmap_args_in (spelled (args_kind proc_no) bytes.now)) }
{
    known(read_pmap_args(alloc, proc_no, bytes))
}

fn push_mappings(list: &mut MappingList, more: &[Mapping]) -> Result<(), NoMemory>
    ensures { OnOk result (list.new ≡ list.old ++ more.now) }
{
    for mapping in more {
        list.push(*mapping)?;
    }
    Ok(())
}

/// All mappings of the table.
fn mappings(alloc: Global, setup: &Setup) -> Result<MappingList, NoMemory>
    ensures { IfOk result (λ list. list ≡ mappings) }
{
    let mut list = MappingList::empty(alloc);
    push_mappings(&mut list, setup.table().dump())?;
    Ok(list)
}

/// PMAPPROC_CALLIT.
fn callit(
    alloc: Global,
    setup: &Setup,
    prog: u32,
    vers: u32,
    proc_no: u32,
    args: &[u8],
) -> Result<Option<PmapResult>, NoMemory>
    ensures answer { IfOk result (λ answer. answer ≡ option_map (results.Callit bootparams_port) (results_in (accepted (bootparams setup.now) prog vers proc_no args.now))) }
    ensures rules { IsConfig setup.now }
{
    setup.config();
    match bp_accepted(alloc, setup, prog, vers, proc_no, args)? {
        Some(Outcome::Success { results, .. }) => {
            let port = BOOTPARAMS_PORT as u32;
            Ok(Some(PmapResult::Callit { port, results }))
        }
        _ => Ok(None),
    }
}

/// What the portmapper answers to these arguments.
fn pmap_answer(
    alloc: Global,
    setup: &Setup,
    args: &PmapArgs,
) -> Result<Option<PmapResult>, NoMemory>
    ensures answer { IfOk result (λ answer. answer ≡ pmap_answer setup.now args.now) }
{
    match args {
        PmapArgs::Null => Ok(Some(PmapResult::Void)),
        PmapArgs::Set(_) => Ok(Some(PmapResult::Flag(false))),
        PmapArgs::Unset(_) => Ok(Some(PmapResult::Flag(false))),
        PmapArgs::Getport(wanted) => Ok(Some(PmapResult::Port(
            setup.table().get(wanted.prog, wanted.vers, wanted.prot),
        ))),
        PmapArgs::Dump => Ok(Some(PmapResult::Mappings(mappings(alloc, setup)?))),
        PmapArgs::Callit {
            prog,
            vers,
            proc_no,
            args,
        } => callit(alloc, setup, *prog, *vers, *proc_no, args.as_slice()),
    }
}

/// The same, which has room in a message.
fn pmap_fitting(
    alloc: Global,
    setup: &Setup,
    args: &PmapArgs,
) -> Result<Option<PmapResult>, NoMemory>
    ensures answer { IfOk result (λ answer. answer ≡ pmap_answer setup.now args.now) }
    ensures fits { IfOk result (λ answer. IfSome answer ResultFits) }
{
    setup.config();
    pmap_answer(alloc, setup, args)
}

/// A call with the arguments that were found.
fn pmap_found(
    alloc: Global,
    setup: &Setup,
    found: Option<PmapArgs>,
) -> Result<Option<Outcome>, NoMemory>
    ensures outcome { IfOk result (λ o. o ≡ pmap_found setup.now found) }
    ensures fits { IfOk result (λ o. IfSome o OutcomeFits) }
{
    let Some(args) = found else {
        let verf = auth_null(alloc);
        return Ok(Some(Outcome::GarbageArgs { verf }));
    };
    match pmap_fitting(alloc, setup, &args)? {
        None => Ok(None),
        Some(answer) => {
            let results = write_pmap_result(alloc, &answer)?;
            let verf = auth_null(alloc);
            Ok(Some(Outcome::Success { verf, results }))
        }
    }
}

/// A call of a procedure with these arguments.
fn pmap_answered(
    alloc: Global,
    setup: &Setup,
    proc_no: u32,
    args: &[u8],
) -> Result<Option<Outcome>, NoMemory>
    requires { proc_no ≤ 5 }
    ensures outcome { IfOk result (λ o. o ≡ answered (portmapper setup.now) (spelled (args_kind proc_no) args.now)) }
    ensures fits { IfOk result (λ o. IfSome o OutcomeFits) }
{
    let found = pmap_args_in(alloc, proc_no, args)?;
    pmap_found(alloc, setup, found)
}

/// The reply to a datagram with this body.
pub fn pmap_reply(alloc: Global, setup: &Setup, body: &[u8]) -> Result<Option<Reply>, NoMemory>
    ensures reply { IfOk result (λ r. r ≡ reply_to (portmapper setup.now) body.now) }
    ensures fits { IfOk result (λ r. IfSome r (λ reply. OutcomeFits reply.outcome)) }
{
    match arrive(alloc, Service::Portmapper, body)? {
        Coming::Nowhere => Ok(None),
        Coming::Refused(reply) => Ok(Some(reply)),
        Coming::Asks { xid, proc_no, args } => {
            let outcome = pmap_answered(alloc, setup, proc_no, args.as_slice())?;
            Ok(with_xid(xid, outcome))
        }
    }
}
