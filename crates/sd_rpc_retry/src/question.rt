//! What is asked by a call of a procedure, and the type of its answer: the trait, the portmapper and bootparams, and calls of any kind.
ghost use Rattle.std.specs.Prelude.{◌≡◌, ◌≤◌, length, IfOk};
ghost use Rattle.std.specs.Option.{option_map};
ghost use Rattle.sd_portmap.specs.Layout as portmap;
ghost use Rattle.sd_services.specs.RpcCalls.{spelled};
ghost use Rattle.sd_rpc_retry.specs.declared.calling.Answer.TheVariants as answer;
ghost use Rattle.sd_rpc_retry.specs.Calling.{call_for, AskFits, is_relayed, port_in, whoami_in, getfile_in, bootparams_says, answer_in, named, located};

use crate::calling::{Answer, Ask};
use crate::nfs_question::{given_answer, nfs_answer_in};
use crate::reply::{bootparams_result_in, pmap_result_in};
use crate::request::{getfile_call, getport_call, is_relayed, mnt_call, nfs_call, whoami_call};
use sd_bootparams::BpResult;
use sd_outside::{Addr, ByteList, NoMemory};
use sd_portmap::PmapResult;
use sd_rpc_msg::Call;
use std::alloc::Global;

/// What is asked by one call.
pub trait Question {
    ghost use Rattle.sd_rpc_retry.specs.declared.calling.Ask.{Ask};
    ghost use Rattle.sd_rpc_retry.specs.declared.calling.Answer.{Answer};

    /// What its results tell.
    type Told;

    /// What is asked.
    ghost ask: { Self → Ask };

    /// What is told, as an answer.
    ghost shown: { Self.Told → Answer };

    /// The call of a machine, whose name has at most 255 bytes.
    fn call(&self, alloc: Global, machine: &ByteList, xid: u32, dst: Addr) -> Result<Call, NoMemory>
        requires machine { length machine.now ≤ 255 }
        requires fits { AskFits (ask self.now) }
        ensures { IfOk result (λ call. call ≡ call_for machine.now xid dst (ask self.now)) };

    /// What results from this address tell, or nothing where they are none of this procedure.
    fn told(
        &self,
        alloc: Global,
        dst: Addr,
        from: u32,
        results: &[u8],
    ) -> Result<Option<Self::Told>, NoMemory>
        ensures { IfOk result (λ found. option_map shown found ≡ answer_in (ask self.now) dst from results.now) };
}

/// The port in a result of PMAPPROC_GETPORT.
fn port_in(alloc: Global, results: &[u8]) -> Result<Option<u16>, NoMemory>
    ensures { IfOk result (λ found. option_map answer.Port found ≡ port_in (spelled (portmap.result_kind 3) results.now)) }
{
    match pmap_result_in(alloc, 3, results)? {
        Some(PmapResult::Port(port)) => Ok(Some(port as u16)),
        _ => Ok(None),
    }
}

/// What a machine is called.
#[derive(Debug, Drop)]
pub struct Named {
    /// The address of who replied.
    pub from: u32,
    /// Its name and its domain.
    pub client: ByteList,
    pub domain: ByteList,
    /// The address of its router.
    pub router: u32,
}

/// What a result of BOOTPARAMPROC_WHOAMI tells.
fn whoami_in(
    alloc: Global,
    from: u32,
    relayed: bool,
    results: &[u8],
) -> Result<Option<Named>, NoMemory>
    ensures { IfOk result (λ found. option_map named found ≡ option_map (whoami_in from) (bootparams_says 1 relayed results.now)) }
{
    match bootparams_result_in(alloc, 1, relayed, results)? {
        Some(
            BpResult::Whoami {
                client,
                domain,
                router,
            },
        ) => Ok(Some(Named {
            from,
            client,
            domain,
            router,
        })),
        _ => Ok(None),
    }
}

/// Where a file is.
#[derive(Debug, Drop)]
pub struct Located {
    /// The address of who replied.
    pub from: u32,
    /// The server's name and address.
    pub server: ByteList,
    pub ip: u32,
    /// The path there.
    pub path: ByteList,
}

/// What a result of BOOTPARAMPROC_GETFILE tells.
fn getfile_in(
    alloc: Global,
    from: u32,
    relayed: bool,
    results: &[u8],
) -> Result<Option<Located>, NoMemory>
    ensures { IfOk result (λ found. option_map located found ≡ option_map (getfile_in from) (bootparams_says 2 relayed results.now)) }
{
    match bootparams_result_in(alloc, 2, relayed, results)? {
        Some(BpResult::Getfile { server, ip, path }) => Ok(Some(Located {
            from,
            server,
            ip,
            path,
        })),
        _ => Ok(None),
    }
}

/// Asks for the port at which a program's version is reached by UDP (RFC 1057, appendix A). It is 0 where the program isn't there.
#[derive(Clone, Copy, Debug)]
pub struct Getport {
    pub prog: u32,
    pub vers: u32,
}

impl Question for Getport {
    ghost use Rattle.sd_rpc_retry.specs.declared.calling.Ask.TheVariants as asks;
    ghost use Rattle.sd_rpc_retry.specs.declared.calling.Answer.TheVariants as answer;

    type Told = u16;

    ghost ask = { λ q. asks.Getport q.prog q.vers };

    ghost shown = { λ port. answer.Port port };

    fn call(
        &self,
        alloc: Global,
        _machine: &ByteList,
        xid: u32,
        _dst: Addr,
    ) -> Result<Call, NoMemory> {
        getport_call(alloc, xid, self.prog, self.vers)
    }

    fn told(
        &self,
        alloc: Global,
        _dst: Addr,
        _from: u32,
        results: &[u8],
    ) -> Result<Option<u16>, NoMemory> {
        port_in(alloc, results)
    }
}

/// Asks what the machine with this address is called (bootparams).
#[derive(Clone, Copy, Debug)]
pub struct Whoami {
    pub ip: u32,
}

impl Question for Whoami {
    ghost use Rattle.sd_rpc_retry.specs.declared.calling.Ask.TheVariants as asks;
    ghost use Rattle.sd_rpc_retry.specs.Calling.{named};

    type Told = Named;

    ghost ask = { λ q. asks.Whoami q.ip };

    ghost shown = { λ told. named told };

    fn call(
        &self,
        alloc: Global,
        _machine: &ByteList,
        xid: u32,
        dst: Addr,
    ) -> Result<Call, NoMemory> {
        whoami_call(alloc, xid, dst, self.ip)
    }

    fn told(
        &self,
        alloc: Global,
        dst: Addr,
        from: u32,
        results: &[u8],
    ) -> Result<Option<Named>, NoMemory> {
        whoami_in(alloc, from, is_relayed(dst), results)
    }
}

/// Asks where a client, whose name has at most 255 bytes, finds the file that a key of at most 32 bytes stands for (bootparams).
#[derive(Debug, Drop)]
pub struct Getfile {
    pub client: ByteList,
    pub key: ByteList,
}

impl Question for Getfile {
    ghost use Rattle.sd_rpc_retry.specs.declared.calling.Ask.TheVariants as asks;
    ghost use Rattle.sd_rpc_retry.specs.Calling.{located};

    type Told = Located;

    ghost ask = { λ q. asks.Getfile q.client q.key };

    ghost shown = { λ told. located told };

    fn call(
        &self,
        alloc: Global,
        _machine: &ByteList,
        xid: u32,
        dst: Addr,
    ) -> Result<Call, NoMemory> {
        getfile_call(alloc, xid, dst, &self.client, &self.key)
    }

    fn told(
        &self,
        alloc: Global,
        dst: Addr,
        from: u32,
        results: &[u8],
    ) -> Result<Option<Located>, NoMemory> {
        getfile_in(alloc, from, is_relayed(dst), results)
    }
}

/// A call of any procedure, where it is only known when it runs what is asked.
impl Question for Ask {
    type Told = Answer;

    ghost ask = { λ ask. ask };

    ghost shown = { λ answer. answer };

    fn call(
        &self,
        alloc: Global,
        machine: &ByteList,
        xid: u32,
        dst: Addr,
    ) -> Result<Call, NoMemory> {
        match self {
            Ask::Getport { prog, vers } => getport_call(alloc, xid, *prog, *vers),
            Ask::Whoami { ip } => whoami_call(alloc, xid, dst, *ip),
            Ask::Getfile { client, key } => getfile_call(alloc, xid, dst, client, key),
            Ask::Mnt { path } => mnt_call(alloc, machine, xid, path.as_slice()),
            Ask::Nfs(args) => nfs_call(alloc, machine, xid, args),
        }
    }

    fn told(
        &self,
        alloc: Global,
        dst: Addr,
        from: u32,
        results: &[u8],
    ) -> Result<Option<Answer>, NoMemory> {
        match self {
            Ask::Getport { .. } => port_answer(alloc, results),
            Ask::Whoami { .. } => whoami_answer(alloc, dst, from, results),
            Ask::Getfile { .. } => getfile_answer(alloc, dst, from, results),
            Ask::Mnt { .. } => given_answer(alloc, results),
            Ask::Nfs(args) => nfs_answer_in(alloc, args, results),
        }
    }
}

fn port_answer(alloc: Global, results: &[u8]) -> Result<Option<Answer>, NoMemory>
    ensures { IfOk result (λ found. found ≡ port_in (spelled (portmap.result_kind 3) results.now)) }
{
    match port_in(alloc, results)? {
        Some(port) => Ok(Some(Answer::Port(port))),
        None => Ok(None),
    }
}

fn whoami_answer(
    alloc: Global,
    dst: Addr,
    from: u32,
    results: &[u8],
) -> Result<Option<Answer>, NoMemory>
    ensures { IfOk result (λ found. found ≡ option_map (whoami_in from) (bootparams_says 1 (is_relayed dst) results.now)) }
{
    match whoami_in(alloc, from, is_relayed(dst), results)? {
        Some(told) => Ok(Some(Answer::Whoami {
            from: told.from,
            client: told.client,
            domain: told.domain,
            router: told.router,
        })),
        None => Ok(None),
    }
}

fn getfile_answer(
    alloc: Global,
    dst: Addr,
    from: u32,
    results: &[u8],
) -> Result<Option<Answer>, NoMemory>
    ensures { IfOk result (λ found. found ≡ option_map (getfile_in from) (bootparams_says 2 (is_relayed dst) results.now)) }
{
    match getfile_in(alloc, from, is_relayed(dst), results)? {
        Some(told) => Ok(Some(Answer::Getfile {
            from: told.from,
            server: told.server,
            ip: told.ip,
            path: told.path,
        })),
        None => Ok(None),
    }
}
