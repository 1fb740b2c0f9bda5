//! What is sent for a call.
ghost use Rattle.std.specs.Prelude.{◌≡◌, ◌≤◌, ◌<◌, ◌^◌, length, IfOk};
ghost use Rattle.sd_rpc_msg.specs.Layout.{AuthFits};
ghost use Rattle.sd_portmap.specs.declared.message.PmapArgs.TheVariants as pmap;
ghost use Rattle.sd_bootparams.specs.declared.message.BpArgs.TheVariants as bp;
ghost use Rattle.sd_bootparams.specs.Layout as bootparams;
ghost use Rattle.sd_mount.specs.declared.message.MountArgs.TheVariants as mnt;
ghost use Rattle.sd_nfs_msg.specs.Layout as nfs;
ghost use Rattle.sd_services.specs.RpcCalls.{auth_null};
ghost use Rattle.sd_rpc_retry.specs.declared.calling.Ask.TheVariants as asks;
ghost use Rattle.sd_rpc_retry.specs.Calling.{is_everyone, is_relayed, auth_unix, call_as, call_of, pmap_call, bootparams_call, mount_call, nfs_call, call_for, AskFits, request, home};

use crate::calling::Caller;
use crate::question::Question;
use sd_bootparams::{BpArgs, write_bp_args};
use sd_mount::{MountArgs, write_mount_args};
use sd_nfs_msg::{NfsArgs, write_args};
use sd_outside::{Addr, BROADCAST_IP, ByteList, NoMemory, Packet};
use sd_portmap::{Mapping, PMAP_PORT, PmapArgs, write_pmap_args};
use sd_rpc_msg::{Call, GidList, Message, OpaqueAuth, UnixCred, write_message, write_unix};
use std::alloc::Global;

/// IP's number for UDP.
const IPPROTO_UDP: u32 = 17;

/// Whether the destination is everyone on this network.
pub(crate) fn is_everyone(dst: Addr) -> bool
    ensures { result ≡ is_everyone dst }
{
    dst.ip == BROADCAST_IP
}

/// Whether a portmapper relays what is called there.
pub(crate) fn is_relayed(dst: Addr) -> bool
    ensures { result ≡ is_relayed dst }
{
    dst.port == PMAP_PORT || is_everyone(dst)
}

/// No credentials (RFC 1057, section 9.1).
fn auth_null(alloc: Global) -> OpaqueAuth
    ensures { result ≡ auth_null }
{
    OpaqueAuth {
        flavor: 0,
        body: ByteList::empty(alloc),
    }
}

/// The credentials of a machine's user 0 (RFC 1057, section 9.2).
#[tactic(auto, unfolding(crate::specs::Calling::unix_body), using(crate::proofs::ShortCred::cred_fits))]
fn auth_unix(alloc: Global, machine: &ByteList) -> Result<OpaqueAuth, NoMemory>
    requires { length machine.now ≤ 255 }
    ensures auth { IfOk result (λ auth. auth ≡ auth_unix machine.now) }
    ensures fits { IfOk result AuthFits }
{
    let machine = machine.copy()?;
    let cred = UnixCred {
        stamp: 0,
        machine,
        uid: 0,
        gid: 0,
        gids: GidList::empty(alloc),
    };
    let body = write_unix(alloc, &cred)?;
    Ok(OpaqueAuth { flavor: 1, body })
}

/// What is called: a procedure of a program's version.
#[derive(Clone, Copy)]
struct Procedure {
    prog: u32,
    vers: u32,
    number: u32,
}

/// A call with these credentials.
fn call_as(alloc: Global, cred: OpaqueAuth, xid: u32, called: Procedure, args: ByteList) -> Call
    ensures { result ≡ call_as cred xid called.prog called.vers called.number args }
{
    Call {
        xid,
        prog: called.prog,
        vers: called.vers,
        proc_no: called.number,
        cred,
        verf: auth_null(alloc),
        args,
    }
}

/// A call without credentials.
fn call_of(alloc: Global, xid: u32, prog: u32, vers: u32, proc_no: u32, args: ByteList) -> Call
    ensures { result ≡ call_of xid prog vers proc_no args }
{
    let called = Procedure {
        prog,
        vers,
        number: proc_no,
    };
    call_as(alloc, auth_null(alloc), xid, called, args)
}

/// A call of PMAPPROC_GETPORT.
pub(crate) fn getport_call(alloc: Global, xid: u32, prog: u32, vers: u32) -> Result<Call, NoMemory>
    ensures { IfOk result (λ call. call ≡ pmap_call xid (pmap.Getport record { prog = prog; vers = vers; prot = 17; port = 0 })) }
{
    let mapping = Mapping {
        prog,
        vers,
        prot: IPPROTO_UDP,
        port: 0,
    };
    let args = write_pmap_args(alloc, &PmapArgs::Getport(mapping))?;
    Ok(call_of(alloc, xid, 100_000, 2, 3, args))
}

/// The arguments of a procedure of bootparams.
fn bootparams_args(alloc: Global, args: &BpArgs) -> Result<ByteList, NoMemory>
    requires { bootparams.ArgsFit args.now }
    ensures bytes { IfOk result (λ bytes. bytes ≡ bootparams.args_bytes args.now) }
    ensures short { IfOk result (λ bytes. length bytes < 2 ^ 32) }
{
    write_bp_args(alloc, args)
}

/// A call of a procedure of bootparams, which a portmapper may relay by PMAPPROC_CALLIT.
fn bootparams_call(
    alloc: Global,
    xid: u32,
    relayed: bool,
    proc_no: u32,
    args: &BpArgs,
) -> Result<Call, NoMemory>
    requires fits { bootparams.ArgsFit args.now }
    requires of_proc { proc_no ≡ bootparams.proc_of args.now }
    ensures { IfOk result (λ call. call ≡ bootparams_call xid relayed args.now) }
{
    let args = bootparams_args(alloc, args)?;
    if !relayed {
        return Ok(call_of(alloc, xid, 100_026, 1, proc_no, args));
    }
    let callit = PmapArgs::Callit {
        prog: 100_026,
        vers: 1,
        proc_no,
        args,
    };
    let args = write_pmap_args(alloc, &callit)?;
    Ok(call_of(alloc, xid, 100_000, 2, 5, args))
}

/// A call of BOOTPARAMPROC_WHOAMI.
pub(crate) fn whoami_call(alloc: Global, xid: u32, dst: Addr, ip: u32) -> Result<Call, NoMemory>
    ensures { IfOk result (λ call. call ≡ bootparams_call xid (is_relayed dst) (bp.Whoami ip)) }
{
    let args = BpArgs::Whoami { ip };
    bootparams_call(alloc, xid, is_relayed(dst), 1, &args)
}

/// A call of BOOTPARAMPROC_GETFILE.
pub(crate) fn getfile_call(
    alloc: Global,
    xid: u32,
    dst: Addr,
    client: &ByteList,
    key: &ByteList,
) -> Result<Call, NoMemory>
    requires { AskFits (asks.Getfile client.now key.now) }
    ensures { IfOk result (λ call. call ≡ bootparams_call xid (is_relayed dst) (bp.Getfile client.now key.now)) }
{
    let client = client.copy()?;
    let key = key.copy()?;
    let args = BpArgs::Getfile { client, key };
    bootparams_call(alloc, xid, is_relayed(dst), 2, &args)
}

/// A call of MNTPROC_MNT.
pub(crate) fn mnt_call(
    alloc: Global,
    machine: &ByteList,
    xid: u32,
    path: &[u8],
) -> Result<Call, NoMemory>
    requires machine { length machine.now ≤ 255 }
    requires path { length path.now ≤ 1024 }
    ensures { IfOk result (λ call. call ≡ mount_call machine.now xid (mnt.Mnt path.now)) }
{
    let cred = auth_unix(alloc, machine)?;
    let path = ByteList::from_slice(alloc, path)?;
    let args = write_mount_args(alloc, &MountArgs::Mnt { path })?;
    let called = Procedure {
        prog: 100_005,
        vers: 1,
        number: 1,
    };
    Ok(call_as(alloc, cred, xid, called, args))
}

/// The number of the procedure that has these arguments (RFC 1094, section 2.2).
pub(crate) fn nfs_procedure(args: &NfsArgs) -> u32
    ensures is { result ≡ nfs.proc_of args.now }
    ensures most { result ≤ 17 }
    ensures not_root { result ≡ 3 → ⊥ }
    ensures not_writecache { result ≡ 7 → ⊥ }
{
    match args {
        NfsArgs::Null => 0,
        NfsArgs::Getattr { .. } => 1,
        NfsArgs::Setattr { .. } => 2,
        NfsArgs::Lookup { .. } => 4,
        NfsArgs::Readlink { .. } => 5,
        NfsArgs::Read { .. } => 6,
        NfsArgs::Write { .. } => 8,
        NfsArgs::Create { .. } => 9,
        NfsArgs::Remove { .. } => 10,
        NfsArgs::Rename { .. } => 11,
        NfsArgs::Link { .. } => 12,
        NfsArgs::Symlink { .. } => 13,
        NfsArgs::Mkdir { .. } => 14,
        NfsArgs::Rmdir { .. } => 15,
        NfsArgs::Readdir { .. } => 16,
        NfsArgs::Statfs { .. } => 17,
    }
}

/// A call of a procedure of NFS.
pub(crate) fn nfs_call(
    alloc: Global,
    machine: &ByteList,
    xid: u32,
    args: &NfsArgs,
) -> Result<Call, NoMemory>
    requires machine { length machine.now ≤ 255 }
    requires fits { nfs.ArgsFit args.now }
    ensures { IfOk result (λ call. call ≡ nfs_call machine.now xid args.now) }
{
    let cred = auth_unix(alloc, machine)?;
    let called = Procedure {
        prog: 100_003,
        vers: 2,
        number: nfs_procedure(args),
    };
    let args = write_args(alloc, args)?;
    Ok(call_as(alloc, cred, xid, called, args))
}

impl Caller {
    /// Where the caller is.
    pub(crate) fn home(&self) -> Addr
        ensures { result ≡ home self.now }
    {
        Addr {
            ip: self.ip,
            port: self.port,
        }
    }

    /// The datagram that is sent for what is asked.
    pub(crate) fn request<Q: Question>(
        &self,
        alloc: Global,
        dst: Addr,
        question: &Q,
    ) -> Result<Packet, NoMemory>
        requires machine { length self.now.machine ≤ 255 }
        requires fits { AskFits (Q.ask question.now) }
        ensures { IfOk result (λ packet. packet ≡ request self.now dst (Q.ask question.now)) }
    {
        let call = question.call(alloc, &self.machine, self.next_xid, dst)?;
        let body = write_message(alloc, &Message::Asked(call))?;
        let src = self.home();
        Ok(Packet::Udp { src, dst, body })
    }
}
