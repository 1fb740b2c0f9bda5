//! Questions of MOUNT and NFS (RFC 1094), and the types of their answers: what is answered, or the status of the refusal.
ghost use Rattle.std.specs.Prelude.{◌≡◌, ◌≤◌, length, IfOk};
ghost use Rattle.std.specs.Option.{option_map};
ghost use Rattle.sd_mount.specs.Layout as mount;
ghost use Rattle.sd_nfs_msg.specs.Layout as nfs;
ghost use Rattle.sd_services.specs.RpcCalls.{spelled};
ghost use Rattle.sd_rpc_retry.specs.declared.calling.Answer.TheVariants as answer;
ghost use Rattle.sd_rpc_retry.specs.Calling.{AskFits, given_in, nfs_answer, nfs_answer_in};
ghost use Rattle.sd_rpc_retry.specs.Questions.{given, attributes, found, target, piece};

use crate::calling::Answer;
use crate::question::Question;
use crate::reply::{mnt_result_in, nfs_result_in};
use crate::request::{mnt_call, nfs_call, nfs_procedure};
use sd_mount::MountResult;
use sd_nfs_msg::{Fattr, NfsArgs, NfsResult};
use sd_outside::{Addr, ByteList, FHandle, NoMemory};
use sd_rpc_msg::Call;
use std::alloc::Global;
use std::marker::Model;

/// The handle in a result of MNTPROC_MNT, or the status of its refusal.
fn given_in(alloc: Global, results: &[u8]) -> Result<Option<Result<FHandle, u32>>, NoMemory>
    ensures { IfOk result (λ found. option_map given found ≡ option_map given_in (spelled (mount.result_kind 1) results.now)) }
{
    match mnt_result_in(alloc, results)? {
        Some(MountResult::Given(file)) => Ok(Some(Ok(file))),
        Some(MountResult::Refused { status }) => Ok(Some(Err(status))),
        _ => Ok(None),
    }
}

/// What a result of NFS tells.
fn nfs_answer(done: NfsResult) -> Answer
    ensures { result ≡ nfs_answer done }
{
    match done {
        NfsResult::Refused { status } => Answer::Refused { status },
        others => Answer::Nfs(others),
    }
}

/// What a result of a procedure of NFS tells.
pub(crate) fn nfs_answer_in(
    alloc: Global,
    args: &NfsArgs,
    results: &[u8],
) -> Result<Option<Answer>, NoMemory>
    ensures { IfOk result (λ found. found ≡ option_map (nfs_answer_in (nfs.proc_of args.now)) (spelled (nfs.result_kind (nfs.proc_of args.now)) results.now)) }
{
    match nfs_result_in(alloc, nfs_procedure(args), results)? {
        Some(done) => Ok(Some(nfs_answer(done))),
        None => Ok(None),
    }
}

/// The answer in a result of MNTPROC_MNT.
pub(crate) fn given_answer(alloc: Global, results: &[u8]) -> Result<Option<Answer>, NoMemory>
    ensures { IfOk result (λ found. found ≡ option_map given_in (spelled (mount.result_kind 1) results.now)) }
{
    match given_in(alloc, results)? {
        Some(Ok(file)) => Ok(Some(Answer::Given(file))),
        Some(Err(status)) => Ok(Some(Answer::Refused { status })),
        None => Ok(None),
    }
}

/// Asks for the handle of what is exported at a path of at most 1,024 bytes (RFC 1094, appendix A). The answer is the handle, or the
/// status of the refusal.
#[derive(Clone, Copy)]
pub struct Mnt<'a> {
    pub path: &'a [u8],
}

impl Question for Mnt<'_> {
    ghost use Rattle.sd_rpc_retry.specs.declared.calling.Ask.TheVariants as asks;
    ghost use Rattle.sd_rpc_retry.specs.Questions.{given};

    type Told = Result<FHandle, u32>;

    ghost ask = { λ q. asks.Mnt q.path.now };

    ghost shown = { λ told. given told };

    fn call(
        &self,
        alloc: Global,
        machine: &ByteList,
        xid: u32,
        _dst: Addr,
    ) -> Result<Call, NoMemory> {
        mnt_call(alloc, machine, xid, self.path)
    }

    fn told(
        &self,
        alloc: Global,
        _dst: Addr,
        _from: u32,
        results: &[u8],
    ) -> Result<Option<Result<FHandle, u32>>, NoMemory> {
        given_in(alloc, results)
    }
}

/// A file, and its attributes.
#[derive(Clone, Copy, Debug, PartialEq, Eq)]
pub struct Found {
    pub file: FHandle,
    pub attr: Fattr,
}

/// Bytes that were read, at most 8,192.
#[derive(Debug, Drop)]
pub struct Data {
    bytes: ByteList,
}

impl Model for Data {
    ghost use Rattle.std.specs.Prelude.{List, ℕ, ◌≤◌, length};

    ghost Value = { List ℕ };

    ghost view = { λ d. d.bytes };

    ghost invariant = { λ d. length d.bytes ≤ 8192 };
}

impl Data {
    /// They themselves.
    pub fn as_slice(&self) -> &[u8]
        ensures bytes { result.now ≡ self.now }
        ensures few { length result.now ≤ 8192 }
    {
        self.bytes.as_slice()
    }
}

/// Bytes of a file, and its attributes.
#[derive(Debug, Drop)]
pub struct Piece {
    pub attr: Fattr,
    pub bytes: Data,
}

/// Asks for the attributes of a file (RFC 1094, section 2.2.2).
#[derive(Clone, Copy)]
pub struct Getattr {
    pub file: FHandle,
}

/// What a result of the procedure tells: what it answers, or the status of its refusal.
fn getattr_in(alloc: Global, results: &[u8]) -> Result<Option<Result<Fattr, u32>>, NoMemory>
    ensures { IfOk result (λ told. option_map attributes told ≡ option_map (nfs_answer_in 1) (spelled (nfs.result_kind 1) results.now)) }
{
    match nfs_result_in(alloc, 1, results)? {
        Some(NfsResult::Getattr { attr }) => Ok(Some(Ok(attr))),
        Some(NfsResult::Refused { status }) => Ok(Some(Err(status))),
        _ => Ok(None),
    }
}

impl Question for Getattr {
    ghost use Rattle.sd_rpc_retry.specs.declared.calling.Ask.TheVariants as asks;
    ghost use Rattle.sd_nfs_msg.specs.declared.message.NfsArgs.TheVariants as nfs_asks;
    ghost use Rattle.sd_rpc_retry.specs.Questions.{attributes};

    type Told = Result<Fattr, u32>;

    ghost ask = { λ q. asks.Nfs (nfs_asks.Getattr q.file) };

    ghost shown = { λ told. attributes told };

    fn call(
        &self,
        alloc: Global,
        machine: &ByteList,
        xid: u32,
        _dst: Addr,
    ) -> Result<Call, NoMemory> {
        let args = NfsArgs::Getattr { file: self.file };
        nfs_call(alloc, machine, xid, &args)
    }

    fn told(
        &self,
        alloc: Global,
        _dst: Addr,
        _from: u32,
        results: &[u8],
    ) -> Result<Option<Result<Fattr, u32>>, NoMemory> {
        getattr_in(alloc, results)
    }
}

/// Asks for the file that a directory calls by a name of at most 255 bytes (RFC 1094, section 2.2.5).
#[derive(Clone, Copy)]
pub struct Lookup<'a> {
    pub dir: FHandle,
    pub name: &'a [u8],
}

/// What a result of the procedure tells: what it answers, or the status of its refusal.
fn lookup_in(alloc: Global, results: &[u8]) -> Result<Option<Result<Found, u32>>, NoMemory>
    ensures { IfOk result (λ told. option_map found told ≡ option_map (nfs_answer_in 4) (spelled (nfs.result_kind 4) results.now)) }
{
    match nfs_result_in(alloc, 4, results)? {
        Some(NfsResult::Lookup { file, attr }) => Ok(Some(Ok(Found { file, attr }))),
        Some(NfsResult::Refused { status }) => Ok(Some(Err(status))),
        _ => Ok(None),
    }
}

impl Question for Lookup<'_> {
    ghost use Rattle.sd_rpc_retry.specs.declared.calling.Ask.TheVariants as asks;
    ghost use Rattle.sd_nfs_msg.specs.declared.message.NfsArgs.TheVariants as nfs_asks;
    ghost use Rattle.sd_rpc_retry.specs.Questions.{found};

    type Told = Result<Found, u32>;

    ghost ask = { λ q. asks.Nfs (nfs_asks.Lookup q.dir q.name.now) };

    ghost shown = { λ told. found told };

    fn call(
        &self,
        alloc: Global,
        machine: &ByteList,
        xid: u32,
        _dst: Addr,
    ) -> Result<Call, NoMemory> {
        let name = ByteList::from_slice(alloc, self.name)?;
        let args = NfsArgs::Lookup {
            dir: self.dir,
            name,
        };
        nfs_call(alloc, machine, xid, &args)
    }

    fn told(
        &self,
        alloc: Global,
        _dst: Addr,
        _from: u32,
        results: &[u8],
    ) -> Result<Option<Result<Found, u32>>, NoMemory> {
        lookup_in(alloc, results)
    }
}

/// The path that a link names, of at most 1,024 bytes.
#[derive(Debug, Drop)]
pub struct Target {
    path: ByteList,
}

impl Model for Target {
    ghost use Rattle.std.specs.Prelude.{List, ℕ, ◌≤◌, length};

    ghost Value = { List ℕ };

    ghost view = { λ target. target.path };

    ghost invariant = { λ target. length target.path ≤ 1024 };
}

impl Target {
    /// Its bytes.
    pub fn as_slice(&self) -> &[u8]
        ensures bytes { result.now ≡ self.now }
        ensures few { length result.now ≤ 1024 }
    {
        self.path.as_slice()
    }
}

/// Asks for the path that a link names (RFC 1094, section 2.2.6).
#[derive(Clone, Copy)]
pub struct Readlink {
    pub file: FHandle,
}

/// What a result of the procedure tells: what it answers, or the status of its refusal.
fn readlink_in(alloc: Global, results: &[u8]) -> Result<Option<Result<Target, u32>>, NoMemory>
    ensures { IfOk result (λ told. option_map target told ≡ option_map (nfs_answer_in 5) (spelled (nfs.result_kind 5) results.now)) }
{
    match nfs_result_in(alloc, 5, results)? {
        Some(NfsResult::Readlink { path }) => Ok(Some(Ok(Target { path }))),
        Some(NfsResult::Refused { status }) => Ok(Some(Err(status))),
        _ => Ok(None),
    }
}

impl Question for Readlink {
    ghost use Rattle.sd_rpc_retry.specs.declared.calling.Ask.TheVariants as asks;
    ghost use Rattle.sd_nfs_msg.specs.declared.message.NfsArgs.TheVariants as nfs_asks;
    ghost use Rattle.sd_rpc_retry.specs.Questions.{target};

    type Told = Result<Target, u32>;

    ghost ask = { λ q. asks.Nfs (nfs_asks.Readlink q.file) };

    ghost shown = { λ told. target told };

    fn call(
        &self,
        alloc: Global,
        machine: &ByteList,
        xid: u32,
        _dst: Addr,
    ) -> Result<Call, NoMemory> {
        let args = NfsArgs::Readlink { file: self.file };
        nfs_call(alloc, machine, xid, &args)
    }

    fn told(
        &self,
        alloc: Global,
        _dst: Addr,
        _from: u32,
        results: &[u8],
    ) -> Result<Option<Result<Target, u32>>, NoMemory> {
        readlink_in(alloc, results)
    }
}

/// Asks for the bytes of a file from an offset on, at most so many (RFC 1094, section 2.2.7).
#[derive(Clone, Copy)]
pub struct Read {
    pub file: FHandle,
    pub offset: u32,
    pub count: u32,
}

/// What a result of the procedure tells: what it answers, or the status of its refusal.
fn read_in(alloc: Global, results: &[u8]) -> Result<Option<Result<Piece, u32>>, NoMemory>
    ensures { IfOk result (λ told. option_map piece told ≡ option_map (nfs_answer_in 6) (spelled (nfs.result_kind 6) results.now)) }
{
    match nfs_result_in(alloc, 6, results)? {
        Some(NfsResult::Read { attr, bytes }) => Ok(Some(Ok(Piece {
            attr,
            bytes: Data { bytes },
        }))),
        Some(NfsResult::Refused { status }) => Ok(Some(Err(status))),
        _ => Ok(None),
    }
}

impl Question for Read {
    ghost use Rattle.sd_rpc_retry.specs.declared.calling.Ask.TheVariants as asks;
    ghost use Rattle.sd_nfs_msg.specs.declared.message.NfsArgs.TheVariants as nfs_asks;
    ghost use Rattle.sd_rpc_retry.specs.Questions.{piece};

    type Told = Result<Piece, u32>;

    ghost ask = { λ q. asks.Nfs (nfs_asks.Read q.file q.offset q.count 0) };

    ghost shown = { λ told. piece told };

    fn call(
        &self,
        alloc: Global,
        machine: &ByteList,
        xid: u32,
        _dst: Addr,
    ) -> Result<Call, NoMemory> {
        let args = NfsArgs::Read {
            file: self.file,
            offset: self.offset,
            count: self.count,
            total: 0,
        };
        nfs_call(alloc, machine, xid, &args)
    }

    fn told(
        &self,
        alloc: Global,
        _dst: Addr,
        _from: u32,
        results: &[u8],
    ) -> Result<Option<Result<Piece, u32>>, NoMemory> {
        read_in(alloc, results)
    }
}
