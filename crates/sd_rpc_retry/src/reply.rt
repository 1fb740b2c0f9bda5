//! What datagrams tell a caller.
ghost use Rattle.std.specs.Prelude.{◌≡◌, ◌≤◌, ◌&&◌, IfOk, IfSome, Option, Result, Ok, Err};
ghost use Rattle.std.specs.Option.{option_map};
ghost use Rattle.sd_xdr.specs.Kind.{bytes};
ghost use Rattle.sd_rpc_msg.specs.Layout.{message, message_value, outcome_value};
ghost use Rattle.sd_rpc_msg.specs.Laws.{IsMessage, IsOutcome};
ghost use Rattle.sd_portmap.specs.Layout as portmap;
ghost use Rattle.sd_bootparams.specs.Layout as bootparams;
ghost use Rattle.sd_mount.specs.Layout as mount;
ghost use Rattle.sd_nfs_msg.specs.Layout as nfs;
ghost use Rattle.sd_services.specs.RpcCalls.{spelled};
ghost use Rattle.sd_rpc_retry.specs.Calling.{reply_says, message_says, and_then, verdict_of, shown_as, bootparams_says, comes_from, is_at};
ghost use Rattle.sd_rpc_retry.specs.Reading.{IsKnown};

use crate::asking::{Listener, Look};
use crate::question::Question;
use crate::request::is_everyone;
use sd_bootparams::{BpResult, read_bp_result};
use sd_mount::{MountResult, read_mount_result};
use sd_nfs_msg::{NfsResult, read_result};
use sd_outside::{Addr, ByteList, NoMemory, Packet};
use sd_portmap::{PMAP_PORT, PmapResult, read_pmap_result};
use sd_rpc_msg::{Message, MsgError, Outcome, read_message};
use std::alloc::Global;

/// What was read, or nothing where the bytes spell nothing.
fn known<T: Drop>(read: Result<T, MsgError>) -> Result<Option<T>, NoMemory>
    ensures { IfOk result (IsKnown read) }
{
    match read {
        Ok(value) => Ok(Some(value)),
        Err(MsgError::NoMemory) => Err(NoMemory),
        Err(MsgError::Xdr(_)) => Ok(None),
        Err(MsgError::RpcVersion { .. }) => Ok(None),
        Err(MsgError::AuthLong { .. }) => Ok(None),
    }
}

/// The message that the bytes spell.
fn message_in(alloc: Global, bytes: &[u8]) -> Result<Option<Message>, NoMemory>
    ensures value { IfOk result (λ found. option_map message_value found ≡ spelled message bytes.now) }
    ensures rules { IfOk result (λ found. IfSome found IsMessage) }
{
    known(read_message(alloc, bytes))
}

/// The result of a procedure of the portmapper that the bytes spell.
pub(crate) fn pmap_result_in(
    alloc: Global,
    proc_no: u32,
    bytes: &[u8],
) -> Result<Option<PmapResult>, NoMemory>
    requires { proc_no ≤ 5 }
    ensures value { IfOk result (λ found. option_map portmap.result_value found ≡ spelled (portmap.result_kind proc_no) bytes.now) }
    ensures of_proc { IfOk result (λ found. IfSome found (portmap.IsResultOf proc_no)) }
    ensures port { IfOk result (λ found. IfSome found portmap.PortFits) }
{
    known(read_pmap_result(alloc, proc_no, bytes))
}

/// The result of a procedure of bootparams that the bytes spell.
fn bp_result_in(alloc: Global, proc_no: u32, bytes: &[u8]) -> Result<Option<BpResult>, NoMemory>
    requires { proc_no ≤ 2 }
    ensures value { IfOk result (λ found. option_map bootparams.result_value found ≡ spelled (bootparams.result_kind proc_no) bytes.now) }
    ensures of_proc { IfOk result (λ found. IfSome found (λ r. bootparams.result_proc r ≡ proc_no)) }
{
    known(read_bp_result(alloc, proc_no, bytes))
}

/// The result of MNTPROC_MNT that the bytes spell.
pub(crate) fn mnt_result_in(alloc: Global, bytes: &[u8]) -> Result<Option<MountResult>, NoMemory>
    ensures value { IfOk result (λ found. option_map mount.result_value found ≡ spelled (mount.result_kind 1) bytes.now) }
    ensures of_proc { IfOk result (λ found. IfSome found (mount.IsResultOf 1)) }
    ensures fits { IfOk result (λ found. IfSome found mount.ResultFits) }
{
    known(read_mount_result(alloc, 1, bytes))
}

/// The result of a procedure of NFS that the bytes spell.
pub(crate) fn nfs_result_in(
    alloc: Global,
    proc_no: u32,
    bytes: &[u8],
) -> Result<Option<NfsResult>, NoMemory>
    requires most { proc_no ≤ 17 }
    requires not_root { proc_no ≡ 3 → ⊥ }
    requires not_writecache { proc_no ≡ 7 → ⊥ }
    ensures value { IfOk result (λ found. option_map nfs.result_value found ≡ spelled (nfs.result_kind proc_no) bytes.now) }
    ensures of_proc { IfOk result (λ found. IfSome found (nfs.IsResultOf proc_no)) }
    ensures fits { IfOk result (λ found. IfSome found nfs.ResultFits) }
{
    known(read_result(alloc, proc_no, bytes))
}

/// The result of a procedure of bootparams that these results spell, in those of PMAPPROC_CALLIT where a portmapper relays it.
pub(crate) fn bootparams_result_in(
    alloc: Global,
    proc_no: u32,
    relayed: bool,
    results: &[u8],
) -> Result<Option<BpResult>, NoMemory>
    requires { proc_no ≤ 2 }
    ensures value { IfOk result (λ found. option_map bootparams.result_value found ≡ bootparams_says proc_no relayed results.now) }
    ensures of_proc { IfOk result (λ found. IfSome found (λ r. bootparams.result_proc r ≡ proc_no)) }
{
    if !relayed {
        return bp_result_in(alloc, proc_no, results);
    }
    match pmap_result_in(alloc, 5, results)? {
        Some(PmapResult::Callit { results, .. }) => bp_result_in(
            alloc,
            proc_no,
            results.as_slice(),
        ),
        _ => Ok(None),
    }
}

/// What a reply says: the results, or by which number the call was refused.
fn said_by(outcome: Outcome) -> Result<ByteList, u32>
    requires { IsOutcome outcome }
    ensures { result ≡ reply_says (outcome_value outcome) }
{
    match outcome {
        Outcome::Success { results, .. } => Ok(results),
        Outcome::ProgUnavail { .. } => Err(1),
        Outcome::ProgMismatch { .. } => Err(2),
        Outcome::ProcUnavail { .. } => Err(3),
        Outcome::GarbageArgs { .. } => Err(4),
        Outcome::RpcMismatch { .. } => Err(10),
        Outcome::AuthError { stat } => Err(10 + stat),
    }
}

/// Who waits for the reply to a call.
#[derive(Drop)]
pub(crate) struct ReplyListener<'a, Q> {
    pub alloc: Global,
    /// Where the caller is.
    pub me: Addr,
    /// The number of the call.
    pub xid: u32,
    /// Where the call went.
    pub dst: Addr,
    /// What was asked.
    pub question: &'a Q,
}

impl<Q: Question> Listener for ReplyListener<'_, Q> {
    ghost use Rattle.sd_rpc_retry.specs.Calling.{Verdict, reply_hearing, shown_as};

    type Found = Result<Q::Told, u32>;

    ghost Seen = { Verdict };

    ghost hearing = { λ listener. reply_hearing listener.me listener.xid listener.dst (Q.Question.ask listener.question.now) };

    ghost shows = { λ listener found. shown_as Q.Question.shown found };

    fn look(&mut self, packet: &Packet) -> Result<Look<Result<Q::Told, u32>>, NoMemory> {
        let Packet::Udp { src, dst, body } = packet else {
            return Ok(Look::Other);
        };
        if !self.is_addressed(*src, *dst) {
            return Ok(Look::Other);
        }
        match self.verdict(src.ip, body.as_slice())? {
            Some(verdict) => Ok(Look::Match(verdict)),
            None => Ok(Look::Other),
        }
    }
}

impl<Q: Question> ReplyListener<'_, Q> {
    /// Whether a datagram goes to the caller, and comes from where the call went. To a broadcast the portmapper of any machine
    /// may reply.
    fn is_addressed(&self, src: Addr, dst: Addr) -> bool
        ensures { result ≡ (is_at self.now.me dst && comes_from self.now.dst src) }
    {
        if dst.ip != self.me.ip || dst.port != self.me.port {
            return false;
        }
        if is_everyone(self.dst) {
            return src.port == PMAP_PORT;
        }
        src.ip == self.dst.ip && src.port == self.dst.port
    }

    /// What a datagram's body from this address tells.
    fn verdict(&self, from: u32, body: &[u8]) -> Result<Option<Result<Q::Told, u32>>, NoMemory>
        ensures { IfOk result (λ found. option_map (shown_as Q.shown) found ≡ and_then (and_then (spelled message body.now) (message_says self.now.xid)) (verdict_of (Q.ask self.now.question.now) self.now.dst from)) }
    {
        let reply = match message_in(self.alloc, body)? {
            Some(Message::Answered(reply)) => reply,
            _ => return Ok(None),
        };
        if reply.xid != self.xid {
            return Ok(None);
        }
        match said_by(reply.outcome) {
            Ok(results) => match self
                .question
                .told(self.alloc, self.dst, from, results.as_slice())?
            {
                Some(told) => Ok(Some(Ok(told))),
                None => Ok(None),
            },
            Err(code) => Ok(Some(Err(code))),
        }
    }
}
