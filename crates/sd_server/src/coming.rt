//! How far a datagram comes with an RPC program (RFC 1057, section 8).
ghost use Rattle.std.specs.Option.{option_map};
ghost use Rattle.std.specs.Prelude.{◌≡◌, ◌≤◌, IfOk, IfSome, None, false, not};
ghost use Rattle.sd_xdr.specs.Kind.{ended};
ghost use Rattle.sd_rpc_msg.specs.Layout.{OutcomeFits};
ghost use Rattle.sd_rpc_msg.specs.Unix.{unix};
ghost use Rattle.sd_services.specs.RpcCalls.{spelled, is_none, auth_null, auth_refusal, refusal, reply_with};
ghost use Rattle.sd_server.specs.Coming.{arrival, arrives_call, arrives_by, comes_as, MayCome, ComesRead};
ghost use Rattle.sd_server.specs.Services.{program_of, IsKnown};

use crate::service::Service;
use sd_outside::{ByteList, NoMemory};
use sd_rpc_msg::{Call, Message, MsgError, OpaqueAuth, Outcome, Reply, read_message, read_unix};
use std::alloc::Global;

/// What becomes of the body of a datagram to a program.
#[derive(Drop)]
pub enum Coming {
    /// It is no call.
    Nowhere,
    /// It is refused.
    Refused(Reply),
    /// It calls a procedure with these arguments.
    Asks {
        xid: u32,
        proc_no: u32,
        args: ByteList,
    },
}

/// What was read, or nothing where the bytes spell nothing.
pub fn known<T: Drop>(read: Result<T, MsgError>) -> Result<Option<T>, NoMemory>
    ensures { IfOk result (IsKnown read) }
{
    match read {
        Ok(value) => Ok(Some(value)),
        Err(MsgError::NoMemory) => Err(NoMemory),
        Err(MsgError::Xdr(_)) => Ok(None),
        Err(MsgError::RpcVersion { .. }) => Ok(None),
        Err(MsgError::AuthLong { .. }) => Ok(None),
    }
}

/// The verifier of every reply (RFC 1057, section 9.1).
pub fn auth_null(alloc: Global) -> OpaqueAuth
    ensures { result ≡ auth_null }
{
    OpaqueAuth {
        flavor: 0,
        body: ByteList::empty(alloc),
    }
}

/// Why a call of this program, version and procedure is refused, whatever its arguments.
pub fn refusal(
    alloc: Global,
    service: Service,
    prog: u32,
    vers: u32,
    proc_no: u32,
) -> Option<Outcome>
    ensures first { result ≡ refusal (program_of service) prog vers proc_no }
    ensures within { result ≡ None → (proc_no ≤ (program_of service).last) × ((program_of service).skips proc_no ≡ false) }
    ensures fits { IfSome result OutcomeFits }
{
    if prog != service.number() {
        let verf = auth_null(alloc);
        return Some(Outcome::ProgUnavail { verf });
    }
    let version = service.version();
    if vers != version {
        let verf = auth_null(alloc);
        return Some(Outcome::ProgMismatch {
            verf,
            low: version,
            high: version,
        });
    }
    if service.skips(proc_no) || proc_no > service.last() {
        let verf = auth_null(alloc);
        return Some(Outcome::ProcUnavail { verf });
    }
    None
}

/// Whether the body of an authentication is UNIX credentials.
fn is_unix(alloc: Global, body: &[u8]) -> Result<bool, NoMemory>
    ensures { IfOk result (λ is. is ≡ not (is_none (spelled (ended unix) body.now))) }
{
    match known(read_unix(alloc, body))? {
        Some(_) => Ok(true),
        None => Ok(false),
    }
}

/// Why a call with these credentials is refused.
fn auth_refusal(alloc: Global, cred: &OpaqueAuth) -> Result<Option<Outcome>, NoMemory>
    ensures first { IfOk result (λ o. o ≡ auth_refusal cred.now) }
    ensures fits { IfOk result (λ o. IfSome o OutcomeFits) }
{
    if cred.flavor > 1 {
        return Ok(Some(Outcome::AuthError { stat: 5 }));
    }
    if cred.flavor == 1 && !is_unix(alloc, cred.body.as_slice())? {
        return Ok(Some(Outcome::AuthError { stat: 1 }));
    }
    Ok(None)
}

/// A call whose credentials pass.
fn coming_known(alloc: Global, service: Service, call: Call) -> Coming
    ensures comes { arrives_by (program_of service) call None ≡ comes_as (program_of service) result }
    ensures fits { MayCome (program_of service) result }
{
    match refusal(alloc, service, call.prog, call.vers, call.proc_no) {
        Some(outcome) => Coming::Refused(Reply {
            xid: call.xid,
            outcome,
        }),
        None => Coming::Asks {
            xid: call.xid,
            proc_no: call.proc_no,
            args: call.args,
        },
    }
}

/// A call.
fn coming_call(alloc: Global, service: Service, call: Call) -> Result<Coming, NoMemory>
    ensures comes { IfOk result (λ come. arrives_call (program_of service) call ≡ comes_as (program_of service) come) }
    ensures fits { IfOk result (MayCome (program_of service)) }
{
    match auth_refusal(alloc, &call.cred)? {
        Some(outcome) => Ok(Coming::Refused(Reply {
            xid: call.xid,
            outcome,
        })),
        None => Ok(coming_known(alloc, service, call)),
    }
}

/// What was read, or bytes that are no message.
fn coming_read(
    alloc: Global,
    service: Service,
    read: Result<Message, MsgError>,
) -> Result<Coming, NoMemory>
    ensures comes { IfOk result (λ come. ComesRead (program_of service) read (comes_as (program_of service) come)) }
    ensures fits { IfOk result (MayCome (program_of service)) }
{
    match read {
        Ok(Message::Asked(call)) => coming_call(alloc, service, call),
        Ok(Message::Answered(_)) => Ok(Coming::Nowhere),
        Err(MsgError::RpcVersion { xid, .. }) => {
            let outcome = Outcome::RpcMismatch { low: 2, high: 2 };
            Ok(Coming::Refused(Reply { xid, outcome }))
        }
        Err(MsgError::NoMemory) => Err(NoMemory),
        Err(MsgError::Xdr(_)) => Ok(Coming::Nowhere),
        Err(MsgError::AuthLong { .. }) => Ok(Coming::Nowhere),
    }
}

/// How far the body of a datagram comes with a program.
pub fn arrive(alloc: Global, service: Service, body: &[u8]) -> Result<Coming, NoMemory>
    ensures comes { IfOk result (λ come. arrival (program_of service) body.now ≡ comes_as (program_of service) come) }
    ensures fits { IfOk result (MayCome (program_of service)) }
{
    coming_read(alloc, service, read_message(alloc, body))
}

/// The reply with this outcome.
pub fn with_xid(xid: u32, outcome: Option<Outcome>) -> Option<Reply>
    requires { IfSome outcome OutcomeFits }
    ensures reply { result ≡ option_map (reply_with xid) outcome }
    ensures fits { IfSome result (λ reply. OutcomeFits reply.outcome) }
{
    match outcome {
        None => None,
        Some(outcome) => Some(Reply { xid, outcome }),
    }
}
