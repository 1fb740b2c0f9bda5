//! Reading messages.

ghost use Rattle.std.specs.Prelude.{◌≡◌, IfOk};
ghost use Rattle.sd_xdr.specs.Kind.{given};
ghost use Rattle.sd_xdr.specs.Grammar.{Answers};
ghost use Rattle.sd_xdr.specs.Reading.{Takes};
ghost use Rattle.sd_rpc_msg.specs.declared.message.Message.TheVariants.{Asked};
ghost use Rattle.sd_rpc_msg.specs.Layout.{auth, call, accepted, denied, reply, message, auth_value, call_value, outcome_value, message_value, AuthFits, OutcomeFits, MessageFits};

use crate::message::{Call, Message, OpaqueAuth, Outcome, Reply};
use sd_outside::ByteList;
use sd_xdr::{MsgError, XdrReader};
use std::alloc::Global;

#[tactic(auto, unfolding(sd_xdr::specs::Reading::reading))]
fn auth_of(alloc: Global, reader: &mut XdrReader) -> Result<OpaqueAuth, MsgError>
    ensures takes { Takes auth auth_value reader.old reader.new result }
    ensures fits { IfOk result AuthFits }
{
    let flavor = reader.u32()?;
    let body = reader.auth_body()?;
    let body = ByteList::from_slice(alloc, body)?;
    Ok(OpaqueAuth { flavor, body })
}

#[tactic(auto, unfolding(sd_xdr::specs::Reading::reading))]
fn call_of(alloc: Global, reader: &mut XdrReader, xid: u32) -> Result<Call, MsgError>
    ensures takes { Takes (call xid) call_value reader.old reader.new result }
    ensures xid { IfOk result (λ c. c.xid ≡ xid) }
    ensures fits { IfOk result (λ c. AuthFits c.cred × AuthFits c.verf) }
{
    reader.rpc_version(xid)?;
    let prog = reader.u32()?;
    let vers = reader.u32()?;
    let proc_no = reader.u32()?;
    let cred = auth_of(alloc, reader)?;
    let verf = auth_of(alloc, reader)?;
    let args = ByteList::from_slice(alloc, reader.rest())?;
    Ok(Call {
        xid,
        prog,
        vers,
        proc_no,
        cred,
        verf,
        args,
    })
}

#[tactic(auto, unfolding(sd_xdr::specs::Reading::reading))]
fn accepted_of(alloc: Global, reader: &mut XdrReader) -> Result<Outcome, MsgError>
    ensures takes { Takes (given 0 accepted) outcome_value reader.old reader.new result }
    ensures fits { IfOk result OutcomeFits }
{
    let verf = auth_of(alloc, reader)?;
    let accept_stat = reader.word_between(0, 4)?;
    match accept_stat {
        0 => {
            let results = ByteList::from_slice(alloc, reader.rest())?;
            Ok(Outcome::Success { verf, results })
        }
        1 => {
            reader.end()?;
            Ok(Outcome::ProgUnavail { verf })
        }
        2 => {
            let low = reader.u32()?;
            let high = reader.u32()?;
            reader.end()?;
            Ok(Outcome::ProgMismatch { verf, low, high })
        }
        3 => {
            reader.end()?;
            Ok(Outcome::ProcUnavail { verf })
        }
        _ => {
            reader.end()?;
            Ok(Outcome::GarbageArgs { verf })
        }
    }
}

#[tactic(auto, unfolding(sd_xdr::specs::Reading::reading))]
fn denied_of(reader: &mut XdrReader) -> Result<Outcome, MsgError>
    ensures takes { Takes (given 1 denied) outcome_value reader.old reader.new result }
    ensures fits { IfOk result OutcomeFits }
{
    let reject_stat = reader.word_between(0, 1)?;
    match reject_stat {
        0 => {
            let low = reader.u32()?;
            let high = reader.u32()?;
            reader.end()?;
            Ok(Outcome::RpcMismatch { low, high })
        }
        _ => {
            let stat = reader.word_between(1, 5)?;
            reader.end()?;
            Ok(Outcome::AuthError { stat })
        }
    }
}

#[tactic(auto, unfolding(sd_xdr::specs::Reading::reading))]
fn outcome_of(alloc: Global, reader: &mut XdrReader) -> Result<Outcome, MsgError>
    ensures takes { Takes reply outcome_value reader.old reader.new result }
    ensures fits { IfOk result OutcomeFits }
{
    let reply_stat = reader.word_between(0, 1)?;
    match reply_stat {
        0 => accepted_of(alloc, reader),
        _ => denied_of(reader),
    }
}

#[tactic(auto, unfolding(sd_xdr::specs::Reading::reading))]
fn message_of(alloc: Global, reader: &mut XdrReader) -> Result<Message, MsgError>
    ensures takes { Takes message message_value reader.old reader.new result }
    ensures fits { IfOk result MessageFits }
{
    let xid = reader.u32()?;
    let msg_type = reader.word_between(0, 1)?;
    match msg_type {
        0 => Ok(Message::Asked(call_of(alloc, reader, xid)?)),
        _ => {
            let outcome = outcome_of(alloc, reader)?;
            Ok(Message::Answered(Reply { xid, outcome }))
        }
    }
}

/// The message that the bytes, all of them, spell. `RpcVersion` comes where a call's version isn't 2, `AuthLong` where the
/// length of an authentication's body passes 400, and `Xdr` for all else, with the first refusal in the order of the bytes.
#[tactic(auto, using(sd_xdr::proofs::Whole::answers))]
pub fn read_message(alloc: Global, bytes: &[u8]) -> Result<Message, MsgError>
    ensures answers { Answers message message_value bytes.now result }
    // What was read can be written.
    ensures fits { IfOk result MessageFits }
{
    message_of(alloc, &mut XdrReader::new(bytes))
}
