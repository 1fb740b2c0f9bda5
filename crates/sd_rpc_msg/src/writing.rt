//! Writing messages.

ghost use Rattle.std.specs.Prelude.{◌≡◌, ◌++◌, OnOk, IfOk};
ghost use Rattle.sd_xdr.specs.Grammar.{writes, word_bytes};
ghost use Rattle.sd_rpc_msg.specs.Layout as Layout;
ghost use Rattle.sd_rpc_msg.specs.Layout.{call, reply, auth_value, call_value, outcome_value, message_value, AuthFits, OutcomeFits, MessageFits};

use crate::message::{Call, Message, OpaqueAuth, Outcome};
use sd_outside::{ByteList, NoMemory};
use sd_xdr::XdrWriter;
use std::alloc::Global;

fn put_auth(writer: &mut XdrWriter, auth: &OpaqueAuth) -> Result<(), NoMemory>
    requires { AuthFits auth.now }
    ensures { OnOk result (writer.new ≡ writer.old ++ writes Layout.auth (auth_value auth.now)) }
{
    writer.u32(auth.flavor)?;
    writer.opaque_var(auth.body.as_slice())
}

fn put_call(writer: &mut XdrWriter, asked: &Call) -> Result<(), NoMemory>
    requires cred { AuthFits asked.now.cred }
    requires verf { AuthFits asked.now.verf }
    ensures { OnOk result (writer.new ≡ writer.old ++ writes (call asked.now.xid) (call_value asked.now)) }
{
    writer.u32(2)?;
    writer.u32(asked.prog)?;
    writer.u32(asked.vers)?;
    writer.u32(asked.proc_no)?;
    put_auth(writer, &asked.cred)?;
    put_auth(writer, &asked.verf)?;
    writer.rest(asked.args.as_slice())
}

/// The reply state, and the verifier and the state of an accepted call.
fn put_accepted(writer: &mut XdrWriter, verf: &OpaqueAuth, state: u32) -> Result<(), NoMemory>
    requires { AuthFits verf.now }
    ensures { OnOk result (writer.new ≡ writer.old ++ word_bytes 0 ++ writes Layout.auth (auth_value verf.now) ++ word_bytes state) }
{
    writer.u32(0)?;
    put_auth(writer, verf)?;
    writer.u32(state)
}

fn put_outcome(writer: &mut XdrWriter, outcome: &Outcome) -> Result<(), NoMemory>
    requires { OutcomeFits outcome.now }
    ensures { OnOk result (writer.new ≡ writer.old ++ writes reply (outcome_value outcome.now)) }
{
    match outcome {
        Outcome::Success { verf, results } => {
            put_accepted(writer, verf, 0)?;
            writer.rest(results.as_slice())
        }
        Outcome::ProgUnavail { verf } => put_accepted(writer, verf, 1),
        Outcome::ProgMismatch { verf, low, high } => {
            put_accepted(writer, verf, 2)?;
            writer.u32(*low)?;
            writer.u32(*high)
        }
        Outcome::ProcUnavail { verf } => put_accepted(writer, verf, 3),
        Outcome::GarbageArgs { verf } => put_accepted(writer, verf, 4),
        Outcome::RpcMismatch { low, high } => {
            writer.u32(1)?;
            writer.u32(0)?;
            writer.u32(*low)?;
            writer.u32(*high)
        }
        Outcome::AuthError { stat } => {
            writer.u32(1)?;
            writer.u32(1)?;
            writer.u32(*stat)
        }
    }
}

/// The bytes that spell the message.
pub fn write_message(alloc: Global, message: &Message) -> Result<ByteList, NoMemory>
    requires { MessageFits message.now }
    ensures { IfOk result (λ bs. bs ≡ writes Layout.message (message_value message.now)) }
{
    let mut writer = XdrWriter::new(alloc);
    match message {
        Message::Asked(asked) => {
            writer.u32(asked.xid)?;
            writer.u32(0)?;
            put_call(&mut writer, asked)?;
        }
        Message::Answered(answered) => {
            writer.u32(answered.xid)?;
            writer.u32(1)?;
            put_outcome(&mut writer, &answered.outcome)?;
        }
    }
    Ok(writer.finish())
}
