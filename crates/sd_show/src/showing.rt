//! Writing the text of a message.

ghost use Rattle.std.specs.Prelude.{◌≡◌, ◌++◌, codes, OnOk};
ghost use Rattle.sd_xdr.specs.Kind.{number, ◌⊗◌};
ghost use Rattle.sd_rpc_msg.specs.Layout.{auth_value};
ghost use Rattle.sd_rpc_msg.specs.declared.message.Outcome.TheVariants.{Success};
ghost use Rattle.sd_rpc_msg.specs.declared.message.Message.TheVariants.{Answered};
ghost use Rattle.sd_text.specs.Kind as texts;
ghost use Rattle.sd_text.specs.Kind.{said, ◌&◌};
ghost use Rattle.sd_text.specs.Grammar.{writes};
ghost use Rattle.sd_show.specs.Programs.{numbers};
ghost use Rattle.sd_show.specs.Calls.{procedure_of};
ghost use Rattle.sd_show.specs.Messages.{bare, no_body};
ghost use Rattle.sd_show.specs.Lines.{auth, auths, asked, asked_value, procedure, procedure_value, range, outcome, outcome_value};
ghost use Rattle.sd_show.specs.Saying.{SaysAsked, SaysCall, SaysOutcome, SaysMessage, IsNotDone};

use crate::calls::procedure_of;
use crate::procedures::{Known, known_by_numbers};
use crate::programs::{args, results as result_fields};
use crate::saying::say_fields;
use sd_outside::NoMemory;
use sd_rpc_msg::{Call, Message, OpaqueAuth, Outcome, Reply};
use sd_text::TextWriter;
use sd_xdr::{MsgError, XdrReader};

/// FLAVOR BYTES, behind a fixed text.
#[tactic(auto, unfolding(sd_text::specs::Grammar::writes))]
fn push_auth(writer: &mut TextWriter, front: &[u8], one: &OpaqueAuth) -> Result<(), NoMemory>
    ensures { OnOk result (writer.new ≡ writer.old ++ writes (said front.now auth) (auth_value one.now)) }
{
    writer.said(front)?;
    writer.number(u64::from(one.flavor))?;
    writer.said(b" ")?;
    writer.run(one.body.as_slice())
}

/// PROG/VERS/PROC
#[tactic(auto, unfolding(sd_text::specs::Grammar::writes))]
fn push_procedure(writer: &mut TextWriter, call: &Call) -> Result<(), NoMemory>
    ensures { OnOk result (writer.new ≡ writer.old ++ writes procedure (procedure_value (procedure_of call.now))) }
{
    writer.number(u64::from(call.prog))?;
    writer.said(b"/")?;
    writer.number(u64::from(call.vers))?;
    writer.said(b"/")?;
    writer.number(u64::from(call.proc_no))
}

/// PROG.PROC FIELDS, of arguments.
fn push_args(writer: &mut TextWriter, known: Known, bytes: &[u8]) -> Result<(), MsgError>
    ensures { SaysAsked (numbers known) bytes.now writer.old writer.new result }
{
    writer.said(known.as_str().as_bytes())?;
    let mut reader = XdrReader::new(bytes);
    say_fields(writer, &mut reader, &args(known))?;
    Ok(reader.finish()?)
}

/// PROG/VERS/PROC BYTES
#[tactic(auto, unfolding(sd_text::specs::Grammar::writes))]
fn push_other(writer: &mut TextWriter, call: &Call) -> Result<(), NoMemory>
    ensures { OnOk result (writer.new ≡ writer.old ++ writes asked (asked_value (procedure_of call.now) (bare call.now.args))) }
{
    push_procedure(writer, call)?;
    writer.said(b" ")?;
    writer.run(call.args.as_slice())
}

/// What a call asks for, with its arguments: PROG.PROC FIELDS, or PROG/VERS/PROC BYTES.
fn push_asked(writer: &mut TextWriter, call: &Call) -> Result<(), MsgError>
    ensures { SaysAsked (procedure_of call.now) call.now.args writer.old writer.new result }
{
    let bytes = call.args.as_slice();
    match known_by_numbers(procedure_of(call)) {
        Some(known) => push_args(writer, known, bytes),
        None => {
            push_other(writer, call)?;
            Ok(())
        }
    }
}

/// cred FLAVOR BYTES verf FLAVOR BYTES
#[tactic(auto, unfolding(sd_text::specs::Grammar::writes))]
fn push_auths(writer: &mut TextWriter, call: &Call) -> Result<(), NoMemory>
    ensures { OnOk result (writer.new ≡ writer.old ++ writes auths (auth_value call.now.cred ⊗ auth_value call.now.verf)) }
{
    push_auth(writer, b" cred ", &call.cred)?;
    push_auth(writer, b" verf ", &call.verf)
}

/// XID, what is asked, cred FLAVOR BYTES verf FLAVOR BYTES. A refusal is one of the arguments, and its place is in them.
fn push_call(writer: &mut TextWriter, call: &Call) -> Result<(), MsgError>
    ensures { SaysCall call.now writer.old writer.new result }
{
    writer.number(u64::from(call.xid))?;
    writer.said(b" ")?;
    push_asked(writer, call)?;
    push_auths(writer, call)?;
    Ok(())
}

/// LOW HIGH
#[tactic(auto, unfolding(sd_text::specs::Grammar::writes))]
fn push_range(writer: &mut TextWriter, low: u32, high: u32) -> Result<(), NoMemory>
    ensures { OnOk result (writer.new ≡ writer.old ++ writes range (number low ⊗ number high)) }
{
    writer.said(b" ")?;
    writer.number(u64::from(low))?;
    writer.said(b" ")?;
    writer.number(u64::from(high))
}

/// PROG.PROC verf FLAVOR BYTES success FIELDS, of results.
fn push_results(
    writer: &mut TextWriter,
    verf: &OpaqueAuth,
    bytes: &[u8],
    known: Known,
) -> Result<(), MsgError>
    ensures { SaysOutcome (Some known) (Success verf.now bytes.now) writer.old writer.new result }
{
    writer.said(known.as_str().as_bytes())?;
    push_auth(writer, b" verf ", verf)?;
    writer.said(b" success")?;
    let mut reader = XdrReader::new(bytes);
    say_fields(writer, &mut reader, &result_fields(known))?;
    Ok(reader.finish()?)
}

/// raw verf FLAVOR BYTES success BYTES
#[tactic(auto, unfolding(sd_text::specs::Grammar::writes))]
fn push_raw(writer: &mut TextWriter, verf: &OpaqueAuth, bytes: &[u8]) -> Result<(), NoMemory>
    ensures { OnOk result (writer.new ≡ writer.old ++ writes outcome (outcome_value (Success verf.now bytes.now) (bare bytes.now))) }
{
    writer.said(b"raw")?;
    push_auth(writer, b" verf ", verf)?;
    writer.said(b" success ")?;
    writer.run(bytes)
}

/// What follows the number of a reply where a call was done.
fn push_success(
    writer: &mut TextWriter,
    verf: &OpaqueAuth,
    bytes: &[u8],
    asked: Option<Known>,
) -> Result<(), MsgError>
    ensures { SaysOutcome asked (Success verf.now bytes.now) writer.old writer.new result }
{
    match asked {
        Some(known) => push_results(writer, verf, bytes, known),
        None => {
            push_raw(writer, verf, bytes)?;
            Ok(())
        }
    }
}

/// verf FLAVOR BYTES, and the state of an accepted call.
fn push_accepted(writer: &mut TextWriter, verf: &OpaqueAuth, state: &[u8]) -> Result<(), NoMemory>
    ensures { OnOk result (writer.new ≡ writer.old ++ (codes "verf" ++ (writes (texts.spaced auth) (auth_value verf.now) ++ state.now))) }
{
    writer.said(b"verf")?;
    push_auth(writer, b" ", verf)?;
    writer.said(state)
}

/// What follows the number of a reply where a call wasn't done.
#[tactic(auto, unfolding(sd_text::specs::Grammar::writes))]
fn push_outcome(writer: &mut TextWriter, one: &Outcome) -> Result<(), NoMemory>
    requires { IsNotDone one.now }
    ensures { OnOk result (writer.new ≡ writer.old ++ writes outcome (outcome_value one.now no_body)) }
{
    match one {
        Outcome::Success { .. } => Ok(()),
        Outcome::ProgUnavail { verf } => push_accepted(writer, verf, b" progunavail"),
        Outcome::ProgMismatch { verf, low, high } => {
            push_accepted(writer, verf, b" progmismatch")?;
            push_range(writer, *low, *high)
        }
        Outcome::ProcUnavail { verf } => push_accepted(writer, verf, b" procunavail"),
        Outcome::GarbageArgs { verf } => push_accepted(writer, verf, b" garbageargs"),
        Outcome::RpcMismatch { low, high } => {
            writer.said(b"rpcmismatch")?;
            push_range(writer, *low, *high)
        }
        Outcome::AuthError { stat } => {
            writer.said(b"autherror ")?;
            writer.number(u64::from(*stat))
        }
    }
}

/// reply XID, and its outcome. `asked` is what the call asked for, where it is known. A refusal is one of the results, and its
/// place is in them.
fn push_reply(writer: &mut TextWriter, reply: &Reply, asked: Option<Known>) -> Result<(), MsgError>
    ensures { SaysMessage asked (Answered reply.now) writer.old writer.new result }
{
    writer.said(b"reply ")?;
    writer.number(u64::from(reply.xid))?;
    writer.said(b" ")?;
    if let Outcome::Success { verf, results } = &reply.outcome {
        return push_success(writer, verf, results.as_slice(), asked);
    }
    push_outcome(writer, &reply.outcome)?;
    Ok(())
}

/// A message. `asked` is what the call of a reply asked for, where it is known. A refusal is one of the arguments or results, and
/// its place is in them.
pub fn push_message(
    writer: &mut TextWriter,
    message: &Message,
    asked: Option<Known>,
) -> Result<(), MsgError>
    ensures { SaysMessage asked message.now writer.old writer.new result }
{
    match message {
        Message::Asked(call) => {
            writer.said(b"call ")?;
            push_call(writer, call)
        }
        Message::Answered(reply) => push_reply(writer, reply, asked),
    }
}
