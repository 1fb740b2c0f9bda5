//! Reading the text of a message.

ghost use Rattle.std.specs.Prelude.{◌≡◌, ◌+◌, codes, IfOk, IsTrue};
ghost use Rattle.sd_xdr.specs.Kind.{number, bytes, ◌⊗◌};
ghost use Rattle.sd_rpc_msg.specs.Layout.{auth_value};
ghost use Rattle.sd_text.specs.Kind as texts;
ghost use Rattle.sd_text.specs.Kind.{any, word, digits, said, given, ◌&◌};
ghost use Rattle.sd_text.specs.Reading.{Takes};
ghost use Rattle.sd_show.specs.Fields.{fields_text};
ghost use Rattle.sd_show.specs.Programs.{args_kind, results_kind, args, results, IsUnknown};
ghost use Rattle.sd_show.specs.Messages.{no_body};
ghost use Rattle.sd_show.specs.Lines.{place, auth, content, procedure, procedure_value, is_other, other, named, asked, auths, call, range, states, raw, done, answer, outcome, reply, outcome_value, carries_message, carried_arm};
ghost use Rattle.sd_show.specs.Packing.{value_in, AreWritten, asked_told, IsAskedWritten, state_told, outcome_told, IsOutcomeWritten, message_told, IsMessageWritten};

use crate::procedures::{Known, Procedure, known_by_name, known_by_numbers};
use crate::programs::{args, results};
use crate::taking::{LONGEST, take_fields, take_word};
use sd_outside::ByteList;
use sd_rpc_msg::{Call, Message, OpaqueAuth, Outcome, Reply};
use sd_text::{Class, LineError, TextReader, is_word};
use sd_xdr::XdrWriter;
use std::alloc::Global;

/// The greatest word.
const GREATEST: u32 = 4_294_967_295;

/// A word behind a fixed text.
#[tactic(auto, unfolding(sd_text::specs::Reading::reading))]
fn take_number(reader: &mut TextReader, front: &[u8]) -> Result<u32, LineError>
    ensures { Takes (said front.now any) number reader.old reader.new result }
{
    reader.said(front)?;
    take_word(reader, GREATEST)
}

/// Bytes that aren't read, behind a fixed text.
#[tactic(auto, unfolding(sd_text::specs::Reading::reading))]
fn take_bytes(alloc: Global, reader: &mut TextReader, front: &[u8]) -> Result<ByteList, LineError>
    ensures { Takes (said front.now content) bytes reader.old reader.new result }
{
    reader.said(front)?;
    Ok(reader.run(alloc, 0, LONGEST)?)
}

/// The body of an authentication.
#[tactic(auto, unfolding(sd_text::specs::Reading::reading))]
fn take_body(alloc: Global, reader: &mut TextReader) -> Result<ByteList, LineError>
    ensures { Takes (texts.spaced (word (texts.run 0 400))) bytes reader.old reader.new result }
{
    reader.said(b" ")?;
    Ok(reader.run(alloc, 0, 400)?)
}

/// FLAVOR BYTES, behind a fixed text.
#[tactic(auto, unfolding(sd_text::specs::Reading::reading))]
fn take_auth(alloc: Global, reader: &mut TextReader, front: &[u8]) -> Result<OpaqueAuth, LineError>
    ensures { Takes (said front.now auth) auth_value reader.old reader.new result }
{
    reader.said(front)?;
    let flavor = take_word(reader, GREATEST)?;
    let body = take_body(alloc, reader)?;
    Ok(OpaqueAuth { flavor, body })
}

/// PROG/VERS/PROC
#[tactic(auto, unfolding(sd_text::specs::Reading::reading))]
fn take_procedure(reader: &mut TextReader) -> Result<Procedure, LineError>
    ensures { Takes procedure procedure_value reader.old reader.new result }
{
    let prog = take_word(reader, GREATEST)?;
    let vers = take_number(reader, b"/")?;
    let proc_no = take_number(reader, b"/")?;
    Ok(Procedure {
        prog,
        vers,
        proc_no,
    })
}

/// What a call asks for, with its arguments. A procedure that stands by its name is known.
#[derive(Debug, Drop)]
pub struct AskedText {
    pub known: Option<Known>,
    pub procedure: Procedure,
    pub args: ByteList,
}

/// Whether a procedure isn't known by name.
fn is_other(procedure: Procedure) -> bool
    ensures is { result ≡ is_other (procedure_value procedure) }
    ensures unknown { IsTrue result → IsUnknown procedure }
{
    known_by_numbers(procedure).is_none()
}

/// PROG/VERS/PROC BYTES, of a procedure that isn't known by name.
#[tactic(auto, unfolding(sd_text::specs::Reading::reading))]
fn take_other(alloc: Global, reader: &mut TextReader) -> Result<AskedText, LineError>
    ensures takes { Takes (given 0 other) asked_told reader.old reader.new result }
    ensures written { IfOk result IsAskedWritten }
{
    let procedure = take_procedure(reader)?;
    if !is_other(procedure) {
        return Err(LineError::Outside);
    }
    let args = take_bytes(alloc, reader, b" ")?;
    Ok(AskedText {
        known: None,
        procedure,
        args,
    })
}

/// The fields of a procedure's arguments, as their bytes.
fn take_args(alloc: Global, reader: &mut TextReader, known: Known) -> Result<ByteList, LineError>
    ensures takes { Takes (fields_text (args known)) (value_in (args_kind known)) reader.old reader.new result }
    ensures written { IfOk result (AreWritten (args_kind known)) }
{
    let mut writer = XdrWriter::new(alloc);
    take_fields(alloc, reader, &mut writer, &args(known))?;
    Ok(writer.finish())
}

/// The fields of a procedure's results, as their bytes.
fn take_results(alloc: Global, reader: &mut TextReader, known: Known) -> Result<ByteList, LineError>
    ensures takes { Takes (fields_text (results known)) (value_in (results_kind known)) reader.old reader.new result }
    ensures written { IfOk result (AreWritten (results_kind known)) }
{
    let mut writer = XdrWriter::new(alloc);
    take_fields(alloc, reader, &mut writer, &results(known))?;
    Ok(writer.finish())
}

/// PROG.PROC FIELDS
#[tactic(auto, unfolding(sd_text::specs::Reading::reading, sd_text::specs::Reading::name_reading), using(crate::proofs::Knowing::named_back))]
fn take_named(alloc: Global, reader: &mut TextReader) -> Result<AskedText, LineError>
    ensures takes { Takes (given 1 named) asked_told reader.old reader.new result }
    ensures written { IfOk result IsAskedWritten }
{
    let word = reader.front(Class::Name);
    let Some(known) = known_by_name(word) else {
        return Err(LineError::Outside);
    };
    let args = take_args(alloc, reader, known)?;
    Ok(AskedText {
        known: Some(known),
        procedure: known.numbers(),
        args,
    })
}

/// What a call asks for.
#[tactic(auto, unfolding(sd_text::specs::Reading::reading))]
fn take_asked(alloc: Global, reader: &mut TextReader) -> Result<AskedText, LineError>
    ensures takes { Takes (texts.spaced asked) asked_told reader.old reader.new result }
    ensures written { IfOk result IsAskedWritten }
{
    reader.said(b" ")?;
    if reader.begins_digit() {
        return Ok(take_other(alloc, reader)?);
    }
    Ok(take_named(alloc, reader)?)
}

/// cred FLAVOR BYTES verf FLAVOR BYTES
#[tactic(auto, unfolding(sd_text::specs::Reading::reading))]
fn take_auths(alloc: Global, reader: &mut TextReader) -> Result<(OpaqueAuth, OpaqueAuth), LineError>
    ensures { Takes auths (λ a. auth_value a.0 ⊗ auth_value a.1) reader.old reader.new result }
{
    let cred = take_auth(alloc, reader, b" cred ")?;
    let verf = take_auth(alloc, reader, b" verf ")?;
    Ok((cred, verf))
}

/// A message, and the procedure that stands in it by name.
#[derive(Debug, Drop)]
pub struct MessageText {
    pub message: Message,
    pub known: Option<Known>,
}

/// What follows `call`.
#[tactic(auto, unfolding(sd_text::specs::Reading::reading))]
pub fn take_call(alloc: Global, reader: &mut TextReader) -> Result<MessageText, LineError>
    ensures takes { Takes (given 1 (texts.spaced call)) message_told reader.old reader.new result }
    ensures written { IfOk result IsMessageWritten }
{
    let xid = take_number(reader, b" ")?;
    let asked = take_asked(alloc, reader)?;
    let (cred, verf) = take_auths(alloc, reader)?;
    let procedure = asked.procedure;
    Ok(MessageText {
        message: Message::Asked(Call {
            xid,
            prog: procedure.prog,
            vers: procedure.vers,
            proc_no: procedure.proc_no,
            cred,
            verf,
            args: asked.args,
        }),
        known: asked.known,
    })
}

/// LOW HIGH
#[tactic(auto, unfolding(sd_text::specs::Reading::reading))]
fn take_range(reader: &mut TextReader) -> Result<(u32, u32), LineError>
    ensures { Takes range (λ r. number r.0 ⊗ number r.1) reader.old reader.new result }
{
    let low = take_number(reader, b" ")?;
    let high = take_number(reader, b" ")?;
    Ok((low, high))
}

/// The state of an accepted call that has no results.
#[derive(Clone, Copy, Debug)]
pub enum State {
    ProgUnavail,
    ProgMismatch { low: u32, high: u32 },
    ProcUnavail,
    GarbageArgs,
}

/// The state of an accepted call that has no results.
#[tactic(auto, unfolding(sd_text::specs::Reading::reading, sd_text::specs::Reading::name_reading))]
fn take_state(reader: &mut TextReader) -> Result<State, LineError>
    ensures { Takes (texts.spaced states) state_told reader.old reader.new result }
{
    reader.said(b" ")?;
    let state = reader.front(Class::Name);
    if is_word(state, b"progunavail") {
        return Ok(State::ProgUnavail);
    }
    if is_word(state, b"progmismatch") {
        let (low, high) = take_range(reader)?;
        return Ok(State::ProgMismatch { low, high });
    }
    if is_word(state, b"procunavail") {
        return Ok(State::ProcUnavail);
    }
    if is_word(state, b"garbageargs") {
        return Ok(State::GarbageArgs);
    }
    Err(LineError::Outside)
}

/// What an accepted call came to.
fn outcome_of(verf: OpaqueAuth, state: State) -> Outcome
    ensures { outcome_value result no_body ≡ number 1 ⊗ auth_value verf ⊗ state_told state }
{
    match state {
        State::ProgUnavail => Outcome::ProgUnavail { verf },
        State::ProgMismatch { low, high } => Outcome::ProgMismatch { verf, low, high },
        State::ProcUnavail => Outcome::ProcUnavail { verf },
        State::GarbageArgs => Outcome::GarbageArgs { verf },
    }
}

/// What a call came to, and the procedure that stands in it by name.
#[derive(Debug, Drop)]
pub struct OutcomeText {
    pub outcome: Outcome,
    pub known: Option<Known>,
}

/// What follows `raw`.
#[tactic(auto, unfolding(sd_text::specs::Reading::reading))]
fn take_raw(alloc: Global, reader: &mut TextReader) -> Result<OutcomeText, LineError>
    ensures takes { Takes (given 0 raw) outcome_told reader.old reader.new result }
    ensures written { IfOk result IsOutcomeWritten }
{
    let verf = take_auth(alloc, reader, b" verf ")?;
    let results = take_bytes(alloc, reader, b" success ")?;
    Ok(OutcomeText {
        outcome: Outcome::Success { verf, results },
        known: None,
    })
}

/// What follows `verf`.
#[tactic(auto, unfolding(sd_text::specs::Reading::reading))]
fn take_accepted(alloc: Global, reader: &mut TextReader) -> Result<OutcomeText, LineError>
    ensures takes { Takes (given 1 (texts.spaced auth & texts.spaced states)) outcome_told reader.old reader.new result }
    ensures written { IfOk result IsOutcomeWritten }
{
    let verf = take_auth(alloc, reader, b" ")?;
    let state = take_state(reader)?;
    Ok(OutcomeText {
        outcome: outcome_of(verf, state),
        known: None,
    })
}

/// What follows `rpcmismatch`.
#[tactic(auto, unfolding(sd_text::specs::Reading::reading))]
fn take_mismatch(reader: &mut TextReader) -> Result<OutcomeText, LineError>
    ensures takes { Takes (given 2 range) outcome_told reader.old reader.new result }
    ensures written { IfOk result IsOutcomeWritten }
{
    let (low, high) = take_range(reader)?;
    Ok(OutcomeText {
        outcome: Outcome::RpcMismatch { low, high },
        known: None,
    })
}

/// What follows `autherror`.
#[tactic(auto, unfolding(sd_text::specs::Reading::reading))]
fn take_denial(reader: &mut TextReader) -> Result<OutcomeText, LineError>
    ensures takes { Takes (given 3 (texts.spaced (word (digits 1 5)))) outcome_told reader.old reader.new result }
    ensures written { IfOk result IsOutcomeWritten }
{
    reader.said(b" ")?;
    let stat = reader.number(1, 5)? as u32;
    Ok(OutcomeText {
        outcome: Outcome::AuthError { stat },
        known: None,
    })
}

/// success FIELDS
#[tactic(auto, unfolding(sd_text::specs::Reading::reading))]
fn take_success(alloc: Global, reader: &mut TextReader, known: Known) -> Result<ByteList, LineError>
    ensures takes { Takes (said (codes " success") (fields_text (results known))) (value_in (results_kind known)) reader.old reader.new result }
    ensures written { IfOk result (AreWritten (results_kind known)) }
{
    reader.said(b" success")?;
    Ok(take_results(alloc, reader, known)?)
}

/// What follows a procedure's name.
#[tactic(auto, unfolding(sd_text::specs::Reading::reading))]
fn take_done(alloc: Global, reader: &mut TextReader, known: Known) -> Result<OutcomeText, LineError>
    ensures takes { Takes (given (place known + 4) (done known)) outcome_told reader.old reader.new result }
    ensures written { IfOk result IsOutcomeWritten }
{
    let verf = take_auth(alloc, reader, b" verf ")?;
    let results = take_success(alloc, reader, known)?;
    Ok(OutcomeText {
        outcome: Outcome::Success { verf, results },
        known: Some(known),
    })
}

/// What a call came to.
#[tactic(auto, unfolding(sd_text::specs::Reading::reading, sd_text::specs::Reading::name_reading), using(crate::proofs::Knowing::answer_back))]
fn take_answer(alloc: Global, reader: &mut TextReader) -> Result<OutcomeText, LineError>
    ensures takes { Takes outcome outcome_told reader.old reader.new result }
    ensures written { IfOk result IsOutcomeWritten }
{
    let word = reader.front(Class::Name);
    if is_word(word, b"raw") {
        return Ok(take_raw(alloc, reader)?);
    }
    if is_word(word, b"verf") {
        return Ok(take_accepted(alloc, reader)?);
    }
    if is_word(word, b"rpcmismatch") {
        return Ok(take_mismatch(reader)?);
    }
    if is_word(word, b"autherror") {
        return Ok(take_denial(reader)?);
    }
    let Some(known) = known_by_name(word) else {
        return Err(LineError::Outside);
    };
    Ok(take_done(alloc, reader, known)?)
}

/// What follows the number of a reply.
#[tactic(auto, unfolding(sd_text::specs::Reading::reading))]
fn take_outcome(alloc: Global, reader: &mut TextReader) -> Result<OutcomeText, LineError>
    ensures takes { Takes (texts.spaced outcome) outcome_told reader.old reader.new result }
    ensures written { IfOk result IsOutcomeWritten }
{
    reader.said(b" ")?;
    Ok(take_answer(alloc, reader)?)
}

/// What follows `reply`.
#[tactic(auto, unfolding(sd_text::specs::Reading::reading))]
pub fn take_reply(alloc: Global, reader: &mut TextReader) -> Result<MessageText, LineError>
    ensures takes { Takes (given 2 (texts.spaced reply)) message_told reader.old reader.new result }
    ensures written { IfOk result IsMessageWritten }
{
    let xid = take_number(reader, b" ")?;
    let text = take_outcome(alloc, reader)?;
    Ok(MessageText {
        message: Message::Answered(Reply {
            xid,
            outcome: text.outcome,
        }),
        known: text.known,
    })
}
