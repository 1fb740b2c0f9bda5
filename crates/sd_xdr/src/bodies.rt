//! Arguments and results: whole messages, which a procedure's number tells apart.

ghost use Rattle.std.specs.Prelude.{ℕ, IfOk};
ghost use Rattle.sd_xdr.specs.Kind.{part, Kind, Value, ended};
ghost use Rattle.sd_xdr.specs.Grammar.{Answers};
ghost use Rattle.sd_xdr.specs.Reading.{Takes};

use crate::error::MsgError;
use crate::reader::XdrReader;
use std::alloc::Global;

/// The arguments or the result of a procedure (RFC 1057, section 8).
pub trait Body: Drop {
    /// Which procedures have one.
    ghost has: { ℕ → Type 0 };

    /// The kind of a procedure's body, behind which the message ends.
    ghost kind: { ℕ → Kind part };

    /// The value that the body is.
    ghost value: { Self → Value };

    /// Which bodies are of a procedure.
    ghost is_of: { ℕ → Self → Type 0 };

    /// Which bodies have a spelling.
    ghost fits: { Self → Type 0 };

    fn read_part(alloc: Global, reader: &mut XdrReader, proc_no: u32) -> Result<Self, MsgError>
        requires { has proc_no }
        ensures takes { Takes (kind proc_no) value reader.old reader.new result }
        ensures of_proc { IfOk result (λ body. is_of proc_no body) }
        ensures fits { IfOk result fits };
}

#[tactic(auto, unfolding(crate::specs::Reading::reading))]
fn read_to_end<B: Body>(alloc: Global, reader: &mut XdrReader, proc_no: u32) -> Result<B, MsgError>
    requires { B.has proc_no }
    ensures takes { Takes (ended (B.kind proc_no)) B.value reader.old reader.new result }
    ensures of_proc { IfOk result (λ body. B.is_of proc_no body) }
    ensures fits { IfOk result B.fits }
{
    let body = B::read_part(alloc, reader, proc_no)?;
    reader.end()?;
    Ok(body)
}

/// The body of a procedure that the bytes, all of them, spell, or the first refusal in the order of the bytes.
#[tactic(auto, using(crate::proofs::Whole::answers))]
pub fn read_body<B: Body>(alloc: Global, proc_no: u32, bytes: &[u8]) -> Result<B, MsgError>
    requires { B.has proc_no }
    ensures answers { Answers (ended (B.kind proc_no)) B.value bytes.now result }
    ensures of_proc { IfOk result (λ body. B.is_of proc_no body) }
    // What was read can be written.
    ensures fits { IfOk result B.fits }
{
    read_to_end(alloc, &mut XdrReader::new(bytes), proc_no)
}
