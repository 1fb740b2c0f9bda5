//! Reading the messages.

ghost use Rattle.std.specs.Prelude.{◌≡◌, ◌≤◌, IfOk, length};
ghost use Rattle.sd_xdr.specs.Kind.{given, opaque, upto, bytes};
ghost use Rattle.sd_xdr.specs.Grammar.{Answers};
ghost use Rattle.sd_xdr.specs.Reading.{Takes};
ghost use Rattle.sd_bootparams.specs.Layout.{ip, ip_value, args_layout, args_kind, args_value, proc_of, ArgsFit, result_layout, result_kind, result_value, result_proc, ResultFits};

use crate::message::{BpArgs, BpResult};
use sd_outside::ByteList;
use sd_xdr::{Body, MsgError, XdrReader, read_body};
use std::alloc::Global;

const NAME_LIMIT: u32 = 255;

const KEY_LIMIT: u32 = 32;

const PATH_LIMIT: u32 = 1024;

/// An address: the kind 1, and four chars.
#[tactic(auto, unfolding(sd_xdr::specs::Reading::reading))]
fn ip_of(reader: &mut XdrReader) -> Result<u32, MsgError>
    ensures { Takes ip ip_value reader.old reader.new result }
{
    reader.word_between(1, 1)?;
    let a = reader.char()?;
    let b = reader.char()?;
    let c = reader.char()?;
    let d = reader.char()?;
    Ok(u32::from_be_bytes([a, b, c, d]))
}

fn text_of(alloc: Global, reader: &mut XdrReader, max: u32) -> Result<ByteList, MsgError>
    ensures takes { Takes (opaque (upto max)) bytes reader.old reader.new result }
    ensures fits { IfOk result (λ text. length text ≤ max) }
{
    Ok(ByteList::from_slice(alloc, reader.opaque_var(max)?)?)
}

/// The arguments of procedures 0 to 2.
impl Body for BpArgs {
    ghost has = { λ n. n ≤ 2 };

    ghost kind = { λ n. given n (args_layout n) };

    ghost value = { args_value };

    ghost is_of = { λ n a. proc_of a ≡ n };

    ghost fits = { ArgsFit };

    #[tactic(auto, unfolding(sd_xdr::specs::Reading::reading))]
    fn read_part(alloc: Global, reader: &mut XdrReader, proc_no: u32) -> Result<BpArgs, MsgError> {
        match proc_no {
            0 => Ok(BpArgs::Null),
            1 => Ok(BpArgs::Whoami { ip: ip_of(reader)? }),
            _ => {
                let client = text_of(alloc, reader, NAME_LIMIT)?;
                let key = text_of(alloc, reader, KEY_LIMIT)?;
                Ok(BpArgs::Getfile { client, key })
            }
        }
    }
}

/// The arguments of a procedure that the bytes, all of them, spell, or the first refusal in the order of the bytes.
pub fn read_bp_args(alloc: Global, proc_no: u32, bytes: &[u8]) -> Result<BpArgs, MsgError>
    requires { proc_no ≤ 2 }
    ensures answers { Answers (args_kind proc_no) args_value bytes.now result }
    ensures of_proc { IfOk result (λ a. proc_of a ≡ proc_no) }
    // What was read can be written.
    ensures fits { IfOk result ArgsFit }
{
    read_body::<BpArgs>(alloc, proc_no, bytes)
}

/// The results of procedures 0 to 2.
impl Body for BpResult {
    ghost has = { λ n. n ≤ 2 };

    ghost kind = { λ n. given n (result_layout n) };

    ghost value = { result_value };

    ghost is_of = { λ n r. result_proc r ≡ n };

    ghost fits = { ResultFits };

    #[tactic(auto, unfolding(sd_xdr::specs::Reading::reading))]
    fn read_part(
        alloc: Global,
        reader: &mut XdrReader,
        proc_no: u32,
    ) -> Result<BpResult, MsgError> {
        match proc_no {
            0 => Ok(BpResult::Void),
            1 => {
                let client = text_of(alloc, reader, NAME_LIMIT)?;
                let domain = text_of(alloc, reader, NAME_LIMIT)?;
                let router = ip_of(reader)?;
                Ok(BpResult::Whoami {
                    client,
                    domain,
                    router,
                })
            }
            _ => {
                let server = text_of(alloc, reader, NAME_LIMIT)?;
                let ip = ip_of(reader)?;
                let path = text_of(alloc, reader, PATH_LIMIT)?;
                Ok(BpResult::Getfile { server, ip, path })
            }
        }
    }
}

/// The result of a procedure that the bytes, all of them, spell, or the first refusal in the order of the bytes.
pub fn read_bp_result(alloc: Global, proc_no: u32, bytes: &[u8]) -> Result<BpResult, MsgError>
    requires { proc_no ≤ 2 }
    ensures answers { Answers (result_kind proc_no) result_value bytes.now result }
    ensures of_proc { IfOk result (λ r. result_proc r ≡ proc_no) }
    // What was read can be written.
    ensures fits { IfOk result ResultFits }
{
    read_body::<BpResult>(alloc, proc_no, bytes)
}
