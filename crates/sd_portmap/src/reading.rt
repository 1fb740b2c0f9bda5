//! Reading the portmapper's messages.

ghost use Rattle.std.specs.Prelude.{◌≡◌, ◌≤◌, IfOk};
ghost use Rattle.sd_xdr.specs.Kind.{given};
ghost use Rattle.sd_xdr.specs.Grammar.{Answers};
ghost use Rattle.sd_portmap.specs.Layout.{args_layout, args_kind, args_value, proc_of, ArgsFit, result_layout, result_place, result_kind, result_value, IsResultOf, ResultFits, PortFits};

use crate::mapping::Mapping;
use crate::message::{PmapArgs, PmapResult};
use sd_outside::ByteList;
use sd_xdr::{Body, Item, MsgError, XdrReader, read_body, read_list};
use std::alloc::Global;

/// The arguments of procedures 0 to 5.
impl Body for PmapArgs {
    ghost has = { λ n. n ≤ 5 };

    ghost kind = { λ n. given n (args_layout n) };

    ghost value = { args_value };

    ghost is_of = { λ n a. proc_of a ≡ n };

    ghost fits = { ArgsFit };

    #[tactic(auto, unfolding(sd_xdr::specs::Reading::reading))]
    fn read_part(
        alloc: Global,
        reader: &mut XdrReader,
        proc_no: u32,
    ) -> Result<PmapArgs, MsgError> {
        match proc_no {
            0 => Ok(PmapArgs::Null),
            1 => Ok(PmapArgs::Set(Mapping::read(alloc, reader)?)),
            2 => Ok(PmapArgs::Unset(Mapping::read(alloc, reader)?)),
            3 => Ok(PmapArgs::Getport(Mapping::read(alloc, reader)?)),
            4 => Ok(PmapArgs::Dump),
            _ => {
                let prog = reader.u32()?;
                let vers = reader.u32()?;
                let proc_no = reader.u32()?;
                let args = ByteList::from_slice(alloc, reader.opaque_var(u32::MAX)?)?;
                Ok(PmapArgs::Callit {
                    prog,
                    vers,
                    proc_no,
                    args,
                })
            }
        }
    }
}

/// The arguments of a procedure that the bytes, all of them, spell, or the first refusal in the order of the bytes.
pub fn read_pmap_args(alloc: Global, proc_no: u32, bytes: &[u8]) -> Result<PmapArgs, MsgError>
    requires { proc_no ≤ 5 }
    ensures answers { Answers (args_kind proc_no) args_value bytes.now result }
    ensures of_proc { IfOk result (λ a. proc_of a ≡ proc_no) }
    // What was read can be written.
    ensures fits { IfOk result ArgsFit }
{
    read_body::<PmapArgs>(alloc, proc_no, bytes)
}

/// The results of procedures 0 to 5.
impl Body for PmapResult {
    ghost has = { λ n. n ≤ 5 };

    ghost kind = { λ n. given (result_place n) (result_layout (result_place n)) };

    ghost value = { result_value };

    ghost is_of = { IsResultOf };

    ghost fits = { λ r. ResultFits r × PortFits r };

    #[tactic(auto, unfolding(sd_xdr::specs::Reading::reading))]
    fn read_part(
        alloc: Global,
        reader: &mut XdrReader,
        proc_no: u32,
    ) -> Result<PmapResult, MsgError> {
        match proc_no {
            0 => Ok(PmapResult::Void),
            3 => Ok(PmapResult::Port(reader.word_between(0, 65535)?)),
            4 => Ok(PmapResult::Mappings(read_list(alloc, reader)?)),
            5 => {
                let port = reader.u32()?;
                let results = ByteList::from_slice(alloc, reader.opaque_var(u32::MAX)?)?;
                Ok(PmapResult::Callit { port, results })
            }
            _ => Ok(PmapResult::Flag(reader.bool()?)),
        }
    }
}

/// The result of a procedure that the bytes, all of them, spell, or the first refusal in the order of the bytes. A port above
/// 65,535 that procedure 3 answers is refused as `Kind`.
pub fn read_pmap_result(alloc: Global, proc_no: u32, bytes: &[u8]) -> Result<PmapResult, MsgError>
    requires { proc_no ≤ 5 }
    ensures answers { Answers (result_kind proc_no) result_value bytes.now result }
    ensures of_proc { IfOk result (λ r. IsResultOf proc_no r) }
    // What was read can be written.
    ensures fits { IfOk result ResultFits }
    ensures port { IfOk result PortFits }
{
    read_body::<PmapResult>(alloc, proc_no, bytes)
}
