//! Reading the messages.

ghost use Rattle.std.specs.Prelude.{◌≡◌, ◌≤◌, length, IfOk};
ghost use Rattle.sd_xdr.specs.Kind.{given, bytes};
ghost use Rattle.sd_xdr.specs.Grammar.{Answers};
ghost use Rattle.sd_xdr.specs.Reading.{Takes};
ghost use Rattle.sd_mount.specs.Layout.{path_limit, dirpath, args_layout, args_kind, args_value, proc_of, ArgsFit, result_layout, result_place, result_kind, result_value, IsResultOf, ResultFits};

use crate::message::{MountArgs, MountResult};
use sd_outside::{ByteList, FHandle};
use sd_xdr::{Body, Item, MsgError, XdrReader, read_body, read_list};
use std::alloc::Global;

fn path_of(alloc: Global, reader: &mut XdrReader) -> Result<ByteList, MsgError>
    ensures takes { Takes dirpath bytes reader.old reader.new result }
    ensures fits { IfOk result (λ path. length path ≤ path_limit) }
{
    Ok(ByteList::from_slice(alloc, reader.opaque_var(1024)?)?)
}

/// The arguments of procedures 0 to 5.
impl Body for MountArgs {
    ghost has = { λ n. n ≤ 5 };

    ghost kind = { λ n. given n (args_layout n) };

    ghost value = { args_value };

    ghost is_of = { λ n a. proc_of a ≡ n };

    ghost fits = { ArgsFit };

    #[tactic(auto, unfolding(sd_xdr::specs::Reading::reading))]
    fn read_part(
        alloc: Global,
        reader: &mut XdrReader,
        proc_no: u32,
    ) -> Result<MountArgs, MsgError> {
        match proc_no {
            0 => Ok(MountArgs::Null),
            1 => Ok(MountArgs::Mnt {
                path: path_of(alloc, reader)?,
            }),
            2 => Ok(MountArgs::Dump),
            3 => Ok(MountArgs::Umnt {
                path: path_of(alloc, reader)?,
            }),
            4 => Ok(MountArgs::UmntAll),
            _ => Ok(MountArgs::Export),
        }
    }
}

/// The arguments of a procedure that the bytes, all of them, spell, or the first refusal in the order of the bytes.
pub fn read_mount_args(alloc: Global, proc_no: u32, bytes: &[u8]) -> Result<MountArgs, MsgError>
    requires { proc_no ≤ 5 }
    ensures answers { Answers (args_kind proc_no) args_value bytes.now result }
    ensures of_proc { IfOk result (λ a. proc_of a ≡ proc_no) }
    // What was read can be written.
    ensures fits { IfOk result ArgsFit }
{
    read_body::<MountArgs>(alloc, proc_no, bytes)
}

#[tactic(auto, unfolding(sd_xdr::specs::Reading::reading))]
fn status_part(alloc: Global, reader: &mut XdrReader) -> Result<MountResult, MsgError>
    ensures takes { Takes (given 1 (result_layout 1)) result_value reader.old reader.new result }
    ensures of_proc { IfOk result (λ r. IsResultOf 1 r) }
{
    match reader.u32()? {
        0 => Ok(MountResult::Given(FHandle::read(alloc, reader)?)),
        status => Ok(MountResult::Refused { status }),
    }
}

/// The results of procedures 0 to 5.
impl Body for MountResult {
    ghost has = { λ n. n ≤ 5 };

    ghost kind = { λ n. given (result_place n) (result_layout (result_place n)) };

    ghost value = { result_value };

    ghost is_of = { IsResultOf };

    ghost fits = { λ _. Unit {0} };

    #[tactic(auto, unfolding(sd_xdr::specs::Reading::reading))]
    fn read_part(
        alloc: Global,
        reader: &mut XdrReader,
        proc_no: u32,
    ) -> Result<MountResult, MsgError> {
        match proc_no {
            1 => Ok(status_part(alloc, reader)?),
            2 => Ok(MountResult::Mounts(read_list(alloc, reader)?)),
            5 => Ok(MountResult::Exports(read_list(alloc, reader)?)),
            _ => Ok(MountResult::Void),
        }
    }
}

/// The result of a procedure that the bytes, all of them, spell, or the first refusal in the order of the bytes. Any status of
/// procedure 1 that isn't 0 is a refusal by the server.
pub fn read_mount_result(alloc: Global, proc_no: u32, bytes: &[u8]) -> Result<MountResult, MsgError>
    requires { proc_no ≤ 5 }
    ensures answers { Answers (result_kind proc_no) result_value bytes.now result }
    ensures of_proc { IfOk result (λ r. IsResultOf proc_no r) }
    // What was read can be written.
    ensures fits { IfOk result ResultFits }
{
    read_body::<MountResult>(alloc, proc_no, bytes)
}
