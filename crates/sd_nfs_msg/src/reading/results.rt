//! Reading results.

ghost use Rattle.std.specs.Prelude.{◌≡◌, ◌≢◌, ◌≤◌, IfOk};
ghost use Rattle.sd_xdr.specs.Kind.{given};
ghost use Rattle.sd_xdr.specs.Grammar.{Answers};
ghost use Rattle.sd_xdr.specs.Reading.{Takes};
ghost use Rattle.sd_nfs_msg.specs.Layout.{done_layout, result_layout, result_kind, result_value, IsResultOf, ResultFits};

use super::{data_of, path_of};
use crate::message::NfsResult;
use crate::parts::Fattr;
use sd_outside::FHandle;
use sd_xdr::{Body, Item, MsgError, XdrReader, read_body, read_list};
use std::alloc::Global;

#[tactic(auto, unfolding(sd_xdr::specs::Reading::reading))]
fn readdir_part(alloc: Global, reader: &mut XdrReader) -> Result<NfsResult, MsgError>
    ensures takes { Takes (given 0 (given 16 (done_layout 16))) result_value reader.old reader.new result }
    ensures of_proc { IfOk result (λ r. IsResultOf 16 r) }
{
    let entries = read_list(alloc, reader)?;
    let eof = reader.bool()?;
    Ok(NfsResult::Readdir { entries, eof })
}

#[tactic(auto, unfolding(sd_xdr::specs::Reading::reading))]
fn statfs_part(reader: &mut XdrReader) -> Result<NfsResult, MsgError>
    ensures takes { Takes (given 0 (given 17 (done_layout 17))) result_value reader.old reader.new result }
    ensures of_proc { IfOk result (λ r. IsResultOf 17 r) }
{
    let tsize = reader.u32()?;
    let bsize = reader.u32()?;
    let blocks = reader.u32()?;
    let bfree = reader.u32()?;
    let bavail = reader.u32()?;
    Ok(NfsResult::Statfs {
        tsize,
        bsize,
        blocks,
        bfree,
        bavail,
    })
}

/// What a procedure that looks at a file, or writes into it, answers behind the status 0.
#[tactic(auto, unfolding(sd_xdr::specs::Reading::reading))]
fn file_part(alloc: Global, reader: &mut XdrReader, proc_no: u32) -> Result<NfsResult, MsgError>
    requires from { 1 ≤ proc_no }
    requires limit { proc_no ≤ 8 }
    requires not_root { proc_no ≢ 3 }
    requires not_writecache { proc_no ≢ 7 }
    ensures takes { Takes (given 0 (given proc_no (done_layout proc_no))) result_value reader.old reader.new result }
    ensures of_proc { IfOk result (λ r. IsResultOf proc_no r) }
{
    match proc_no {
        1 => {
            let attr = Fattr::read(alloc, reader)?;
            Ok(NfsResult::Getattr { attr })
        }
        2 => {
            let attr = Fattr::read(alloc, reader)?;
            Ok(NfsResult::Setattr { attr })
        }
        4 => {
            let file = FHandle::read(alloc, reader)?;
            let attr = Fattr::read(alloc, reader)?;
            Ok(NfsResult::Lookup { file, attr })
        }
        5 => {
            let path = path_of(alloc, reader)?;
            Ok(NfsResult::Readlink { path })
        }
        6 => {
            let attr = Fattr::read(alloc, reader)?;
            let bytes = data_of(alloc, reader)?;
            Ok(NfsResult::Read { attr, bytes })
        }
        _ => {
            let attr = Fattr::read(alloc, reader)?;
            Ok(NfsResult::Write { attr })
        }
    }
}

/// What a procedure that makes, takes or shows names in a directory, or tells of its file system, answers behind the status 0.
#[tactic(auto, unfolding(sd_xdr::specs::Reading::reading))]
fn names_part(alloc: Global, reader: &mut XdrReader, proc_no: u32) -> Result<NfsResult, MsgError>
    requires from { 9 ≤ proc_no }
    requires limit { proc_no ≤ 17 }
    ensures takes { Takes (given 0 (given proc_no (done_layout proc_no))) result_value reader.old reader.new result }
    ensures of_proc { IfOk result (λ r. IsResultOf proc_no r) }
{
    match proc_no {
        9 => {
            let file = FHandle::read(alloc, reader)?;
            let attr = Fattr::read(alloc, reader)?;
            Ok(NfsResult::Create { file, attr })
        }
        10 => Ok(NfsResult::Remove),
        11 => Ok(NfsResult::Rename),
        12 => Ok(NfsResult::Link),
        13 => Ok(NfsResult::Symlink),
        14 => {
            let file = FHandle::read(alloc, reader)?;
            let attr = Fattr::read(alloc, reader)?;
            Ok(NfsResult::Mkdir { file, attr })
        }
        15 => Ok(NfsResult::Rmdir),
        16 => Ok(readdir_part(alloc, reader)?),
        _ => Ok(statfs_part(reader)?),
    }
}

fn done_part(alloc: Global, reader: &mut XdrReader, proc_no: u32) -> Result<NfsResult, MsgError>
    requires from { 1 ≤ proc_no }
    requires limit { proc_no ≤ 17 }
    requires not_root { proc_no ≢ 3 }
    requires not_writecache { proc_no ≢ 7 }
    ensures takes { Takes (given 0 (given proc_no (done_layout proc_no))) result_value reader.old reader.new result }
    ensures of_proc { IfOk result (λ r. IsResultOf proc_no r) }
{
    if proc_no < 9 {
        file_part(alloc, reader, proc_no)
    } else {
        names_part(alloc, reader, proc_no)
    }
}

/// The results of procedures 0 to 17 without 3 and 7.
impl Body for NfsResult {
    ghost has = { λ n. (n ≤ 17) × (n ≢ 3) × (n ≢ 7) };

    ghost kind = { result_layout };

    ghost value = { result_value };

    ghost is_of = { IsResultOf };

    ghost fits = { λ _. Unit {0} };

    #[tactic(auto, unfolding(sd_xdr::specs::Reading::reading))]
    fn read_part(
        alloc: Global,
        reader: &mut XdrReader,
        proc_no: u32,
    ) -> Result<NfsResult, MsgError> {
        if proc_no == 0 {
            return Ok(NfsResult::Null);
        }
        match reader.u32()? {
            0 => Ok(done_part(alloc, reader, proc_no)?),
            status => Ok(NfsResult::Refused { status }),
        }
    }
}

/// The result of a procedure that the bytes, all of them, spell, or the first refusal in the order of the bytes. Any status that
/// isn't 0 is a refusal by the server. Procedures go up to 17; 3 and 7 are obsolete and unused (RFC 1094, sections 2.2.4 and 2.2.8).
pub fn read_result(alloc: Global, proc_no: u32, bytes: &[u8]) -> Result<NfsResult, MsgError>
    requires limit { proc_no ≤ 17 }
    requires not_root { proc_no ≢ 3 }
    requires not_writecache { proc_no ≢ 7 }
    ensures answers { Answers (result_kind proc_no) result_value bytes.now result }
    ensures of_proc { IfOk result (λ r. IsResultOf proc_no r) }
    // What was read can be written.
    ensures fits { IfOk result ResultFits }
{
    read_body(alloc, proc_no, bytes)
}
