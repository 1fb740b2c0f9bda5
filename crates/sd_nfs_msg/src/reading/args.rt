//! Reading arguments.

ghost use Rattle.std.specs.Prelude.{◌≡◌, ◌≢◌, ◌≤◌, length, IfOk};
ghost use Rattle.sd_xdr.specs.Kind.{given, bytes};
ghost use Rattle.sd_xdr.specs.Grammar.{Answers};
ghost use Rattle.sd_xdr.specs.Reading.{Takes};
ghost use Rattle.sd_nfs_msg.specs.Layout.{name_limit, filename, diropargs, place_value, args_layout, args_kind, args_value, proc_of, ArgsFit};

use super::{data_of, path_of};
use crate::message::NfsArgs;
use crate::parts::{Sattr, read_cookie};
use sd_outside::{ByteList, FHandle};
use sd_xdr::{Body, Item, MsgError, XdrReader, read_body};
use std::alloc::Global;

#[tactic(auto, unfolding(sd_xdr::specs::Reading::reading))]
fn name_of(alloc: Global, reader: &mut XdrReader) -> Result<ByteList, MsgError>
    ensures takes { Takes filename bytes reader.old reader.new result }
    ensures fits { IfOk result (λ name. length name ≤ name_limit) }
{
    Ok(ByteList::from_slice(alloc, reader.opaque_var(255)?)?)
}

/// A directory, and a name in it.
#[tactic(auto, unfolding(sd_xdr::specs::Reading::reading))]
fn place_of(alloc: Global, reader: &mut XdrReader) -> Result<(FHandle, ByteList), MsgError>
    ensures takes { Takes diropargs (λ x. place_value x.0 x.1) reader.old reader.new result }
    ensures fits { IfOk result (λ x. length x.1 ≤ name_limit) }
{
    let dir = FHandle::read(alloc, reader)?;
    let name = name_of(alloc, reader)?;
    Ok((dir, name))
}

#[tactic(auto, unfolding(sd_xdr::specs::Reading::reading))]
fn read_part(alloc: Global, reader: &mut XdrReader) -> Result<NfsArgs, MsgError>
    ensures takes { Takes (given 6 (args_layout 6)) args_value reader.old reader.new result }
    ensures of_proc { IfOk result (λ a. proc_of a ≡ 6) }
    ensures fits { IfOk result ArgsFit }
{
    let file = FHandle::read(alloc, reader)?;
    let offset = reader.u32()?;
    let count = reader.u32()?;
    let total = reader.u32()?;
    Ok(NfsArgs::Read {
        file,
        offset,
        count,
        total,
    })
}

#[tactic(auto, unfolding(sd_xdr::specs::Reading::reading))]
fn write_part(alloc: Global, reader: &mut XdrReader) -> Result<NfsArgs, MsgError>
    ensures takes { Takes (given 8 (args_layout 8)) args_value reader.old reader.new result }
    ensures of_proc { IfOk result (λ a. proc_of a ≡ 8) }
    ensures fits { IfOk result ArgsFit }
{
    let file = FHandle::read(alloc, reader)?;
    let begin = reader.u32()?;
    let offset = reader.u32()?;
    let total = reader.u32()?;
    let bytes = data_of(alloc, reader)?;
    Ok(NfsArgs::Write {
        file,
        begin,
        offset,
        total,
        bytes,
    })
}

#[tactic(auto, unfolding(sd_xdr::specs::Reading::reading))]
fn rename_part(alloc: Global, reader: &mut XdrReader) -> Result<NfsArgs, MsgError>
    ensures takes { Takes (given 11 (args_layout 11)) args_value reader.old reader.new result }
    ensures of_proc { IfOk result (λ a. proc_of a ≡ 11) }
    ensures fits { IfOk result ArgsFit }
{
    let (dir, name) = place_of(alloc, reader)?;
    let (to_dir, to_name) = place_of(alloc, reader)?;
    Ok(NfsArgs::Rename {
        dir,
        name,
        to_dir,
        to_name,
    })
}

#[tactic(auto, unfolding(sd_xdr::specs::Reading::reading))]
fn link_part(alloc: Global, reader: &mut XdrReader) -> Result<NfsArgs, MsgError>
    ensures takes { Takes (given 12 (args_layout 12)) args_value reader.old reader.new result }
    ensures of_proc { IfOk result (λ a. proc_of a ≡ 12) }
    ensures fits { IfOk result ArgsFit }
{
    let from = FHandle::read(alloc, reader)?;
    let (to_dir, to_name) = place_of(alloc, reader)?;
    Ok(NfsArgs::Link {
        from,
        to_dir,
        to_name,
    })
}

#[tactic(auto, unfolding(sd_xdr::specs::Reading::reading))]
fn symlink_part(alloc: Global, reader: &mut XdrReader) -> Result<NfsArgs, MsgError>
    ensures takes { Takes (given 13 (args_layout 13)) args_value reader.old reader.new result }
    ensures of_proc { IfOk result (λ a. proc_of a ≡ 13) }
    ensures fits { IfOk result ArgsFit }
{
    let (dir, name) = place_of(alloc, reader)?;
    let path = path_of(alloc, reader)?;
    let set = Sattr::read(alloc, reader)?;
    Ok(NfsArgs::Symlink {
        dir,
        name,
        path,
        set,
    })
}

#[tactic(auto, unfolding(sd_xdr::specs::Reading::reading))]
fn readdir_part(alloc: Global, reader: &mut XdrReader) -> Result<NfsArgs, MsgError>
    ensures takes { Takes (given 16 (args_layout 16)) args_value reader.old reader.new result }
    ensures of_proc { IfOk result (λ a. proc_of a ≡ 16) }
    ensures fits { IfOk result ArgsFit }
{
    let dir = FHandle::read(alloc, reader)?;
    let cookie = read_cookie(reader)?;
    let count = reader.u32()?;
    Ok(NfsArgs::Readdir { dir, cookie, count })
}

/// The arguments of a procedure that has a file, or nothing.
#[tactic(auto, unfolding(sd_xdr::specs::Reading::reading))]
fn file_part(alloc: Global, reader: &mut XdrReader, proc_no: u32) -> Result<NfsArgs, MsgError>
    requires low { proc_no ≤ 8 }
    requires not_root { proc_no ≢ 3 }
    requires not_writecache { proc_no ≢ 7 }
    ensures takes { Takes (given proc_no (args_layout proc_no)) args_value reader.old reader.new result }
    ensures of_proc { IfOk result (λ a. proc_of a ≡ proc_no) }
    ensures fits { IfOk result ArgsFit }
{
    match proc_no {
        0 => Ok(NfsArgs::Null),
        1 => {
            let file = FHandle::read(alloc, reader)?;
            Ok(NfsArgs::Getattr { file })
        }
        2 => {
            let file = FHandle::read(alloc, reader)?;
            let set = Sattr::read(alloc, reader)?;
            Ok(NfsArgs::Setattr { file, set })
        }
        4 => {
            let (dir, name) = place_of(alloc, reader)?;
            Ok(NfsArgs::Lookup { dir, name })
        }
        5 => {
            let file = FHandle::read(alloc, reader)?;
            Ok(NfsArgs::Readlink { file })
        }
        6 => Ok(read_part(alloc, reader)?),
        _ => Ok(write_part(alloc, reader)?),
    }
}

/// The arguments of a procedure that makes, takes or shows names in a directory, or tells of its file system.
#[tactic(auto, unfolding(sd_xdr::specs::Reading::reading))]
fn names_part(alloc: Global, reader: &mut XdrReader, proc_no: u32) -> Result<NfsArgs, MsgError>
    requires from { 9 ≤ proc_no }
    requires limit { proc_no ≤ 17 }
    ensures takes { Takes (given proc_no (args_layout proc_no)) args_value reader.old reader.new result }
    ensures of_proc { IfOk result (λ a. proc_of a ≡ proc_no) }
    ensures fits { IfOk result ArgsFit }
{
    match proc_no {
        9 => {
            let (dir, name) = place_of(alloc, reader)?;
            let set = Sattr::read(alloc, reader)?;
            Ok(NfsArgs::Create { dir, name, set })
        }
        10 => {
            let (dir, name) = place_of(alloc, reader)?;
            Ok(NfsArgs::Remove { dir, name })
        }
        11 => Ok(rename_part(alloc, reader)?),
        12 => Ok(link_part(alloc, reader)?),
        13 => Ok(symlink_part(alloc, reader)?),
        14 => {
            let (dir, name) = place_of(alloc, reader)?;
            let set = Sattr::read(alloc, reader)?;
            Ok(NfsArgs::Mkdir { dir, name, set })
        }
        15 => {
            let (dir, name) = place_of(alloc, reader)?;
            Ok(NfsArgs::Rmdir { dir, name })
        }
        16 => Ok(readdir_part(alloc, reader)?),
        _ => {
            let file = FHandle::read(alloc, reader)?;
            Ok(NfsArgs::Statfs { file })
        }
    }
}

/// The arguments of procedures 0 to 17 without 3 and 7.
impl Body for NfsArgs {
    ghost has = { λ n. (n ≤ 17) × (n ≢ 3) × (n ≢ 7) };

    ghost kind = { λ n. given n (args_layout n) };

    ghost value = { args_value };

    ghost is_of = { λ n a. proc_of a ≡ n };

    ghost fits = { ArgsFit };

    fn read_part(alloc: Global, reader: &mut XdrReader, proc_no: u32) -> Result<NfsArgs, MsgError> {
        if proc_no < 9 {
            file_part(alloc, reader, proc_no)
        } else {
            names_part(alloc, reader, proc_no)
        }
    }
}

/// The arguments of a procedure that the bytes, all of them, spell, or the first refusal in the order of the bytes. Procedures go
/// up to 17; 3 and 7 are obsolete and unused (RFC 1094, sections 2.2.4 and 2.2.8).
pub fn read_args(alloc: Global, proc_no: u32, bytes: &[u8]) -> Result<NfsArgs, MsgError>
    requires limit { proc_no ≤ 17 }
    requires not_root { proc_no ≢ 3 }
    requires not_writecache { proc_no ≢ 7 }
    ensures answers { Answers (args_kind proc_no) args_value bytes.now result }
    ensures of_proc { IfOk result (λ a. proc_of a ≡ proc_no) }
    // What was read can be written.
    ensures fits { IfOk result ArgsFit }
{
    read_body(alloc, proc_no, bytes)
}
