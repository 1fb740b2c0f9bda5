//! Writing the messages.

ghost use Rattle.std.specs.Prelude.{◌≡◌, ◌≤◌, ◌++◌, length, OnOk, IfOk};
ghost use Rattle.sd_xdr.specs.Grammar.{writes, word_bytes};
ghost use Rattle.sd_nfs_msg.specs.Layout.{name_limit, diropargs, place_value, fhandle, fh_value, fattr, attr_value, args_bytes, ArgsFit, result_bytes, ResultFits};

use crate::message::{NfsArgs, NfsResult};
use crate::parts::Fattr;
use sd_outside::{ByteList, FHandle, NoMemory};
use sd_xdr::{Item, XdrWriter, write_list};
use std::alloc::Global;

/// A directory, and a name in it.
fn put_place(writer: &mut XdrWriter, dir: &FHandle, name: &ByteList) -> Result<(), NoMemory>
    requires { length name.now ≤ name_limit }
    ensures { OnOk result (writer.new ≡ writer.old ++ writes diropargs (place_value dir.now name.now)) }
{
    dir.write(writer)?;
    name.write(writer)
}

fn put_args(writer: &mut XdrWriter, args: &NfsArgs) -> Result<(), NoMemory>
    requires { ArgsFit args.now }
    ensures { OnOk result (writer.new ≡ writer.old ++ args_bytes args.now) }
{
    match args {
        NfsArgs::Null => Ok(()),
        NfsArgs::Getattr { file } | NfsArgs::Readlink { file } | NfsArgs::Statfs { file } =>
            file.write(writer),
        NfsArgs::Setattr { file, set } => {
            file.write(writer)?;
            set.write(writer)
        }
        NfsArgs::Lookup { dir, name } => put_place(writer, dir, name),
        NfsArgs::Read {
            file,
            offset,
            count,
            total,
        } => {
            file.write(writer)?;
            writer.words(&[*offset, *count, *total])
        }
        NfsArgs::Write {
            file,
            begin,
            offset,
            total,
            bytes,
        } => {
            file.write(writer)?;
            writer.words(&[*begin, *offset, *total])?;
            writer.opaque_var(bytes.as_slice())
        }
        NfsArgs::Readdir { dir, cookie, count } => {
            dir.write(writer)?;
            writer.opaque_fixed(cookie)?;
            writer.u32(*count)
        }
        NfsArgs::Create { dir, name, set } | NfsArgs::Mkdir { dir, name, set } => {
            put_place(writer, dir, name)?;
            set.write(writer)
        }
        NfsArgs::Remove { dir, name } | NfsArgs::Rmdir { dir, name } => put_place(
            writer, dir, name,
        ),
        NfsArgs::Rename {
            dir,
            name,
            to_dir,
            to_name,
        } => {
            put_place(writer, dir, name)?;
            put_place(writer, to_dir, to_name)
        }
        NfsArgs::Link {
            from,
            to_dir,
            to_name,
        } => {
            from.write(writer)?;
            put_place(writer, to_dir, to_name)
        }
        NfsArgs::Symlink {
            dir,
            name,
            path,
            set,
        } => {
            put_place(writer, dir, name)?;
            writer.opaque_var(path.as_slice())?;
            set.write(writer)
        }
    }
}

/// The bytes that spell the arguments.
pub fn write_args(alloc: Global, args: &NfsArgs) -> Result<ByteList, NoMemory>
    requires { ArgsFit args.now }
    ensures { IfOk result (λ bs. bs ≡ args_bytes args.now) }
{
    let mut writer = XdrWriter::new(alloc);
    put_args(&mut writer, args)?;
    Ok(writer.finish())
}

/// The status 0, and attributes.
fn put_attr(writer: &mut XdrWriter, attr: &Fattr) -> Result<(), NoMemory>
    ensures { OnOk result (writer.new ≡ writer.old ++ word_bytes 0 ++ writes fattr (attr_value attr.now)) }
{
    writer.u32(0)?;
    attr.write(writer)
}

/// The status 0, a handle, and attributes.
fn put_found(writer: &mut XdrWriter, file: &FHandle, attr: &Fattr) -> Result<(), NoMemory>
    ensures { OnOk result (writer.new ≡ writer.old ++ word_bytes 0 ++ writes fhandle (fh_value file.now) ++ writes fattr (attr_value attr.now)) }
{
    writer.u32(0)?;
    file.write(writer)?;
    attr.write(writer)
}

fn put_result(writer: &mut XdrWriter, outcome: &NfsResult) -> Result<(), NoMemory>
    requires { ResultFits outcome.now }
    ensures { OnOk result (writer.new ≡ writer.old ++ result_bytes outcome.now) }
{
    match outcome {
        NfsResult::Null => Ok(()),
        NfsResult::Refused { status } => writer.u32(*status),
        NfsResult::Getattr { attr } | NfsResult::Setattr { attr } | NfsResult::Write { attr } =>
            put_attr(writer, attr),
        NfsResult::Lookup { file, attr }
        | NfsResult::Create { file, attr }
        | NfsResult::Mkdir { file, attr } => put_found(writer, file, attr),
        NfsResult::Readlink { path } => {
            writer.u32(0)?;
            writer.opaque_var(path.as_slice())
        }
        NfsResult::Read { attr, bytes } => {
            put_attr(writer, attr)?;
            writer.opaque_var(bytes.as_slice())
        }
        NfsResult::Remove
        | NfsResult::Rename
        | NfsResult::Link
        | NfsResult::Symlink
        | NfsResult::Rmdir => writer.u32(0),
        NfsResult::Readdir { entries, eof } => {
            writer.u32(0)?;
            write_list(writer, entries.as_slice())?;
            writer.bool(*eof)
        }
        NfsResult::Statfs {
            tsize,
            bsize,
            blocks,
            bfree,
            bavail,
        } => writer.words(&[0, *tsize, *bsize, *blocks, *bfree, *bavail]),
    }
}

/// The bytes that spell the result.
pub fn write_result(alloc: Global, outcome: &NfsResult) -> Result<ByteList, NoMemory>
    requires { ResultFits outcome.now }
    ensures { IfOk result (λ bs. bs ≡ result_bytes outcome.now) }
{
    let mut writer = XdrWriter::new(alloc);
    put_result(&mut writer, outcome)?;
    Ok(writer.finish())
}
