//! Writing the messages.

ghost use Rattle.std.specs.Prelude.{◌≡◌, ◌++◌, OnOk, IfOk};
ghost use Rattle.sd_mount.specs.Layout.{args_bytes, ArgsFit, result_bytes, ResultFits};

use crate::message::{MountArgs, MountResult};
use sd_outside::{ByteList, NoMemory};
use sd_xdr::{Item, XdrWriter, write_list};
use std::alloc::Global;

fn put_args(writer: &mut XdrWriter, args: &MountArgs) -> Result<(), NoMemory>
    requires { ArgsFit args.now }
    ensures { OnOk result (writer.new ≡ writer.old ++ args_bytes args.now) }
{
    match args {
        MountArgs::Mnt { path } | MountArgs::Umnt { path } => writer.opaque_var(path.as_slice()),
        MountArgs::Null | MountArgs::Dump | MountArgs::UmntAll | MountArgs::Export => Ok(()),
    }
}

/// The bytes that spell the arguments.
pub fn write_mount_args(alloc: Global, args: &MountArgs) -> Result<ByteList, NoMemory>
    requires { ArgsFit args.now }
    ensures { IfOk result (λ bs. bs ≡ args_bytes args.now) }
{
    let mut writer = XdrWriter::new(alloc);
    put_args(&mut writer, args)?;
    Ok(writer.finish())
}

fn put_result(writer: &mut XdrWriter, outcome: &MountResult) -> Result<(), NoMemory>
    requires { ResultFits outcome.now }
    ensures { OnOk result (writer.new ≡ writer.old ++ result_bytes outcome.now) }
{
    match outcome {
        MountResult::Void => Ok(()),
        MountResult::Given(file) => {
            writer.u32(0)?;
            file.write(writer)
        }
        MountResult::Refused { status } => writer.u32(*status),
        MountResult::Mounts(mounts) => write_list(writer, mounts.as_slice()),
        MountResult::Exports(exports) => write_list(writer, exports.as_slice()),
    }
}

/// The bytes that spell the result.
pub fn write_mount_result(alloc: Global, outcome: &MountResult) -> Result<ByteList, NoMemory>
    requires { ResultFits outcome.now }
    ensures { IfOk result (λ bs. bs ≡ result_bytes outcome.now) }
{
    let mut writer = XdrWriter::new(alloc);
    put_result(&mut writer, outcome)?;
    Ok(writer.finish())
}
