//! Writing the portmapper's messages.

ghost use Rattle.std.specs.Prelude.{◌≡◌, ◌++◌, OnOk, IfOk};
ghost use Rattle.sd_portmap.specs.Layout.{args_bytes, ArgsFit, result_bytes, ResultFits};

use crate::message::{PmapArgs, PmapResult};
use sd_outside::{ByteList, NoMemory};
use sd_xdr::{Item, XdrWriter, write_list};
use std::alloc::Global;

fn put_args(writer: &mut XdrWriter, args: &PmapArgs) -> Result<(), NoMemory>
    requires { ArgsFit args.now }
    ensures { OnOk result (writer.new ≡ writer.old ++ args_bytes args.now) }
{
    match args {
        PmapArgs::Null | PmapArgs::Dump => Ok(()),
        PmapArgs::Set(mapping) | PmapArgs::Unset(mapping) | PmapArgs::Getport(mapping) =>
            mapping.write(writer),
        PmapArgs::Callit {
            prog,
            vers,
            proc_no,
            args,
        } => {
            writer.u32(*prog)?;
            writer.u32(*vers)?;
            writer.u32(*proc_no)?;
            writer.opaque_var(args.as_slice())
        }
    }
}

/// The bytes that spell the arguments.
pub fn write_pmap_args(alloc: Global, args: &PmapArgs) -> Result<ByteList, NoMemory>
    requires { ArgsFit args.now }
    ensures { IfOk result (λ bs. bs ≡ args_bytes args.now) }
{
    let mut writer = XdrWriter::new(alloc);
    put_args(&mut writer, args)?;
    Ok(writer.finish())
}

fn put_result(writer: &mut XdrWriter, outcome: &PmapResult) -> Result<(), NoMemory>
    requires { ResultFits outcome.now }
    ensures { OnOk result (writer.new ≡ writer.old ++ result_bytes outcome.now) }
{
    match outcome {
        PmapResult::Void => Ok(()),
        PmapResult::Flag(flag) => writer.bool(*flag),
        PmapResult::Port(port) => writer.u32(*port),
        PmapResult::Mappings(mappings) => write_list(writer, mappings.as_slice()),
        PmapResult::Callit { port, results } => {
            writer.u32(*port)?;
            writer.opaque_var(results.as_slice())
        }
    }
}

/// The bytes that spell the result.
pub fn write_pmap_result(alloc: Global, outcome: &PmapResult) -> Result<ByteList, NoMemory>
    requires { ResultFits outcome.now }
    ensures { IfOk result (λ bs. bs ≡ result_bytes outcome.now) }
{
    let mut writer = XdrWriter::new(alloc);
    put_result(&mut writer, outcome)?;
    Ok(writer.finish())
}
