//! Writing the messages.

ghost use Rattle.std.specs.Prelude.{◌≡◌, ◌++◌, OnOk, IfOk};
ghost use Rattle.sd_xdr.specs.Grammar.{writes};
ghost use Rattle.sd_bootparams.specs.Layout.{ip, ip_value, args_bytes, ArgsFit, result_bytes, ResultFits};

use crate::message::{BpArgs, BpResult};
use sd_outside::{ByteList, NoMemory};
use sd_xdr::XdrWriter;
use std::alloc::Global;

fn put_ip(writer: &mut XdrWriter, address: u32) -> Result<(), NoMemory>
    ensures { OnOk result (writer.new ≡ writer.old ++ writes ip (ip_value address)) }
{
    let [a, b, c, d] = address.to_be_bytes();
    writer.u32(1)?;
    writer.char(a)?;
    writer.char(b)?;
    writer.char(c)?;
    writer.char(d)
}

fn put_args(writer: &mut XdrWriter, args: &BpArgs) -> Result<(), NoMemory>
    requires { ArgsFit args.now }
    ensures { OnOk result (writer.new ≡ writer.old ++ args_bytes args.now) }
{
    match args {
        BpArgs::Null => Ok(()),
        BpArgs::Whoami { ip } => put_ip(writer, *ip),
        BpArgs::Getfile { client, key } => {
            writer.opaque_var(client.as_slice())?;
            writer.opaque_var(key.as_slice())
        }
    }
}

/// The bytes that spell the arguments, with signed chars.
pub fn write_bp_args(alloc: Global, args: &BpArgs) -> Result<ByteList, NoMemory>
    requires { ArgsFit args.now }
    ensures { IfOk result (λ bs. bs ≡ args_bytes args.now) }
{
    let mut writer = XdrWriter::new(alloc);
    put_args(&mut writer, args)?;
    Ok(writer.finish())
}

fn put_result(writer: &mut XdrWriter, outcome: &BpResult) -> Result<(), NoMemory>
    requires { ResultFits outcome.now }
    ensures { OnOk result (writer.new ≡ writer.old ++ result_bytes outcome.now) }
{
    match outcome {
        BpResult::Void => Ok(()),
        BpResult::Whoami {
            client,
            domain,
            router,
        } => {
            writer.opaque_var(client.as_slice())?;
            writer.opaque_var(domain.as_slice())?;
            put_ip(writer, *router)
        }
        BpResult::Getfile { server, ip, path } => {
            writer.opaque_var(server.as_slice())?;
            put_ip(writer, *ip)?;
            writer.opaque_var(path.as_slice())
        }
    }
}

/// The bytes that spell the result, with signed chars.
pub fn write_bp_result(alloc: Global, outcome: &BpResult) -> Result<ByteList, NoMemory>
    requires { ResultFits outcome.now }
    ensures { IfOk result (λ bs. bs ≡ result_bytes outcome.now) }
{
    let mut writer = XdrWriter::new(alloc);
    put_result(&mut writer, outcome)?;
    Ok(writer.finish())
}
