//! Reading the messages.

mod args;
mod results;

ghost use Rattle.std.specs.Prelude.{◌≤◌, length, IfOk};
ghost use Rattle.sd_xdr.specs.Kind.{bytes};
ghost use Rattle.sd_xdr.specs.Reading.{Takes};
ghost use Rattle.sd_nfs_msg.specs.Layout.{path_limit, data_limit, nfspath, nfsdata};

pub use args::read_args;
pub use results::read_result;
use sd_outside::ByteList;
use sd_xdr::{MsgError, XdrReader};
use std::alloc::Global;

fn path_of(alloc: Global, reader: &mut XdrReader) -> Result<ByteList, MsgError>
    ensures takes { Takes nfspath bytes reader.old reader.new result }
    ensures fits { IfOk result (λ path. length path ≤ path_limit) }
{
    Ok(ByteList::from_slice(alloc, reader.opaque_var(1024)?)?)
}

fn data_of(alloc: Global, reader: &mut XdrReader) -> Result<ByteList, MsgError>
    ensures takes { Takes nfsdata bytes reader.old reader.new result }
    ensures fits { IfOk result (λ bytes. length bytes ≤ data_limit) }
{
    Ok(ByteList::from_slice(alloc, reader.opaque_var(8192)?)?)
}
