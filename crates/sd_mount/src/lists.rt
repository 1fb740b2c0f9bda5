//! What the lists of the messages are made of.

ghost use Rattle.sd_mount.specs.Layout.{mount, mount_value, MountFits, export, export_value, ExportFits};

use sd_outside::{ByteList, ListOf, NoMemory};
use sd_xdr::{Item, MsgError, XdrReader, XdrWriter, read_list, write_list};
use std::alloc::Global;

/// A machine, and a directory that it has mounted (RFC 1094, appendix A.5.3).
#[derive(Debug, Drop)]
pub struct MountPair {
    /// A name, or an address as text, of at most 255 bytes.
    pub host: ByteList,
    /// At most 1,024 bytes.
    pub path: ByteList,
}

/// A directory, and the names of those who may mount it (RFC 1094, appendix A.5.6).
#[derive(Debug, Drop)]
pub struct ExportItem {
    /// At most 1,024 bytes.
    pub path: ByteList,
    /// Names of at most 255 bytes.
    pub groups: TextList,
}

/// Names, in order.
pub type TextList = ListOf<ByteList>;

/// Mounts, in order.
pub type PairList = ListOf<MountPair>;

/// Exports, in order.
pub type ExportList = ListOf<ExportItem>;

impl Item for MountPair {
    ghost kind = { mount };

    ghost value = { mount_value };

    ghost fits = { MountFits };

    #[tactic(auto, unfolding(sd_xdr::specs::Reading::reading))]
    fn read(alloc: Global, reader: &mut XdrReader) -> Result<MountPair, MsgError> {
        let host = ByteList::read(alloc, reader)?;
        let path = ByteList::from_slice(alloc, reader.opaque_var(1024)?)?;
        Ok(MountPair { host, path })
    }

    fn write(&self, writer: &mut XdrWriter) -> Result<(), NoMemory> {
        self.host.write(writer)?;
        writer.opaque_var(self.path.as_slice())
    }
}

impl Item for ExportItem {
    ghost kind = { export };

    ghost value = { export_value };

    ghost fits = { ExportFits };

    #[tactic(auto, unfolding(sd_xdr::specs::Reading::reading))]
    fn read(alloc: Global, reader: &mut XdrReader) -> Result<ExportItem, MsgError> {
        let path = ByteList::from_slice(alloc, reader.opaque_var(1024)?)?;
        let groups = read_list(alloc, reader)?;
        Ok(ExportItem { path, groups })
    }

    fn write(&self, writer: &mut XdrWriter) -> Result<(), NoMemory> {
        writer.opaque_var(self.path.as_slice())?;
        write_list(writer, self.groups.as_slice())
    }
}
