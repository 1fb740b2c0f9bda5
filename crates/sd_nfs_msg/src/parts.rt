//! Parts of the messages (RFC 1094, section 2.3).

ghost use Rattle.sd_xdr.specs.Kind.{bytes};
ghost use Rattle.sd_xdr.specs.Reading.{Takes};
ghost use Rattle.sd_nfs_msg.specs.Layout.{nfscookie, fattr, attr_value, sattr, sattr_value, entry, entry_value, EntryFits};

use sd_outside::{ByteList, ListOf, NoMemory};
use sd_xdr::{Item, MsgError, XdrReader, XdrWriter};
use std::alloc::Global;

/// The attributes of a file (RFC 1094, section 2.3.5). A time is in seconds and microseconds.
#[derive(Clone, Copy, Debug, PartialEq, Eq)]
pub struct Fattr {
    /// 0 for none, 1 for a file, 2 for a directory, 3 and 4 for block and character devices, 5 for a symbolic link.
    pub kind: u32,
    pub mode: u32,
    pub nlink: u32,
    pub uid: u32,
    pub gid: u32,
    /// In bytes.
    pub size: u32,
    pub blocksize: u32,
    pub rdev: u32,
    pub blocks: u32,
    pub fsid: u32,
    pub fileid: u32,
    pub atime_s: u32,
    pub atime_u: u32,
    pub mtime_s: u32,
    pub mtime_u: u32,
    pub ctime_s: u32,
    pub ctime_u: u32,
}

/// Attributes that are to be set; one of all ones stays as it is (RFC 1094, section 2.3.6).
#[derive(Clone, Copy, Debug, PartialEq, Eq)]
pub struct Sattr {
    pub mode: u32,
    pub uid: u32,
    pub gid: u32,
    pub size: u32,
    pub atime_s: u32,
    pub atime_u: u32,
    pub mtime_s: u32,
    pub mtime_u: u32,
}

/// An entry of a directory (RFC 1094, section 2.2.17).
#[derive(Debug, Drop)]
pub struct DirEntry {
    pub fileid: u32,
    /// At most 255 bytes.
    pub name: ByteList,
    /// Names the place behind this entry to the server alone.
    pub cookie: [u8; 4],
}

/// Entries, in the directory's order.
pub type EntryList = ListOf<DirEntry>;

impl Item for Fattr {
    ghost kind = { fattr };

    ghost value = { attr_value };

    ghost fits = { λ _. Unit {0} };

    #[tactic(auto, unfolding(sd_xdr::specs::Reading::reading))]
    fn read(_alloc: Global, reader: &mut XdrReader) -> Result<Fattr, MsgError> {
        let kind = reader.u32()?;
        let mode = reader.u32()?;
        let nlink = reader.u32()?;
        let uid = reader.u32()?;
        let gid = reader.u32()?;
        let size = reader.u32()?;
        let blocksize = reader.u32()?;
        let rdev = reader.u32()?;
        let blocks = reader.u32()?;
        let fsid = reader.u32()?;
        let fileid = reader.u32()?;
        let atime_s = reader.u32()?;
        let atime_u = reader.u32()?;
        let mtime_s = reader.u32()?;
        let mtime_u = reader.u32()?;
        let ctime_s = reader.u32()?;
        let ctime_u = reader.u32()?;
        Ok(Fattr {
            kind,
            mode,
            nlink,
            uid,
            gid,
            size,
            blocksize,
            rdev,
            blocks,
            fsid,
            fileid,
            atime_s,
            atime_u,
            mtime_s,
            mtime_u,
            ctime_s,
            ctime_u,
        })
    }

    fn write(&self, writer: &mut XdrWriter) -> Result<(), NoMemory> {
        writer.words(&[
            self.kind,
            self.mode,
            self.nlink,
            self.uid,
            self.gid,
            self.size,
            self.blocksize,
            self.rdev,
            self.blocks,
            self.fsid,
            self.fileid,
            self.atime_s,
            self.atime_u,
            self.mtime_s,
            self.mtime_u,
            self.ctime_s,
            self.ctime_u,
        ])
    }
}

impl Item for Sattr {
    ghost kind = { sattr };

    ghost value = { sattr_value };

    ghost fits = { λ _. Unit {0} };

    #[tactic(auto, unfolding(sd_xdr::specs::Reading::reading))]
    fn read(_alloc: Global, reader: &mut XdrReader) -> Result<Sattr, MsgError> {
        let mode = reader.u32()?;
        let uid = reader.u32()?;
        let gid = reader.u32()?;
        let size = reader.u32()?;
        let atime_s = reader.u32()?;
        let atime_u = reader.u32()?;
        let mtime_s = reader.u32()?;
        let mtime_u = reader.u32()?;
        Ok(Sattr {
            mode,
            uid,
            gid,
            size,
            atime_s,
            atime_u,
            mtime_s,
            mtime_u,
        })
    }

    fn write(&self, writer: &mut XdrWriter) -> Result<(), NoMemory> {
        writer.words(&[
            self.mode,
            self.uid,
            self.gid,
            self.size,
            self.atime_s,
            self.atime_u,
            self.mtime_s,
            self.mtime_u,
        ])
    }
}

/// The place in a directory that a server names by four bytes.
#[tactic(auto, unfolding(sd_xdr::specs::Reading::reading))]
pub(crate) fn read_cookie(reader: &mut XdrReader) -> Result<[u8; 4], MsgError>
    ensures { Takes nfscookie bytes reader.old reader.new result }
{
    let body = reader.opaque_fixed(4)?;
    let mut cookie = [0u8; 4];
    cookie.copy_from_slice(body);
    Ok(cookie)
}

impl Item for DirEntry {
    ghost kind = { entry };

    ghost value = { entry_value };

    ghost fits = { EntryFits };

    #[tactic(auto, unfolding(sd_xdr::specs::Reading::reading))]
    fn read(alloc: Global, reader: &mut XdrReader) -> Result<DirEntry, MsgError> {
        let fileid = reader.u32()?;
        let name = ByteList::read(alloc, reader)?;
        let cookie = read_cookie(reader)?;
        Ok(DirEntry {
            fileid,
            name,
            cookie,
        })
    }

    fn write(&self, writer: &mut XdrWriter) -> Result<(), NoMemory> {
        writer.u32(self.fileid)?;
        self.name.write(writer)?;
        writer.opaque_fixed(&self.cookie)
    }
}
