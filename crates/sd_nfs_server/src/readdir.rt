//! The entries of a directory (RFC 1094, 2.2.17).

ghost use Rattle.std.specs.Prelude.{◌≡◌, ◌≤◌, ◌<◌, ◌+◌, ◌*◌, ◌/◌, IfOk, OnOk, length};
ghost use Rattle.sd_services.specs.Decisions.{readdir};
ghost use Rattle.sd_services.specs.Names.{child_name, listed, entries};
ghost use Rattle.sd_nfs_server.specs.Fits.{NodesFit};
ghost use Rattle.sd_nfs_server.specs.Steps.{Offered, OfferedNode, IsListing};

use crate::names::{child_name, parent};
use crate::status::NOTDIR;
use sd_nfs_msg::{DirEntry, EntryList, NfsResult};
use sd_outside::{ByteList, NoMemory};
use sd_services::{Node, Standing};
use std::alloc::Global;

/// The entries that a reply takes: those after a cookie, until the first for which there is no room.
#[derive(Drop)]
struct Window {
    after: u32,
    /// So many bytes are left.
    room: usize,
    /// The next entry's cookie.
    next: u32,
    /// An entry had no room.
    is_shut: bool,
    entries: EntryList,
}

/// The bytes of an entry of that name.
fn entry_size(name: &[u8]) -> usize
    ensures { result ≡ 16 + (length name.now + 3) / 4 * 4 }
{
    16 + (name.len() + 3) / 4 * 4
}

impl Window {
    /// Takes the next entry, where it stands after the cookie and has room.
    fn offer(&mut self, alloc: Global, fileid: u32, name: &[u8]) -> Result<(), NoMemory>
        requires { self.old.next < 300000 }
        ensures { OnOk result (Offered self.old self.new fileid name.now) }
    {
        let cookie = self.next;
        self.next += 1;
        if cookie <= self.after {
            return Ok(());
        }
        if self.is_shut {
            return Ok(());
        }
        let size = entry_size(name);
        if self.room < size {
            self.is_shut = true;
            return Ok(());
        }
        let name = ByteList::from_slice(alloc, name)?;
        let cookie = cookie.to_be_bytes();
        self.entries.push(DirEntry {
            fileid,
            name,
            cookie,
        })?;
        self.room -= size;
        Ok(())
    }

    /// Takes the next node, where it is in the directory.
    fn offer_node(
        &mut self,
        alloc: Global,
        dir: &[u8],
        number: u32,
        node: &Node,
    ) -> Result<(), NoMemory>
        requires { self.old.next < 300000 }
        ensures { OnOk result (OfferedNode self.old self.new number (child_name dir.now node.now.path)) }
    {
        match child_name(dir, node.path.as_slice()) {
            Some(name) => Ok(self.offer(alloc, number, name)?),
            None => Ok(()),
        }
    }
}

/// What a window takes of a directory's entries.
fn taken(
    alloc: Global,
    nodes: &[Node],
    number: u32,
    dir: &[u8],
    after: u32,
    room: usize,
) -> Result<Window, NoMemory>
    requires some { 1 ≤ length nodes.now }
    requires fit { NodesFit nodes.now }
    ensures { IfOk result (λ w. IsListing room after (entries 1 (listed nodes.now number dir.now)) w) }
{
    let mut window = Window {
        after,
        room,
        next: 1,
        is_shut: false,
        entries: EntryList::empty(alloc),
    };
    window.offer(alloc, number, b".")?;
    window.offer(alloc, parent(dir, nodes), b"..")?;
    let mut child = 1;
    for node in nodes {
        window.offer_node(alloc, dir, child, node)?;
        child += 1;
    }
    Ok(window)
}

/// The entries after the cookie, while their bytes and the closing 8 bytes fit the count and 8,192.
pub fn readdir(
    alloc: Global,
    nodes: &[Node],
    number: u32,
    node: &Node,
    cookie: &[u8; 4],
    count: u32,
) -> Result<NfsResult, NoMemory>
    requires some { 1 ≤ length nodes.now }
    requires fit { NodesFit nodes.now }
    ensures { IfOk result (λ x. x ≡ readdir nodes.now number node.now.path node.now.what cookie.now count) }
{
    match &node.what {
        Standing::Directory => {
            let room = count.min(8192).saturating_sub(8) as usize;
            let window = taken(
                alloc,
                nodes,
                number,
                node.path.as_slice(),
                u32::from_be_bytes(*cookie),
                room,
            )?;
            Ok(NfsResult::Readdir {
                eof: !window.is_shut,
                entries: window.entries,
            })
        }
        _ => Ok(NfsResult::Refused { status: NOTDIR }),
    }
}
