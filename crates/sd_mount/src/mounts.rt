//! Who has mounted what.

ghost use Rattle.std.specs.Prelude.{◌≡◌, ◌≤◌, [], ◌∷◌, ◌++◌, length, vec_capacity, IfOk};
ghost use Rattle.sd_mount.specs.Tables.{is_mount, has, latest, with_mount, without, without_host, Differ};

use crate::exports::same;
use sd_outside::{ByteList, NoMemory};
use std::alloc::Global;
use std::marker::Model;

/// How many mounts are kept.
const ROOM: usize = 64;

/// The mounts of all machines, each the machine's address and a path, from the oldest. None stands there twice, and there are at
/// most 64. The room for them is taken at the start.
#[derive(Debug, Drop)]
pub struct MountList {
    mounts: Vec<(u32, ByteList)>,
}

impl Model for MountList {
    ghost use Rattle.std.specs.Prelude.{◌≤◌, List, length, vec_capacity};
    ghost use Rattle.sd_mount.specs.Tables.{Mount, Differ};

    ghost Value = { List Mount };

    ghost view = { λ list. list.mounts.items };

    ghost invariant = { λ list. (64 ≤ vec_capacity list.mounts) × (length list.mounts.items ≤ 64) × Differ list.mounts.items };
}

fn is_mount(mount: &(u32, ByteList), host: u32, path: &[u8]) -> bool
    ensures { result ≡ is_mount host path.now mount.now }
{
    mount.0 == host && same(mount.1.as_slice(), path)
}

/// One more, in the place of the first where there is no room for it.
fn push_latest(mounts: &mut Vec<(u32, ByteList)>, mount: (u32, ByteList))
    requires room { 64 ≤ vec_capacity mounts.old }
    requires few { length mounts.old.items ≤ 64 }
    ensures latest { mounts.new.items ≡ latest 63 mounts.old.items ++ (mount ∷ []) }
    ensures room { vec_capacity mounts.old ≤ vec_capacity mounts.new }
{
    if mounts.len() == ROOM {
        mounts.remove(0);
    }
    // There is room for 64.
    let _ = mounts.push(mount);
}

impl MountList {
    /// No mounts, and room for 64.
    pub fn new(alloc: Global) -> Result<MountList, NoMemory>
        ensures { IfOk result (λ list. list ≡ []) }
    {
        Ok(MountList {
            mounts: Vec::with_capacity(alloc, ROOM)?,
        })
    }

    fn has(&self, host: u32, path: &[u8]) -> bool
        ensures { result ≡ has self.now host path.now }
    {
        self.mounts.iter().any(|mount| is_mount(mount, host, path))
    }

    /// Adds a mount as the latest where it isn't there yet. Where there are 64, the oldest goes. It takes no memory.
    pub fn add(&mut self, host: u32, path: ByteList)
        ensures { self.new ≡ with_mount host path self.old }
    {
        if self.has(host, path.as_slice()) {
            return;
        }
        push_latest(&mut self.mounts, (host, path));
    }

    /// Removes a machine's mount of a path, where it is there.
    pub fn remove(&mut self, host: u32, path: &[u8])
        ensures { self.new ≡ without host path.now self.old }
    {
        self.mounts.retain(|mount| !is_mount(mount, host, path));
    }

    /// Removes all mounts of a machine.
    pub fn remove_all(&mut self, host: u32)
        ensures { self.new ≡ without_host host self.old }
    {
        self.mounts.retain(|mount| mount.0 != host);
    }

    /// All mounts, from the oldest.
    pub fn list(&self) -> &[(u32, ByteList)]
        ensures all { result.now ≡ self.now }
        ensures few { length self.now ≤ 64 }
        ensures differ { Differ self.now }
    {
        self.mounts.as_slice()
    }
}
