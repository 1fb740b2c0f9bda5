//! A disk in memory that never fails.
ghost use Rattle.std.specs.Prelude.{◌≡◌, length, Some, IfOk};

use crate::range::{copy_out, overwrite};
use crate::{Disk, Failed, NoMemory, StopDisk};
use std::alloc::Global;

/// A disk in memory. It never fails, tells no crash and takes no stop.
#[derive(Drop)]
pub struct CalmDisk {
    bytes: Vec<u8>,
}

impl CalmDisk {
    /// A disk of these bytes.
    pub fn new(alloc: Global, image: &[u8]) -> Result<CalmDisk, NoMemory>
        ensures size { IfOk result (λ disk. ⟦<CalmDisk as Disk>⟧.size disk ≡ length image.now) }
        ensures seen { IfOk result (λ disk. ⟦<CalmDisk as Disk>⟧.seen disk ≡ Some image.now) }
    {
        Ok(CalmDisk {
            bytes: Vec::from_slice(alloc, image)?,
        })
    }
}

impl Disk for CalmDisk {
    ghost use Rattle.std.specs.Prelude.{length, Some, None, false, refl};
    ghost use Rattle.sd_outside.specs.CalmDisk.{calm_plan, same_length, never};

    ghost size = { λ disk. length disk.bytes.items };

    ghost seen = { λ disk. Some disk.bytes.items };

    ghost tells_crash = { λ _. false };

    ghost unsynced = { λ _. None };

    ghost may_leave = { λ _ _. ⊥ };

    ghost moment = { λ _. 0 };

    ghost left_since = { λ _ _ _. ⊥ };

    ghost plan = { λ _. Some calm_plan };

    ghost faults = { λ _. 0 };

    ghost is_whole = { λ disk bytes told. same_length disk.bytes.items bytes told };

    ghost tells_seen = { λ disk told. refl };

    ghost tells_unsynced = { λ disk tells. never tells };

    ghost leaves_unsynced = { λ disk. tt };

    ghost seen_may_stay = { λ disk bytes tells told. never tells };

    ghost counts_now = { λ disk since image ends left. left };

    ghost only_now = { λ disk image left. left };

    fn len(&mut self) -> Result<u64, Failed> {
        Ok(self.bytes.len() as u64)
    }

    fn read(&mut self, at: u64, into: &mut [u8]) -> Result<(), Failed> {
        copy_out(&self.bytes, at as usize, into);
        Ok(())
    }

    fn write(&mut self, at: u64, bytes: &[u8]) -> Result<(), Failed> {
        overwrite(&mut self.bytes, at as usize, bytes);
        Ok(())
    }

    fn sync(&mut self) -> Result<(), Failed> {
        Ok(())
    }
}

impl StopDisk for CalmDisk {
    ghost use Rattle.std.specs.Prelude.{refl};
    ghost use Rattle.sd_outside.specs.CalmDisk.{never};

    ghost may_happen = { λ disk outcome few tells. never tells };

    ghost tells_plan = { λ _. refl };

    fn begin(&mut self) {}

    fn stop_after(&mut self, _changes: u32) {}

    fn crash(&mut self, _outcome: u8) {}
}
