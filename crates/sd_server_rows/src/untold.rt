//! A disk that tells nothing, and whose image is another after a write failed.

use crate::disks::one_file;
use crate::stores::FAILED;
use sd_nfs_server::{Acted, act_read, act_write, bring_up};
use sd_outside::{Disk, Failed};
use sd_stable_disk::Store;
use std::mem::swap;
use std::test::Fail;

/// A disk of 32,768 bytes, each of whose writes fails. From then on it has the second image.
#[derive(Drop)]
struct Changing {
    now: Vec<u8>,
    later: Vec<u8>,
    faults: u64,
}

impl Disk for Changing {
    ghost use Rattle.std.specs.Prelude.{None, false};
    ghost use Rattle.sd_outside.specs.CalmDisk.{never};
    ghost use Rattle.sd_server_rows.specs.Untold.{nothing};

    ghost size = { λ _. 32768 };

    ghost seen = { λ _. None };

    ghost tells_crash = { λ _. false };

    ghost unsynced = { λ _. None };

    ghost may_leave = { λ _ _. ⊥ };

    ghost moment = { λ _. 0 };

    ghost left_since = { λ _ _ _. ⊥ };

    ghost plan = { λ _. None };

    ghost faults = { λ disk. disk.faults };

    ghost is_whole = { λ disk bytes told. nothing told };

    ghost tells_seen = { λ disk tells. never tells };

    ghost tells_unsynced = { λ disk tells. never tells };

    ghost leaves_unsynced = { λ disk. tt };

    ghost seen_may_stay = { λ disk bytes tells told. never tells };

    ghost counts_now = { λ disk since image ends left. left };

    ghost only_now = { λ disk image left. left };

    fn len(&mut self) -> Result<u64, Failed> {
        Ok(32768)
    }

    fn read(&mut self, at: u64, into: &mut [u8]) -> Result<(), Failed> {
        let at = at as usize;
        match self.now.get(at..at + into.len()) {
            Some(bytes) => {
                into.copy_from_slice(bytes);
                Ok(())
            }
            None => {
                self.faults = self.faults.saturating_add(1);
                Err(Failed)
            }
        }
    }

    fn write(&mut self, _at: u64, _bytes: &[u8]) -> Result<(), Failed> {
        swap(&mut self.now, &mut self.later);
        self.faults = self.faults.saturating_add(1);
        Err(Failed)
    }

    fn sync(&mut self) -> Result<(), Failed> {
        Ok(())
    }
}

/// The gate of the second image is open, and its journal has no bytes.
#[test]
fn damage_is_told_with_its_place(rt: HostRuntime) -> Result<(), Fail> {
    let alloc = rt.alloc();
    let image = one_file(alloc)?;
    let mut open = image.copy()?;
    assert_eq!(rt; open.as_slice().len(), 32768);
    open.put(512, &[1]);
    let disk = Changing {
        now: image.into_vec(),
        later: open.into_vec(),
        faults: 0,
    };
    let Ok(mut store) = Store::open(alloc, disk) else {
        return Err("refused")?;
    };
    let damaged = Acted {
        status: 5,
        damaged: Some(1028),
    };
    assert_eq!(rt; store.sizes(), [16384].as_slice());
    assert_eq!(rt; act_write(&mut store, 0, b"A"), FAILED);
    assert!(rt; !store.is_up());
    assert_eq!(rt; bring_up(&mut store), damaged);
    assert_eq!(rt; store.sizes(), [16384].as_slice());
    assert_eq!(rt; act_read(&mut store, 0, &mut [0; 1]), damaged);
    assert_eq!(rt; store.sizes(), [16384].as_slice());
    assert_eq!(rt; act_write(&mut store, 0, b"A"), damaged);
    Ok(())
}
