//! Packets that wait for their turn.
ghost use Rattle.std.specs.Prelude.{◌≡◌, ◌++◌, [], ◌∷◌, drop, slice_get, OnOk, OnErr};

use sd_outside::NoMemory;
use std::alloc::Global;
use std::collections::VecDeque;
use std::marker::Model;

/// The ids of packets, seen as a list. The first is the next.
#[derive(Drop)]
pub struct Queue {
    ids: VecDeque<usize>,
}

impl Model for Queue {
    ghost use Rattle.std.specs.Prelude.{List, ℕ};

    ghost Value = { List ℕ };

    ghost view = { λ queue. queue.ids.items };
}

impl Queue {
    pub fn empty(alloc: Global) -> Queue
        ensures { result ≡ [] }
    {
        Queue {
            ids: VecDeque::new(alloc),
        }
    }

    pub fn push(&mut self, id: usize) -> Result<(), NoMemory>
        ensures ok { OnOk result (self.new ≡ self.old ++ id ∷ []) }
        ensures err { OnErr result (self.new ≡ self.old) }
    {
        self.ids.push_back(id)?;
        Ok(())
    }

    pub fn next(&self) -> Option<usize>
        ensures { result ≡ slice_get self.now 0 }
    {
        self.ids.front().copied()
    }

    pub fn take_next(&mut self)
        ensures { self.new ≡ drop 1 self.old }
    {
        self.ids.pop_front();
    }
}
