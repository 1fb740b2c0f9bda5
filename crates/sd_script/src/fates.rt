//! The fates that lines gave so far. Whether a packet has one is told without a walk over them.

ghost use Rattle.std.specs.Prelude.{◌≡◌, ◌∷◌, ◌++◌, [], IsTrue, ◌↔◌, OnOk, OnErr};
ghost use Rattle.sd_script.specs.Lines.{MayAddFate};

use crate::limits::FATE_LIMIT;
use sd_config::{Fate, FateList};
use sd_outside::{ListOf, NoMemory};
use std::alloc::Global;
use std::collections::BTreeSet;
use std::marker::Model;

/// Fates in their order, with the set of their ids.
#[derive(Debug, Drop)]
pub struct FateBook {
    fates: Vec<Fate>,
    ids: BTreeSet<u64>,
}

impl Model for FateBook {
    ghost use Rattle.std.specs.Prelude.{List};
    ghost use Rattle.sd_config.specs.declared.events.Fate.{Fate};
    ghost use Rattle.sd_script.specs.Ids.{AreIds};

    ghost Value = { List Fate };

    ghost view = { λ book. book.fates.items };

    ghost invariant = { λ book. AreIds book.ids book.fates.items };
}

impl FateBook {
    /// No fates.
    pub fn empty(alloc: Global) -> FateBook
        ensures { result ≡ [] }
    {
        FateBook {
            fates: Vec::new(alloc),
            ids: BTreeSet::new(alloc),
        }
    }

    /// Whether a fate of this packet may be added.
    pub fn may_add(&self, id: u64) -> bool
        ensures { IsTrue result ↔ MayAddFate self.now id }
    {
        self.fates.len() < FATE_LIMIT && !self.ids.contains(&id)
    }

    /// Adds a fate at the end. A refused call changes nothing.
    pub fn add(&mut self, fate: Fate) -> Result<(), NoMemory>
        requires { MayAddFate self.old fate.id }
        ensures ok { OnOk result (self.new ≡ self.old ++ fate ∷ []) }
        ensures err { OnErr result (self.new ≡ self.old) }
    {
        let id = fate.id;
        self.fates.push(fate)?;
        if self.ids.insert(id).is_err() {
            self.fates.pop();
            return Err(NoMemory);
        }
        Ok(())
    }

    /// The fates as a list, which takes no memory.
    pub fn into_list(self) -> FateList
        ensures { result ≡ self }
    {
        ListOf::from_vec(self.fates)
    }
}
