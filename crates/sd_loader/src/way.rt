//! The components that are left on a way.
ghost use Rattle.std.specs.Prelude.{◌≡◌, ◌==◌, ◌∷◌, ◌++◌, ◌≤◌, ◌+◌, [], length, IfOk, OnOk, MatchOption, position};
ghost use Rattle.sd_loader.specs.Walk.{components};

use sd_outside::{ByteList, NoMemory, place_of};
use std::alloc::Global;
use std::marker::Model;

/// The components that are left on a way.
#[derive(Drop)]
pub(crate) struct Way {
    text: ByteList,
    at: usize,
    more: bool,
}

impl Model for Way {
    ghost use Rattle.std.specs.Prelude.{List, ℕ, ◌≤◌, length, drop, [], if◌then◌else◌};
    ghost use Rattle.sd_loader.specs.Walk.{components};

    ghost Value = { List (List ℕ) };

    ghost view = { λ way. if way.more then components (drop way.at way.text) else [] };

    ghost invariant = { λ way. way.at ≤ length way.text };
}

impl Way {
    /// Those of a path.
    pub(crate) fn new(alloc: Global, path: &[u8]) -> Result<Way, NoMemory>
        ensures { IfOk result (λ way. way ≡ components path.now) }
    {
        Ok(Way {
            text: ByteList::from_slice(alloc, path)?,
            at: 0,
            more: true,
        })
    }

    /// The next component, where one is left.
    pub(crate) fn next(&mut self, alloc: Global) -> Result<Option<ByteList>, NoMemory>
        ensures { IfOk result (λ found. MatchOption found ((self.old ≡ []) × (self.new ≡ [])) (λ name. self.old ≡ name ∷ self.new)) }
    {
        if !self.more {
            return Ok(None);
        }
        let rest = &self.text.as_slice()[self.at..];
        match place_of(rest, b'/') {
            Some(place) => {
                let name = ByteList::from_slice(alloc, &rest[..place])?;
                self.at += place + 1;
                Ok(Some(name))
            }
            None => {
                let name = ByteList::from_slice(alloc, rest)?;
                self.more = false;
                Ok(Some(name))
            }
        }
    }

    /// A text whose components are those of a link's text, and then these.
    fn joined(&self, alloc: Global, text: &[u8]) -> Result<ByteList, NoMemory>
        ensures { IfOk result (λ joined. components joined ≡ components text.now ++ self.now) }
    {
        let mut joined = ByteList::from_slice(alloc, text)?;
        if !self.more {
            return Ok(joined);
        }
        joined.push_slice(b"/")?;
        joined.push_slice(&self.text.as_slice()[self.at..])?;
        Ok(joined)
    }

    /// Puts those of a link's text before them.
    pub(crate) fn turn(&mut self, alloc: Global, text: &[u8]) -> Result<(), NoMemory>
        ensures { OnOk result (self.new ≡ components text.now ++ self.old) }
    {
        let joined = self.joined(alloc, text)?;
        self.text = joined;
        self.at = 0;
        self.more = true;
        Ok(())
    }
}
