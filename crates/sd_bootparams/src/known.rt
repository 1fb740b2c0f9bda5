//! Lists whose items are added once, by an index of their names, without a walk over them.

ghost use Rattle.std.specs.Prelude.{◌≡◌, ◌&&◌, true, not, [], ◌∷◌, ◌++◌, IfOk, OnOk, OnErr, if◌then◌else◌};
ghost use Rattle.std.specs.Bool.{OnFalse};
ghost use Rattle.std.specs.BTreeSet.{contains, IsUnchanged, Updates};
ghost use Rattle.std.specs.List.{list_any};
ghost use Rattle.sd_bootparams.specs.File.{same};

use crate::params::Entry;
use sd_outside::{ByteList, NoMemory};
use std::alloc::Global;
use std::collections::BTreeSet;
use std::marker::Model;

/// Adds an item at the end and its name to the index, unless the name is there. Whether it is new.
fn add<T: Drop, K: Ord + Drop>(
    items: &mut Vec<T>,
    names: &mut BTreeSet<K>,
    item: T,
    name: K,
) -> Result<bool, NoMemory>
    ensures is_new { IfOk result (λ is_new. is_new ≡ not (contains K.cmp names.old name)) }
    ensures items { IfOk result (λ is_new. items.new.items ≡ (if is_new then items.old.items ++ (item ∷ []) else items.old.items)) }
    ensures new_name { OnOk result (Updates K.cmp names.old names.new name true) }
    ensures old_name { IfOk result (λ is_new. OnFalse is_new (IsUnchanged names.old names.new)) }
    ensures err { OnErr result ((items.new.items ≡ items.old.items) × IsUnchanged names.old names.new) }
{
    items.push(item)?;
    match names.insert(name) {
        Ok(true) => Ok(true),
        Ok(false) => {
            items.pop();
            Ok(false)
        }
        Err(_) => {
            items.pop();
            Err(NoMemory)
        }
    }
}

/// The clients that have a line, in the order of the file.
#[derive(Debug, Drop)]
pub struct Clients {
    clients: Vec<ByteList>,
    names: BTreeSet<Vec<u8>>,
}

impl Model for Clients {
    ghost use Rattle.std.specs.Prelude.{List, ℕ};
    ghost use Rattle.sd_bootparams.specs.Known.{AreNames};

    ghost Value = { List (List ℕ) };

    ghost view = { λ c. c.clients.items };

    ghost invariant = { λ c. AreNames c.names c.clients.items };
}

impl Clients {
    /// No clients.
    pub fn empty(alloc: Global) -> Clients
        ensures { result ≡ [] }
    {
        Clients {
            clients: Vec::new(alloc),
            names: BTreeSet::new(alloc),
        }
    }

    /// The clients.
    pub fn as_slice(&self) -> &[ByteList]
        ensures { result.now ≡ self.now }
    {
        self.clients.as_slice()
    }

    /// Adds a client at the end, unless it is there. Whether it is new.
    pub fn add(&mut self, alloc: Global, client: ByteList) -> Result<bool, NoMemory>
        ensures is_new { IfOk result (λ is_new. is_new ≡ not (list_any (λ c. same c client) self.old)) }
        ensures added { IfOk result (λ is_new. self.new ≡ (if is_new then self.old ++ (client ∷ []) else self.old)) }
        ensures err { OnErr result (self.new ≡ self.old) }
    {
        let name = ByteList::from_slice(alloc, client.as_slice())?.into_vec();
        add(&mut self.clients, &mut self.names, client, name)
    }
}

/// What tells an item from others: its client and its key.
#[derive(Debug, Drop, PartialEq, Eq, PartialOrd, Ord)]
struct ItemName {
    client: Vec<u8>,
    key: Vec<u8>,
}

/// The items of all clients, in the order of the file.
#[derive(Debug, Drop)]
pub struct Items {
    entries: Vec<Entry>,
    names: BTreeSet<ItemName>,
}

impl Model for Items {
    ghost use Rattle.std.specs.Prelude.{List};
    ghost use Rattle.sd_bootparams.specs.declared.params.Entry.{Entry};
    ghost use Rattle.sd_bootparams.specs.Known.{AreItemNames};

    ghost Value = { List Entry };

    ghost view = { λ i. i.entries.items };

    ghost invariant = { λ i. AreItemNames i.names i.entries.items };
}

impl Items {
    /// No items.
    pub fn empty(alloc: Global) -> Items
        ensures { result ≡ [] }
    {
        Items {
            entries: Vec::new(alloc),
            names: BTreeSet::new(alloc),
        }
    }

    /// The items.
    pub fn as_slice(&self) -> &[Entry]
        ensures { result.now ≡ self.now }
    {
        self.entries.as_slice()
    }

    /// Adds an item at the end, unless its client has one with its key. Whether it is new.
    pub fn add(&mut self, alloc: Global, entry: Entry) -> Result<bool, NoMemory>
        ensures is_new { IfOk result (λ is_new. is_new ≡ not (list_any (λ e. same e.client entry.client && same e.key entry.key) self.old)) }
        ensures added { IfOk result (λ is_new. self.new ≡ (if is_new then self.old ++ (entry ∷ []) else self.old)) }
        ensures err { OnErr result (self.new ≡ self.old) }
    {
        let name = ItemName {
            client: ByteList::from_slice(alloc, entry.client.as_slice())?.into_vec(),
            key: ByteList::from_slice(alloc, entry.key.as_slice())?.into_vec(),
        };
        add(&mut self.entries, &mut self.names, entry, name)
    }
}
