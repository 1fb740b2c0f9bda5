//! What a bootparams file says.

ghost use Rattle.std.specs.Prelude.{◌≡◌, not, [], ◌∷◌, ◌++◌, IfOk, OnOk, if◌then◌else◌};
ghost use Rattle.sd_bootparams.specs.File.{nothing, has_client, has_key};

use crate::known::{Clients, Items};
use sd_outside::{ByteList, NoMemory};
use std::alloc::Global;
use std::marker::Model;

/// Why a word of a bootparams file is refused, in the order in which it is looked at.
#[derive(Clone, Copy, Debug, PartialEq, Eq)]
pub enum Why {
    /// A byte that is neither printable nor a blank.
    NotText,
    /// A client with `=`.
    NoName,
    /// An item without `=`.
    NoEquals,
    /// An item without `:` after its `=`.
    NoColon,
    /// A client, key, server or path above its limit.
    TooLong,
    /// The client's second item with this key.
    DoubleKey,
    /// The second line of this client.
    DoubleClient,
}

/// Where a client finds what it asks for by a key: an item `key=server:path` of its line.
#[derive(Debug, Drop)]
pub struct Entry {
    pub client: ByteList,
    /// At most 32 bytes.
    pub key: ByteList,
    /// A machine's name, of at most 255 bytes.
    pub server: ByteList,
    /// At most 1,024 bytes.
    pub path: ByteList,
}

/// What a file says: the clients that have a line, and the entries of all of them, in the order of the file.
#[derive(Debug, Drop)]
pub struct Params {
    clients: Clients,
    entries: Items,
}

impl Model for Params {
    ghost use Rattle.sd_bootparams.specs.Contents.{Contents};

    ghost Value = { Contents };

    ghost view = { λ p. record { clients = p.clients; entries = p.entries } };
}

impl Params {
    /// Nothing is said yet.
    pub(crate) fn empty(alloc: Global) -> Params
        ensures { result ≡ nothing }
    {
        Params {
            clients: Clients::empty(alloc),
            entries: Items::empty(alloc),
        }
    }

    /// The clients that have a line, in the order of the file.
    pub fn clients(&self) -> &[ByteList]
        ensures { result.now ≡ self.now.clients }
    {
        self.clients.as_slice()
    }

    /// The entries of all clients, in the order of the file.
    pub fn entries(&self) -> &[Entry]
        ensures { result.now ≡ self.now.entries }
    {
        self.entries.as_slice()
    }

    /// Adds a client, unless it has a line. Whether it is new.
    pub(crate) fn add_client(&mut self, alloc: Global, client: ByteList) -> Result<bool, NoMemory>
        ensures is_new { IfOk result (λ is_new. is_new ≡ not (has_client self.old client)) }
        ensures added { IfOk result (λ is_new. self.new.clients ≡ (if is_new then self.old.clients ++ (client ∷ []) else self.old.clients)) }
        ensures entries { OnOk result (self.new.entries ≡ self.old.entries) }
    {
        self.clients.add(alloc, client)
    }

    /// Adds an entry, unless its client has one with its key. Whether it is new.
    pub(crate) fn add_entry(&mut self, alloc: Global, entry: Entry) -> Result<bool, NoMemory>
        ensures is_new { IfOk result (λ is_new. is_new ≡ not (has_key self.old entry.client entry.key)) }
        ensures added { IfOk result (λ is_new. self.new.entries ≡ (if is_new then self.old.entries ++ (entry ∷ []) else self.old.entries)) }
        ensures clients { OnOk result (self.new.clients ≡ self.old.clients) }
    {
        self.entries.add(alloc, entry)
    }
}

/// Why a bootparams file isn't read.
#[derive(Clone, Copy, Debug, PartialEq, Eq)]
pub enum ParamsError {
    /// The first word that is refused begins on this line of the file, counted from 1.
    Bad { line: u64, why: Why },
    NoMemory,
}

impl From<NoMemory> for ParamsError {
    ghost use Rattle.std.specs.Prelude.{◌≡◌};
    ghost use Rattle.sd_bootparams.specs.declared.params.ParamsError.TheVariants as errors;

    ghost from_gives = { λ _ e. e ≡ errors.NoMemory };

    fn from(_: NoMemory) -> Self {
        ParamsError::NoMemory
    }
}
