//! What a server exports.

ghost use Rattle.std.specs.Prelude.{◌≡◌};
ghost use Rattle.std.specs.Option.{option_map};
ghost use Rattle.sd_mount.specs.Tables.{same, export_of, mnt_of};

use sd_outside::{ByteList, FHandle, ListOf};
use std::marker::Model;

/// A directory or a file that one machine may mount.
#[derive(Debug, Drop)]
pub struct ExportEntry {
    pub path: ByteList,
    /// The address of the machine that may mount it.
    pub owner: u32,
    pub owner_name: ByteList,
    /// What the machine is given for the path.
    pub fhandle: FHandle,
}

/// Exports, in order. Of two with the same path the first counts.
pub type ExportEntries = ListOf<ExportEntry>;

/// What a server exports, in order.
#[derive(Debug, Drop)]
pub struct Exports {
    entries: ExportEntries,
}

impl Model for Exports {
    ghost use Rattle.std.specs.Prelude.{List};
    ghost use Rattle.sd_mount.specs.declared.exports.ExportEntry.{ExportEntry};

    ghost Value = { List ExportEntry };

    ghost view = { λ exports. exports.entries };
}

/// Whether two texts are equal.
pub(crate) fn same(text: &[u8], other: &[u8]) -> bool
    ensures { result ≡ same text.now other.now }
{
    text == other
}

impl Exports {
    /// These exports.
    pub fn new(entries: ExportEntries) -> Exports
        ensures { result ≡ entries }
    {
        Exports { entries }
    }

    /// All exports, in order.
    pub fn entries(&self) -> &[ExportEntry]
        ensures { result.now ≡ self.now }
    {
        self.entries.as_slice()
    }

    fn export(&self, path: &[u8]) -> Option<&ExportEntry>
        ensures { option_map (λ e. e.now) result ≡ export_of self.now path.now }
    {
        self.entries()
            .iter()
            .find(|entry| same(entry.path.as_slice(), path))
    }

    /// The handle that a machine is given for a path (RFC 1094, appendix A.5.2): status 2 where no export has that path, else
    /// 13 where the machine isn't the owner of the first that has it.
    pub fn mnt(&self, host: u32, path: &[u8]) -> Result<FHandle, u32>
        ensures { result ≡ mnt_of self.now host path.now }
    {
        match self.export(path) {
            None => Err(2),
            Some(entry) if entry.owner != host => Err(13),
            Some(entry) => Ok(entry.fhandle),
        }
    }
}
