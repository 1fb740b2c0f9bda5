//! The procedures of the programs that are known by name.

ghost use Rattle.std.specs.Prelude.{◌≡◌, ◌↔◌, IsTrue};
ghost use Rattle.sd_text.specs.Answers.{Finds};
ghost use Rattle.sd_text.specs.Kind.{place_from, place_in};
ghost use Rattle.sd_show.specs.Programs.{all_known, numbers, known_text};
ghost use Rattle.sd_show.specs.Lines.{known_names};
ghost use Rattle.sd_show.specs.Packing.{place_of, later_place_of};

use sd_text::same_text;

/// What a call asks for.
#[derive(Clone, Copy, Debug, PartialEq, Eq)]
pub struct Procedure {
    pub prog: u32,
    pub vers: u32,
    pub proc_no: u32,
}

/// A procedure of the portmapper (RFC 1057, appendix A), of bootparams, of MOUNT (RFC 1094, appendix A) or of NFS (RFC 1094,
/// section 2.2).
#[derive(Clone, Copy, Debug, PartialEq, Eq)]
pub enum Known {
    PmapNull,
    PmapSet,
    PmapUnset,
    PmapGetport,
    PmapDump,
    PmapCallit,
    BootparamNull,
    BootparamWhoami,
    BootparamGetfile,
    MountNull,
    MountMnt,
    MountDump,
    MountUmnt,
    MountUmntall,
    MountExport,
    NfsNull,
    NfsGetattr,
    NfsSetattr,
    NfsLookup,
    NfsReadlink,
    NfsRead,
    NfsWrite,
    NfsCreate,
    NfsRemove,
    NfsRename,
    NfsLink,
    NfsSymlink,
    NfsMkdir,
    NfsRmdir,
    NfsReaddir,
    NfsStatfs,
}

/// All of them.
fn all_known() -> &'static [Known]
    ensures { result.now ≡ all_known }
{
    &[
        Known::PmapNull,
        Known::PmapSet,
        Known::PmapUnset,
        Known::PmapGetport,
        Known::PmapDump,
        Known::PmapCallit,
        Known::BootparamNull,
        Known::BootparamWhoami,
        Known::BootparamGetfile,
        Known::MountNull,
        Known::MountMnt,
        Known::MountDump,
        Known::MountUmnt,
        Known::MountUmntall,
        Known::MountExport,
        Known::NfsNull,
        Known::NfsGetattr,
        Known::NfsSetattr,
        Known::NfsLookup,
        Known::NfsReadlink,
        Known::NfsRead,
        Known::NfsWrite,
        Known::NfsCreate,
        Known::NfsRemove,
        Known::NfsRename,
        Known::NfsLink,
        Known::NfsSymlink,
        Known::NfsMkdir,
        Known::NfsRmdir,
        Known::NfsReaddir,
        Known::NfsStatfs,
    ]
}

fn same_procedure(a: Procedure, b: Procedure) -> bool
    ensures { IsTrue result ↔ (a ≡ b) }
{
    a.prog == b.prog && a.vers == b.vers && a.proc_no == b.proc_no
}

/// The procedure with these numbers, where it is known by name.
pub fn known_by_numbers(procedure: Procedure) -> Option<Known>
    ensures { Finds (λ k. numbers k ≡ procedure) result }
{
    for known in all_known() {
        if same_procedure(known.numbers(), procedure) {
            return Some(*known);
        }
    }
    None
}

/// The procedure with this name.
pub fn known_by_name(text: &[u8]) -> Option<Known>
    ensures at { place_in text.now known_names ≡ place_of result }
    ensures later { place_from 4 text.now known_names ≡ later_place_of result }
{
    find_name(text)
}

fn find_name(text: &[u8]) -> Option<Known>
    ensures { Finds (λ k. text.now ≡ known_text k) result }
{
    for known in all_known() {
        if same_text(text, known.as_str().as_bytes()) {
            return Some(*known);
        }
    }
    None
}

impl Known {
    /// PROG.PROC
    pub fn as_str(self) -> &'static str
        ensures { result.now ≡ known_text self }
    {
        match self {
            Known::PmapNull => "pmap.null",
            Known::PmapSet => "pmap.set",
            Known::PmapUnset => "pmap.unset",
            Known::PmapGetport => "pmap.getport",
            Known::PmapDump => "pmap.dump",
            Known::PmapCallit => "pmap.callit",
            Known::BootparamNull => "bootparam.null",
            Known::BootparamWhoami => "bootparam.whoami",
            Known::BootparamGetfile => "bootparam.getfile",
            Known::MountNull => "mount.null",
            Known::MountMnt => "mount.mnt",
            Known::MountDump => "mount.dump",
            Known::MountUmnt => "mount.umnt",
            Known::MountUmntall => "mount.umntall",
            Known::MountExport => "mount.export",
            Known::NfsNull => "nfs.null",
            Known::NfsGetattr => "nfs.getattr",
            Known::NfsSetattr => "nfs.setattr",
            Known::NfsLookup => "nfs.lookup",
            Known::NfsReadlink => "nfs.readlink",
            Known::NfsRead => "nfs.read",
            Known::NfsWrite => "nfs.write",
            Known::NfsCreate => "nfs.create",
            Known::NfsRemove => "nfs.remove",
            Known::NfsRename => "nfs.rename",
            Known::NfsLink => "nfs.link",
            Known::NfsSymlink => "nfs.symlink",
            Known::NfsMkdir => "nfs.mkdir",
            Known::NfsRmdir => "nfs.rmdir",
            Known::NfsReaddir => "nfs.readdir",
            Known::NfsStatfs => "nfs.statfs",
        }
    }

    /// The numbers by which a call names it.
    pub fn numbers(self) -> Procedure
        ensures { result ≡ numbers self }
    {
        let (prog, vers, proc_no) = match self {
            Known::PmapNull => (100_000, 2, 0),
            Known::PmapSet => (100_000, 2, 1),
            Known::PmapUnset => (100_000, 2, 2),
            Known::PmapGetport => (100_000, 2, 3),
            Known::PmapDump => (100_000, 2, 4),
            Known::PmapCallit => (100_000, 2, 5),
            Known::BootparamNull => (100_026, 1, 0),
            Known::BootparamWhoami => (100_026, 1, 1),
            Known::BootparamGetfile => (100_026, 1, 2),
            Known::MountNull => (100_005, 1, 0),
            Known::MountMnt => (100_005, 1, 1),
            Known::MountDump => (100_005, 1, 2),
            Known::MountUmnt => (100_005, 1, 3),
            Known::MountUmntall => (100_005, 1, 4),
            Known::MountExport => (100_005, 1, 5),
            Known::NfsNull => (100_003, 2, 0),
            Known::NfsGetattr => (100_003, 2, 1),
            Known::NfsSetattr => (100_003, 2, 2),
            Known::NfsLookup => (100_003, 2, 4),
            Known::NfsReadlink => (100_003, 2, 5),
            Known::NfsRead => (100_003, 2, 6),
            Known::NfsWrite => (100_003, 2, 8),
            Known::NfsCreate => (100_003, 2, 9),
            Known::NfsRemove => (100_003, 2, 10),
            Known::NfsRename => (100_003, 2, 11),
            Known::NfsLink => (100_003, 2, 12),
            Known::NfsSymlink => (100_003, 2, 13),
            Known::NfsMkdir => (100_003, 2, 14),
            Known::NfsRmdir => (100_003, 2, 15),
            Known::NfsReaddir => (100_003, 2, 16),
            Known::NfsStatfs => (100_003, 2, 17),
        };
        Procedure {
            prog,
            vers,
            proc_no,
        }
    }
}
