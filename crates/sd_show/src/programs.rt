//! The fields of arguments and results, procedure by procedure.

ghost use Rattle.std.specs.Prelude.{◌≡◌};
ghost use Rattle.sd_show.specs.Programs.{args, results};
ghost use Rattle.sd_show.specs.Packing.{fields_of};

use crate::fields::Field;
use crate::form::Fields;
use crate::procedures::Known;

/// Several have these.
const PLACE: Fields = Fields::Both(&Fields::One(Field::Dir), &Fields::One(Field::Named));

const TO_PLACE: Fields = Fields::Both(&Fields::One(Field::ToDir), &Fields::One(Field::ToName));

const MAPPING: Fields = Fields::Both(
    &Fields::One(Field::Prog),
    &Fields::Both(
        &Fields::One(Field::Vers),
        &Fields::Both(&Fields::One(Field::Prot), &Fields::One(Field::Port)),
    ),
);

const ATTR: Fields = Fields::One(Field::Attr);

const PMAP_NULL_ARGS: Fields = Fields::Numbered(0, &Fields::Nothing);

const PMAP_SET_ARGS: Fields = Fields::Numbered(1, &MAPPING);

const PMAP_UNSET_ARGS: Fields = Fields::Numbered(2, &MAPPING);

const PMAP_GETPORT_ARGS: Fields = Fields::Numbered(3, &MAPPING);

const PMAP_DUMP_ARGS: Fields = Fields::Numbered(4, &Fields::Nothing);

const PMAP_CALLIT_ARGS: Fields = Fields::Numbered(
    5,
    &Fields::Both(
        &Fields::One(Field::Prog),
        &Fields::Both(
            &Fields::One(Field::Vers),
            &Fields::Both(&Fields::One(Field::Proc), &Fields::One(Field::Args)),
        ),
    ),
);

const BOOTPARAM_NULL_ARGS: Fields = Fields::Numbered(0, &Fields::Nothing);

const BOOTPARAM_WHOAMI_ARGS: Fields = Fields::Numbered(1, &Fields::One(Field::Address));

const BOOTPARAM_GETFILE_ARGS: Fields = Fields::Numbered(
    2,
    &Fields::Both(&Fields::One(Field::Client), &Fields::One(Field::Key)),
);

const MOUNT_NULL_ARGS: Fields = Fields::Numbered(0, &Fields::Nothing);

const MOUNT_MNT_ARGS: Fields = Fields::Numbered(1, &Fields::One(Field::Path));

const MOUNT_DUMP_ARGS: Fields = Fields::Numbered(2, &Fields::Nothing);

const MOUNT_UMNT_ARGS: Fields = Fields::Numbered(3, &Fields::One(Field::Path));

const MOUNT_UMNTALL_ARGS: Fields = Fields::Numbered(4, &Fields::Nothing);

const MOUNT_EXPORT_ARGS: Fields = Fields::Numbered(5, &Fields::Nothing);

const NFS_NULL_ARGS: Fields = Fields::Numbered(0, &Fields::Nothing);

const NFS_GETATTR_ARGS: Fields = Fields::Numbered(1, &Fields::One(Field::File));

const NFS_SETATTR_ARGS: Fields = Fields::Numbered(
    2,
    &Fields::Both(&Fields::One(Field::File), &Fields::One(Field::Set)),
);

const NFS_LOOKUP_ARGS: Fields = Fields::Numbered(4, &PLACE);

const NFS_READLINK_ARGS: Fields = Fields::Numbered(5, &Fields::One(Field::File));

const NFS_READ_ARGS: Fields = Fields::Numbered(
    6,
    &Fields::Both(
        &Fields::One(Field::File),
        &Fields::Both(
            &Fields::One(Field::Offset),
            &Fields::Both(&Fields::One(Field::Count), &Fields::One(Field::Total)),
        ),
    ),
);

const NFS_WRITE_ARGS: Fields = Fields::Numbered(
    8,
    &Fields::Both(
        &Fields::One(Field::File),
        &Fields::Both(
            &Fields::One(Field::Begin),
            &Fields::Both(
                &Fields::One(Field::Offset),
                &Fields::Both(&Fields::One(Field::Total), &Fields::One(Field::Bytes)),
            ),
        ),
    ),
);

const NFS_CREATE_ARGS: Fields = Fields::Numbered(
    9,
    &Fields::Both(&PLACE, &Fields::One(Field::Set)),
);

const NFS_REMOVE_ARGS: Fields = Fields::Numbered(10, &PLACE);

const NFS_RENAME_ARGS: Fields = Fields::Numbered(11, &Fields::Both(&PLACE, &TO_PLACE));

const NFS_LINK_ARGS: Fields = Fields::Numbered(
    12,
    &Fields::Both(&Fields::One(Field::From), &TO_PLACE),
);

const NFS_SYMLINK_ARGS: Fields = Fields::Numbered(
    13,
    &Fields::Both(
        &PLACE,
        &Fields::Both(&Fields::One(Field::Path), &Fields::One(Field::Set)),
    ),
);

const NFS_MKDIR_ARGS: Fields = Fields::Numbered(
    14,
    &Fields::Both(&PLACE, &Fields::One(Field::Set)),
);

const NFS_RMDIR_ARGS: Fields = Fields::Numbered(15, &PLACE);

const NFS_READDIR_ARGS: Fields = Fields::Numbered(
    16,
    &Fields::Both(
        &Fields::One(Field::Dir),
        &Fields::Both(&Fields::One(Field::Cookie), &Fields::One(Field::Count)),
    ),
);

const NFS_STATFS_ARGS: Fields = Fields::Numbered(17, &Fields::One(Field::File));

const PMAP_NULL_RESULTS: Fields = Fields::Numbered(0, &Fields::Nothing);

const PMAP_SET_RESULTS: Fields = Fields::Numbered(1, &Fields::One(Field::Ok));

const PMAP_UNSET_RESULTS: Fields = Fields::Numbered(1, &Fields::One(Field::Ok));

const PMAP_GETPORT_RESULTS: Fields = Fields::Numbered(2, &Fields::One(Field::PortAnswer));

const PMAP_DUMP_RESULTS: Fields = Fields::Numbered(3, &Fields::One(Field::Maps));

const PMAP_CALLIT_RESULTS: Fields = Fields::Numbered(
    4,
    &Fields::Both(&Fields::One(Field::Port), &Fields::One(Field::Results)),
);

const BOOTPARAM_NULL_RESULTS: Fields = Fields::Numbered(0, &Fields::Nothing);

const BOOTPARAM_WHOAMI_RESULTS: Fields = Fields::Numbered(
    1,
    &Fields::Both(
        &Fields::One(Field::Client),
        &Fields::Both(&Fields::One(Field::Domain), &Fields::One(Field::Router)),
    ),
);

const BOOTPARAM_GETFILE_RESULTS: Fields = Fields::Numbered(
    2,
    &Fields::Both(
        &Fields::One(Field::Server),
        &Fields::Both(&Fields::One(Field::Address), &Fields::One(Field::Path)),
    ),
);

const MOUNT_NULL_RESULTS: Fields = Fields::Numbered(0, &Fields::Nothing);

const MOUNT_MNT_RESULTS: Fields = Fields::Numbered(1, &Fields::Checked(&Fields::One(Field::File)));

const MOUNT_DUMP_RESULTS: Fields = Fields::Numbered(2, &Fields::One(Field::Mounts));

const MOUNT_UMNT_RESULTS: Fields = Fields::Numbered(0, &Fields::Nothing);

const MOUNT_UMNTALL_RESULTS: Fields = Fields::Numbered(0, &Fields::Nothing);

const MOUNT_EXPORT_RESULTS: Fields = Fields::Numbered(3, &Fields::One(Field::Exports));

const NFS_GETATTR_RESULTS: Fields = Fields::Checked(&Fields::Numbered(1, &ATTR));

const NFS_SETATTR_RESULTS: Fields = Fields::Checked(&Fields::Numbered(2, &ATTR));

const NFS_LOOKUP_RESULTS: Fields = Fields::Checked(&Fields::Numbered(
    4,
    &Fields::Both(&Fields::One(Field::File), &ATTR),
));

const NFS_READLINK_RESULTS: Fields = Fields::Checked(&Fields::Numbered(
    5,
    &Fields::One(Field::Path),
));

const NFS_READ_RESULTS: Fields = Fields::Checked(&Fields::Numbered(
    6,
    &Fields::Both(&ATTR, &Fields::One(Field::Bytes)),
));

const NFS_WRITE_RESULTS: Fields = Fields::Checked(&Fields::Numbered(8, &ATTR));

const NFS_CREATE_RESULTS: Fields = Fields::Checked(&Fields::Numbered(
    9,
    &Fields::Both(&Fields::One(Field::File), &ATTR),
));

const NFS_REMOVE_RESULTS: Fields = Fields::Checked(&Fields::Numbered(10, &Fields::Nothing));

const NFS_RENAME_RESULTS: Fields = Fields::Checked(&Fields::Numbered(11, &Fields::Nothing));

const NFS_LINK_RESULTS: Fields = Fields::Checked(&Fields::Numbered(12, &Fields::Nothing));

const NFS_SYMLINK_RESULTS: Fields = Fields::Checked(&Fields::Numbered(13, &Fields::Nothing));

const NFS_MKDIR_RESULTS: Fields = Fields::Checked(&Fields::Numbered(
    14,
    &Fields::Both(&Fields::One(Field::File), &ATTR),
));

const NFS_RMDIR_RESULTS: Fields = Fields::Checked(&Fields::Numbered(15, &Fields::Nothing));

const NFS_READDIR_RESULTS: Fields = Fields::Checked(&Fields::Numbered(
    16,
    &Fields::Both(&Fields::One(Field::Entries), &Fields::One(Field::Eof)),
));

const NFS_STATFS_RESULTS: Fields = Fields::Checked(&Fields::Numbered(
    17,
    &Fields::Both(
        &Fields::One(Field::Tsize),
        &Fields::Both(
            &Fields::One(Field::Bsize),
            &Fields::Both(
                &Fields::One(Field::Blocks),
                &Fields::Both(&Fields::One(Field::Bfree), &Fields::One(Field::Bavail)),
            ),
        ),
    ),
));

/// The fields of a procedure's arguments.
pub fn args(known: Known) -> Fields
    ensures { fields_of result ≡ args known }
{
    match known {
        Known::PmapNull => PMAP_NULL_ARGS,
        Known::PmapSet => PMAP_SET_ARGS,
        Known::PmapUnset => PMAP_UNSET_ARGS,
        Known::PmapGetport => PMAP_GETPORT_ARGS,
        Known::PmapDump => PMAP_DUMP_ARGS,
        Known::PmapCallit => PMAP_CALLIT_ARGS,
        Known::BootparamNull => BOOTPARAM_NULL_ARGS,
        Known::BootparamWhoami => BOOTPARAM_WHOAMI_ARGS,
        Known::BootparamGetfile => BOOTPARAM_GETFILE_ARGS,
        Known::MountNull => MOUNT_NULL_ARGS,
        Known::MountMnt => MOUNT_MNT_ARGS,
        Known::MountDump => MOUNT_DUMP_ARGS,
        Known::MountUmnt => MOUNT_UMNT_ARGS,
        Known::MountUmntall => MOUNT_UMNTALL_ARGS,
        Known::MountExport => MOUNT_EXPORT_ARGS,
        Known::NfsNull => NFS_NULL_ARGS,
        Known::NfsGetattr => NFS_GETATTR_ARGS,
        Known::NfsSetattr => NFS_SETATTR_ARGS,
        Known::NfsLookup => NFS_LOOKUP_ARGS,
        Known::NfsReadlink => NFS_READLINK_ARGS,
        Known::NfsRead => NFS_READ_ARGS,
        Known::NfsWrite => NFS_WRITE_ARGS,
        Known::NfsCreate => NFS_CREATE_ARGS,
        Known::NfsRemove => NFS_REMOVE_ARGS,
        Known::NfsRename => NFS_RENAME_ARGS,
        Known::NfsLink => NFS_LINK_ARGS,
        Known::NfsSymlink => NFS_SYMLINK_ARGS,
        Known::NfsMkdir => NFS_MKDIR_ARGS,
        Known::NfsRmdir => NFS_RMDIR_ARGS,
        Known::NfsReaddir => NFS_READDIR_ARGS,
        Known::NfsStatfs => NFS_STATFS_ARGS,
    }
}

/// The fields of a procedure's results.
pub fn results(known: Known) -> Fields
    ensures { fields_of result ≡ results known }
{
    match known {
        Known::PmapNull => PMAP_NULL_RESULTS,
        Known::PmapSet => PMAP_SET_RESULTS,
        Known::PmapUnset => PMAP_UNSET_RESULTS,
        Known::PmapGetport => PMAP_GETPORT_RESULTS,
        Known::PmapDump => PMAP_DUMP_RESULTS,
        Known::PmapCallit => PMAP_CALLIT_RESULTS,
        Known::BootparamNull => BOOTPARAM_NULL_RESULTS,
        Known::BootparamWhoami => BOOTPARAM_WHOAMI_RESULTS,
        Known::BootparamGetfile => BOOTPARAM_GETFILE_RESULTS,
        Known::MountNull => MOUNT_NULL_RESULTS,
        Known::MountMnt => MOUNT_MNT_RESULTS,
        Known::MountDump => MOUNT_DUMP_RESULTS,
        Known::MountUmnt => MOUNT_UMNT_RESULTS,
        Known::MountUmntall => MOUNT_UMNTALL_RESULTS,
        Known::MountExport => MOUNT_EXPORT_RESULTS,
        Known::NfsNull => Fields::Nothing,
        Known::NfsGetattr => NFS_GETATTR_RESULTS,
        Known::NfsSetattr => NFS_SETATTR_RESULTS,
        Known::NfsLookup => NFS_LOOKUP_RESULTS,
        Known::NfsReadlink => NFS_READLINK_RESULTS,
        Known::NfsRead => NFS_READ_RESULTS,
        Known::NfsWrite => NFS_WRITE_RESULTS,
        Known::NfsCreate => NFS_CREATE_RESULTS,
        Known::NfsRemove => NFS_REMOVE_RESULTS,
        Known::NfsRename => NFS_RENAME_RESULTS,
        Known::NfsLink => NFS_LINK_RESULTS,
        Known::NfsSymlink => NFS_SYMLINK_RESULTS,
        Known::NfsMkdir => NFS_MKDIR_RESULTS,
        Known::NfsRmdir => NFS_RMDIR_RESULTS,
        Known::NfsReaddir => NFS_READDIR_RESULTS,
        Known::NfsStatfs => NFS_STATFS_RESULTS,
    }
}
