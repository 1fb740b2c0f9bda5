//! Datagrams of MOUNT and NFS as rows of words, worked by hand from RFC 1094 and RFC 1057.
use super::rows::{CLIENT, Row};
use sd_outside::Addr;

pub const MOUNT: Addr = Addr {
    ip: 0xC0A80101,
    port: 1017,
};

pub const FILE_SERVER: Addr = Addr {
    ip: 0xC0A80101,
    port: 2049,
};

/// After a call of MNT: a handle; statuses that refuse; a refusal of the call; the handle a byte short; a byte behind it; a byte
/// behind a status; a reply from the port of NFS.
pub const MOUNTS: [Row; 9] = [
    (
        &[(
            MOUNT,
            CLIENT,
            "00000007 00000001 00000000 00*8 00000000 00000000 01*31 02*1",
        )],
        "given 1..2 1 0",
    ),
    (
        &[(
            MOUNT,
            CLIENT,
            "00000007 00000001 00000000 00*8 00000000 00000002",
        )],
        "refused 2 1 0",
    ),
    (
        &[(
            MOUNT,
            CLIENT,
            "00000007 00000001 00000000 00*8 00000000 ffffffff",
        )],
        "refused 4294967295 1 0",
    ),
    (
        &[(MOUNT, CLIENT, "00000007 00000001 00000000 00*8 00000003")],
        "Denied { code: 3 } 1 0",
    ),
    (
        &[(
            MOUNT,
            CLIENT,
            "00000007 00000001 00000001 00000001 00000001",
        )],
        "Denied { code: 11 } 1 0",
    ),
    (
        &[(
            MOUNT,
            CLIENT,
            "00000007 00000001 00000000 00*8 00000000 00000000 01*31",
        )],
        "Timeout 2 5",
    ),
    (
        &[(
            MOUNT,
            CLIENT,
            "00000007 00000001 00000000 00*8 00000000 00000000 01*31 02*1 00*1",
        )],
        "Timeout 2 5",
    ),
    (
        &[(
            MOUNT,
            CLIENT,
            "00000007 00000001 00000000 00*8 00000000 00000002 00*4",
        )],
        "Timeout 2 5",
    ),
    (
        &[(
            FILE_SERVER,
            CLIENT,
            "00000007 00000001 00000000 00*8 00000000 00000000 01*31 02*1",
        )],
        "Timeout 2 5",
    ),
];

/// After a call of GETATTR: attributes of a file of 5 bytes; NFSERR_STALE; attributes a word short.
pub const GETATTRS: [Row; 3] = [
    (
        &[(
            FILE_SERVER,
            CLIENT,
            "00000007 00000001 00000000 00*8 00000000 00000000 00000001 00*16 00000005 00*40 00000009",
        )],
        "getattr 1/5/9 1 0",
    ),
    (
        &[(
            FILE_SERVER,
            CLIENT,
            "00000007 00000001 00000000 00*8 00000000 00000046",
        )],
        "refused 70 1 0",
    ),
    (
        &[(
            FILE_SERVER,
            CLIENT,
            "00000007 00000001 00000000 00*8 00000000 00000000 00000001 00*16 00000005 00*40",
        )],
        "Timeout 2 5",
    ),
];

/// After a call of LOOKUP: a handle with attributes; NFSERR_NOENT; a handle alone.
pub const LOOKUPS: [Row; 3] = [
    (
        &[(
            FILE_SERVER,
            CLIENT,
            "00000007 00000001 00000000 00*8 00000000 00000000 03*31 04*1 00000001 00*16 00000005 00*40 00000009",
        )],
        "lookup 3..4 1/5/9 1 0",
    ),
    (
        &[(
            FILE_SERVER,
            CLIENT,
            "00000007 00000001 00000000 00*8 00000000 00000002",
        )],
        "refused 2 1 0",
    ),
    (
        &[(
            FILE_SERVER,
            CLIENT,
            "00000007 00000001 00000000 00*8 00000000 00000000 03*31 04*1",
        )],
        "Timeout 2 5",
    ),
];

/// After a call of READLINK: a path; NFSERR_NXIO; one whose filling isn't zero; one that would have 1,025 bytes.
pub const READLINKS: [Row; 4] = [
    (
        &[(
            FILE_SERVER,
            CLIENT,
            "00000007 00000001 00000000 00*8 00000000 00000000 00000007 73756234 2f766d00",
        )],
        "readlink sub4/vm 1 0",
    ),
    (
        &[(
            FILE_SERVER,
            CLIENT,
            "00000007 00000001 00000000 00*8 00000000 00000006",
        )],
        "refused 6 1 0",
    ),
    (
        &[(
            FILE_SERVER,
            CLIENT,
            "00000007 00000001 00000000 00*8 00000000 00000000 00000007 73756234 2f766d01",
        )],
        "Timeout 2 5",
    ),
    (
        &[(
            FILE_SERVER,
            CLIENT,
            "00000007 00000001 00000000 00*8 00000000 00000000 00000401 61*1025 00*3",
        )],
        "Timeout 2 5",
    ),
];

/// After a call of READ: the bytes; fewer; NFSERR_ISDIR; a result of LOOKUP.
pub const READS: [Row; 4] = [
    (
        &[(
            FILE_SERVER,
            CLIENT,
            "00000007 00000001 00000000 00*8 00000000 00000000 00000001 00*16 00002005 00*40 00000009 00000005 76626e69 78000000",
        )],
        "read 1/8197/9 vbnix 1 0",
    ),
    (
        &[(
            FILE_SERVER,
            CLIENT,
            "00000007 00000001 00000000 00*8 00000000 00000000 00000001 00*16 00002005 00*40 00000009 00000000",
        )],
        "read 1/8197/9  1 0",
    ),
    (
        &[(
            FILE_SERVER,
            CLIENT,
            "00000007 00000001 00000000 00*8 00000000 00000015",
        )],
        "refused 21 1 0",
    ),
    (
        &[(
            FILE_SERVER,
            CLIENT,
            "00000007 00000001 00000000 00*8 00000000 00000000 03*31 04*1 00000001 00*16 00000005 00*40 00000009",
        )],
        "Timeout 2 5",
    ),
];

/// After a call of REMOVE: done; NFSERR_ROFS.
pub const REMOVES: [Row; 2] = [
    (
        &[(
            FILE_SERVER,
            CLIENT,
            "00000007 00000001 00000000 00*8 00000000 00000000",
        )],
        "remove 1 0",
    ),
    (
        &[(
            FILE_SERVER,
            CLIENT,
            "00000007 00000001 00000000 00*8 00000000 0000001e",
        )],
        "refused 30 1 0",
    ),
];

/// What call 7 of the machine `sparky` sends: the credentials are those of its user 0.
pub const MNT_SENT: &str =
    "00000007 00000000 00000002 000186a5 00000001 00000001 00000001 0000001c 00000000 00000006 73706172 6b790000 00000000 00000000 00000000 00*8 0000000c 2f657870 6f72742f 726f6f74";

pub const GETATTR_SENT: &str =
    "00000007 00000000 00000002 000186a3 00000002 00000001 00000001 0000001c 00000000 00000006 73706172 6b790000 00000000 00000000 00000000 00*8 01*31 02*1";

pub const LOOKUP_SENT: &str =
    "00000007 00000000 00000002 000186a3 00000002 00000004 00000001 0000001c 00000000 00000006 73706172 6b790000 00000000 00000000 00000000 00*8 01*31 02*1 00000006 766d756e 69780000";

pub const READLINK_SENT: &str =
    "00000007 00000000 00000002 000186a3 00000002 00000005 00000001 0000001c 00000000 00000006 73706172 6b790000 00000000 00000000 00000000 00*8 01*31 02*1";

pub const READ_SENT: &str =
    "00000007 00000000 00000002 000186a3 00000002 00000006 00000001 0000001c 00000000 00000006 73706172 6b790000 00000000 00000000 00000000 00*8 01*31 02*1 00002000 00000005 00000000";
