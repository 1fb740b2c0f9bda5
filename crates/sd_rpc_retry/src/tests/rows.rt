//! Datagrams as rows of words, worked by hand from RFC 1057 and bootparam_prot.x.
//!
//! An item is a word of eight hexadecimal digits, or `hh*n` for n equal bytes.

use sd_outside::Addr;

pub const CLIENT: Addr = Addr {
    ip: 0xC0A80102,
    port: 1021,
};

pub const PORTMAPPER: Addr = Addr {
    ip: 0xC0A80101,
    port: 111,
};

pub const BOOTPARAMS: Addr = Addr {
    ip: 0xC0A80101,
    port: 1016,
};

pub const EVERYONE: Addr = Addr {
    ip: 0xFFFFFFFF,
    port: 111,
};

/// A further machine's portmapper.
pub const OTHER: Addr = Addr {
    ip: 0xC0A80105,
    port: 111,
};

/// The same machine as the portmapper's, from the next port.
pub const BESIDE: Addr = Addr {
    ip: 0xC0A80101,
    port: 112,
};

/// A further machine, from the next port.
pub const OTHER_BESIDE: Addr = Addr {
    ip: 0xC0A80105,
    port: 112,
};

/// Another port of the client.
pub const ELSEWHERE: Addr = Addr {
    ip: 0xC0A80102,
    port: 1022,
};

/// Another machine at the client's port.
pub const NEIGHBOUR: Addr = Addr {
    ip: 0xC0A80103,
    port: 1021,
};

/// What came, and what the caller that waits for reply 7 makes of it: the answer, the sends and the last tick.
pub type Row = (&'static [(Addr, Addr, &'static str)], &'static str);

/// After a call of GETPORT to the portmapper.
pub const PORTS: [Row; 20] = [
    (&[], "Timeout 2 5"),
    (
        &[(
            PORTMAPPER,
            CLIENT,
            "00000007 00000001 00000000 00*8 00000000 00000801",
        )],
        "port 2049 1 0",
    ),
    (
        &[(
            PORTMAPPER,
            CLIENT,
            "00000007 00000001 00000000 00*8 00000000 00000000",
        )],
        "port 0 1 0",
    ),
    // A verifier of another flavor is not looked at.
    (
        &[(
            PORTMAPPER,
            CLIENT,
            "00000007 00000001 00000000 00000063 00000004 01*4 00000000 00000801",
        )],
        "port 2049 1 0",
    ),
    (
        &[(
            PORTMAPPER,
            CLIENT,
            "00000007 00000001 00000000 00*8 00000001",
        )],
        "Denied { code: 1 } 1 0",
    ),
    (
        &[(
            PORTMAPPER,
            CLIENT,
            "00000007 00000001 00000000 00*8 00000002 00000002 00000003",
        )],
        "Denied { code: 2 } 1 0",
    ),
    (
        &[(
            PORTMAPPER,
            CLIENT,
            "00000007 00000001 00000000 00*8 00000003",
        )],
        "Denied { code: 3 } 1 0",
    ),
    (
        &[(
            PORTMAPPER,
            CLIENT,
            "00000007 00000001 00000000 00*8 00000004",
        )],
        "Denied { code: 4 } 1 0",
    ),
    (
        &[(
            PORTMAPPER,
            CLIENT,
            "00000007 00000001 00000001 00000000 00000002 00000002",
        )],
        "Denied { code: 10 } 1 0",
    ),
    (
        &[(
            PORTMAPPER,
            CLIENT,
            "00000007 00000001 00000001 00000001 00000005",
        )],
        "Denied { code: 15 } 1 0",
    ),
    // From another machine, from the next port, to another port, to another machine.
    (
        &[(
            OTHER,
            CLIENT,
            "00000007 00000001 00000000 00*8 00000000 00000801",
        )],
        "Timeout 2 5",
    ),
    (
        &[(
            BESIDE,
            CLIENT,
            "00000007 00000001 00000000 00*8 00000000 00000801",
        )],
        "Timeout 2 5",
    ),
    (
        &[(
            PORTMAPPER,
            ELSEWHERE,
            "00000007 00000001 00000000 00*8 00000000 00000801",
        )],
        "Timeout 2 5",
    ),
    (
        &[(
            PORTMAPPER,
            NEIGHBOUR,
            "00000007 00000001 00000000 00*8 00000000 00000801",
        )],
        "Timeout 2 5",
    ),
    // A call, a byte too many, a port that no program has, a byte too few behind a refusal.
    (
        &[(
            PORTMAPPER,
            CLIENT,
            "00000007 00000000 00000002 000186a0 00000002 00000003 00*16 00*16",
        )],
        "Timeout 2 5",
    ),
    (
        &[(
            PORTMAPPER,
            CLIENT,
            "00000007 00000001 00000000 00*8 00000000 00000801 00*1",
        )],
        "Timeout 2 5",
    ),
    (
        &[(
            PORTMAPPER,
            CLIENT,
            "00000007 00000001 00000000 00*8 00000000 00010000",
        )],
        "Timeout 2 5",
    ),
    (
        &[(
            PORTMAPPER,
            CLIENT,
            "00000007 00000001 00000001 00000001 00*3",
        )],
        "Timeout 2 5",
    ),
    // The reply to an earlier call, and then two that match.
    (
        &[(
            PORTMAPPER,
            CLIENT,
            "00000006 00000001 00000000 00*8 00000000 00000801",
        )],
        "Timeout 2 5",
    ),
    (
        &[
            (
                PORTMAPPER,
                CLIENT,
                "00000006 00000001 00000000 00*8 00000000 00000001",
            ),
            (
                PORTMAPPER,
                CLIENT,
                "00000007 00000001 00000000 00*8 00000000 00000002",
            ),
            (
                PORTMAPPER,
                CLIENT,
                "00000007 00000001 00000000 00*8 00000000 00000003",
            ),
        ],
        "port 2 1 0",
    ),
];

/// After a call of WHOAMI to everyone: the portmappers relay what bootparams answers.
pub const NAMES: [Row; 6] = [
    (
        &[(
            OTHER,
            CLIENT,
            "00000007 00000001 00000000 00*8 00000000 000003f8 0000002c 00000006 73706172 6b790000 00000007 6578616d 706c6500 00000001 ffffffc0 ffffffa8 00000001 00000001",
        )],
        "whoami c0a80105 sparky example c0a80101 1 0",
    ),
    // Chars without a sign are read too.
    (
        &[(
            PORTMAPPER,
            CLIENT,
            "00000007 00000001 00000000 00*8 00000000 00000000 0000001c 00000000 00000000 00000001 000000c0 000000a8 00000001 00000001",
        )],
        "whoami c0a80101   c0a80101 1 0",
    ),
    (
        &[(
            OTHER_BESIDE,
            CLIENT,
            "00000007 00000001 00000000 00*8 00000000 000003f8 0000001c 00000000 00000000 00000001 000000c0 000000a8 00000001 00000001",
        )],
        "Timeout 2 5",
    ),
    // A byte too many, inside and behind what is relayed; and what bootparams answers itself.
    (
        &[(
            OTHER,
            CLIENT,
            "00000007 00000001 00000000 00*8 00000000 000003f8 0000001d 00000000 00000000 00000001 000000c0 000000a8 00000001 00000001 00*4",
        )],
        "Timeout 2 5",
    ),
    (
        &[(
            OTHER,
            CLIENT,
            "00000007 00000001 00000000 00*8 00000000 000003f8 0000001c 00000000 00000000 00000001 000000c0 000000a8 00000001 00000001 00*1",
        )],
        "Timeout 2 5",
    ),
    (
        &[(
            OTHER,
            CLIENT,
            "00000007 00000001 00000000 00*8 00000000 00000000 00000000 00000001 000000c0 000000a8 00000001 00000001",
        )],
        "Timeout 2 5",
    ),
];

/// After a call of GETFILE to bootparams itself.
pub const FILES: [Row; 3] = [
    (
        &[(
            BOOTPARAMS,
            CLIENT,
            "00000007 00000001 00000000 00*8 00000000 00000004 626f7373 00000001 ffffffc0 ffffffa8 00000001 00000001 00000002 2f720000",
        )],
        "getfile c0a80101 boss c0a80101 /r 1 0",
    ),
    (
        &[(
            PORTMAPPER,
            CLIENT,
            "00000007 00000001 00000000 00*8 00000000 00000004 626f7373 00000001 ffffffc0 ffffffa8 00000001 00000001 00000002 2f720000",
        )],
        "Timeout 2 5",
    ),
    (
        &[(
            BOOTPARAMS,
            CLIENT,
            "00000007 00000001 00000000 00*8 00000000 000003f8 00000004 00000000",
        )],
        "Timeout 2 5",
    ),
];

/// What call 7 sends: to where, and the body.
pub const GETPORT: &str =
    "00000007 00000000 00000002 000186a0 00000002 00000003 00*16 000186a5 00000001 00000011 00000000";

pub const WHOAMI: &str =
    "00000007 00000000 00000002 000186ba 00000001 00000001 00*16 00000001 ffffffc0 ffffffa8 00000001 00000002";

pub const WHOAMI_RELAYED: &str =
    "00000007 00000000 00000002 000186a0 00000002 00000005 00*16 000186ba 00000001 00000001 00000014 00000001 ffffffc0 ffffffa8 00000001 00000002";

pub const GETFILE_RELAYED: &str =
    "00000007 00000000 00000002 000186a0 00000002 00000005 00*16 000186ba 00000001 00000002 00000014 00000006 73706172 6b790000 00000004 726f6f74";
