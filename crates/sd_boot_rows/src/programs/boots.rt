//! Boots, as far as they are built: transcripts of single boots, and tables of schedules.
//!
//! They are worked out by hand from the rules. A packet comes one tick after it was sent, unless its fate says otherwise; in a
//! tick the server is given all before its sessions send again, and both before the client gets anything.

use super::ran;
use sd_outside::{ByteList, NoMemory};
use sd_text::push_number;
use std::alloc::Global;
use std::process::Abort;
use std::test::Fail;

const LIFE: &[u8] = b"life 10\ntries 4\nwait 5";

const ONE_TRY: &[u8] = b"life 10\ntries 1\nwait 5";

const LONG_LIFE: &[u8] = b"life 20\ntries 4\nwait 5";

const MACHINES: &[u8] =
    b"\npages 1\nserver 080020000001 192.168.1.1 boss\nclient 080020010203 192.168.1.2 sparky example 192.168.1.1\n";

const QUESTION: &[u8] =
    b"frame ff*6.08002001020380350001080006040003080020010203.00*4.080020010203.00*22";

const ADDRESS: &[u8] =
    b"frame 08002001020308002000000180350001080006040004080020000001c0a80101080020010203c0a80102.00*18";

const REQUEST: &[u8] = b"udp 192.168.1.2:2048 192.168.1.1:69 00014330413830313032006f6374657400";

/// A script and its output, both without what all have in common.
struct Boot {
    head: &'static [u8],
    lines: &'static [u8],
    output: &'static [u8],
}

const BOOTS: [Boot; 13] = [
    // a calm boot
    Boot {
        head: LIFE,
        lines: b"tftp C0A80102 42*600\nparams sparky root=boss:/export/root/sparky\nboot\n",
        output: b"Psent 2 2 R;served 3 2;sent 3 3 S4096T00030001.42*512;got 4 3;sent 4 4 C4096 00040001;served 5 4;sent 5 5 S4096T00030002.42*88;got 6 5;sent 6 6 C4096 00040002;sent 6 7 U01D;served 7 6;served 7 7;sent 7 8 W01E;got 8 8;sent 8 9 V02F;served 9 9;sent 9 10 W02G;got 10 10;sent 10 11 V03H;served 11 11;sent 11 12 W03I;got 12 12;boot unbuilt mnt program 42*600;",
    },
    // an empty file is one empty block
    Boot {
        head: LIFE,
        lines: b"tftp C0A80102 -\nparams sparky root=boss:/export/root/sparky\nboot\n",
        output: b"Psent 2 2 R;served 3 2;sent 3 3 S4096T00030001;got 4 3;sent 4 4 C4096 00040001;sent 4 5 U01D;served 5 4;served 5 5;sent 5 6 W01E;got 6 6;sent 6 7 V02F;served 7 7;sent 7 8 W02G;got 8 8;sent 8 9 V03H;served 9 9;sent 9 10 W03I;got 10 10;boot unbuilt mnt program -;",
    },
    // a whole block is followed by an empty one
    Boot {
        head: LIFE,
        lines: b"tftp C0A80102 42*512\nparams sparky root=boss:/export/root/sparky\nboot\n",
        output: b"Psent 2 2 R;served 3 2;sent 3 3 S4096T00030001.42*512;got 4 3;sent 4 4 C4096 00040001;served 5 4;sent 5 5 S4096T00030002;got 6 5;sent 6 6 C4096 00040002;sent 6 7 U01D;served 7 6;served 7 7;sent 7 8 W01E;got 8 8;sent 8 9 V02F;served 9 9;sent 9 10 W02G;got 10 10;sent 10 11 V03H;served 11 11;sent 11 12 W03I;got 12 12;boot unbuilt mnt program 42*512;",
    },
    // the first block comes again when the third is awaited: nothing is sent for it
    Boot {
        head: LIFE,
        lines: b"tftp C0A80102 42*1024\nparams sparky root=boss:/export/root/sparky\nfate 3 1 4\nboot\n",
        output: b"Psent 2 2 R;served 3 2;sent 3 3 S4096T00030001.42*512;got 4 3;sent 4 4 C4096 00040001;served 5 4;sent 5 5 S4096T00030002.42*512;got 6 5;sent 6 6 C4096 00040002;served 7 6;sent 7 7 S4096T00030003;got 7 3;got 8 7;sent 8 8 C4096 00040003;sent 8 9 U01D;served 9 8;served 9 9;sent 9 10 W01E;got 10 10;sent 10 11 V02F;served 11 11;sent 11 12 W02G;got 12 12;sent 12 13 V03H;served 13 13;sent 13 14 W03I;got 14 14;boot unbuilt mnt program 42*1024;",
    },
    // the first ACK is lost: the block that comes again is acknowledged at once, and again by the next try
    Boot {
        head: LIFE,
        lines: b"tftp C0A80102 42*600\nparams sparky root=boss:/export/root/sparky\nfate 4 none\nboot\n",
        output: b"Psent 2 2 R;served 3 2;sent 3 3 S4096T00030001.42*512;got 4 3;sent 4 4 C4096 00040001;sent 8 5 S4096T00030001.42*512;got 9 5;sent 9 6 C4096 00040001;sent 9 7 C4096 00040001;served 10 6;sent 10 8 S4096T00030002.42*88;served 10 7;got 11 8;sent 11 9 C4096 00040002;sent 11 10 U01D;served 12 9;served 12 10;sent 12 11 W01E;got 13 11;sent 13 12 V02F;served 14 12;sent 14 13 W02G;got 15 13;sent 15 14 V03H;served 16 14;sent 16 15 W03I;got 17 15;boot unbuilt mnt program 42*600;",
    },
    // the request comes twice: the second session's block is a stranger's
    Boot {
        head: LIFE,
        lines: b"tftp C0A80102 42*600\nparams sparky root=boss:/export/root/sparky\nfate 2 1 2\nboot\n",
        output: b"Psent 2 2 R;served 3 2;sent 3 3 S4096T00030001.42*512;served 4 2;sent 4 4 S4097T00030001.42*512;got 4 3;sent 4 5 C4096 00040001;served 5 5;sent 5 6 S4096T00030002.42*88;got 5 4;sent 5 7 C4097 0005000500;served 6 7;got 6 6;sent 6 8 C4096 00040002;sent 6 9 U01D;served 7 8;served 7 9;sent 7 10 W01E;got 8 10;sent 8 11 V02F;served 9 11;sent 9 12 W02G;got 10 12;sent 10 13 V03H;served 11 13;sent 11 14 W03I;got 12 14;boot unbuilt mnt program 42*600;",
    },
    // nobody knows the client's name
    Boot {
        head: LIFE,
        lines: b"tftp C0A80102 42*600\nboot\n",
        output: b"Psent 2 2 R;served 3 2;sent 3 3 S4096T00030001.42*512;got 4 3;sent 4 4 C4096 00040001;served 5 4;sent 5 5 S4096T00030002.42*88;got 6 5;sent 6 6 C4096 00040002;sent 6 7 U01D;served 7 6;served 7 7;sent 11 8 U01D;served 12 8;sent 16 9 U01D;served 17 9;sent 21 10 U01D;served 22 10;boot timeout whoami;",
    },
    // the client has no root
    Boot {
        head: LIFE,
        lines: b"tftp C0A80102 42*600\nparams sparky swap=boss:/export/swap/sparky\nboot\n",
        output: b"Psent 2 2 R;served 3 2;sent 3 3 S4096T00030001.42*512;got 4 3;sent 4 4 C4096 00040001;served 5 4;sent 5 5 S4096T00030002.42*88;got 6 5;sent 6 6 C4096 00040002;sent 6 7 U01D;served 7 6;served 7 7;sent 7 8 W01E;got 8 8;sent 8 9 V02F;served 9 9;sent 13 10 V02F;served 14 10;sent 18 11 V02F;served 19 11;sent 23 12 V02F;served 24 12;boot timeout getfile;",
    },
    // no file has the name
    Boot {
        head: LIFE,
        lines: b"tftp C0A80101 42*600\nboot\n",
        output: b"Psent 2 2 R;served 3 2;sent 3 3 S69T0005000100;got 4 3;boot refused tftp 1;",
    },
    // every request is lost
    Boot {
        head: LIFE,
        lines: b"tftp C0A80102 42*600\nfate 2 none\nfate 3 none\nfate 4 none\nfate 5 none\nboot\n",
        output: b"Psent 2 2 R;sent 7 3 R;sent 12 4 R;sent 17 5 R;boot timeout tftp;",
    },
    // with one try each, the ACK is lost: the session ends, and so does the boot
    Boot {
        head: ONE_TRY,
        lines: b"tftp C0A80102 42*600\nfate 4 none\nboot\nwait 5\n",
        output: b"Psent 2 2 R;served 3 2;sent 3 3 S4096T00030001.42*512;got 4 3;sent 4 4 C4096 00040001;boot timeout tftp;wait 5 ok;",
    },
    // no answer to the question for the address
    Boot {
        head: ONE_TRY,
        lines: b"tftp C0A80102 42*600\nfate 1 none\nboot\n",
        output: b"sent 0 0 Q;served 1 0;sent 1 1 A;boot timeout rarp;",
    },
    // the name ends in the architecture
    Boot {
        head: LIFE,
        lines: b"arch SUN4C\ntftp C0A80102 42*600\ntftp C0A80102.SUN4C 50*3\nparams sparky root=boss:/export/root/sparky\nboot\n",
        output: b"Psent 2 2 C69 000143304138303130322e53554e3443006f6374657400;served 3 2;sent 3 3 S4096T00030001505050;got 4 3;sent 4 4 C4096 00040001;sent 4 5 U01D;served 5 4;served 5 5;sent 5 6 W01E;got 6 6;sent 6 7 V02F;served 7 7;sent 7 8 W02G;got 8 8;sent 8 9 V03H;served 9 9;sent 9 10 W03I;got 10 10;boot unbuilt mnt program 505050;",
    },
];

/// The second boot of a script asks again, from the next port, and gets the next session.
const TWO_BOOTS: Boot = Boot {
    head: LIFE,
    lines: b"tftp C0A80102 42*5\nparams sparky root=boss:/export/root/sparky\nboot\nboot\n",
    output: b"Psent 2 2 R;served 3 2;sent 3 3 S4096T00030001.42*5;got 4 3;sent 4 4 C4096 00040001;sent 4 5 U01D;served 5 4;served 5 5;sent 5 6 W01E;got 6 6;sent 6 7 V02F;served 7 7;sent 7 8 W02G;got 8 8;sent 8 9 V03H;served 9 9;sent 9 10 W03I;got 10 10;boot unbuilt mnt program 42*5;sent 10 11 Q;served 11 11;sent 11 12 A;got 12 12;sent 12 13 udp 192.168.1.2:2049 192.168.1.1:69 00014330413830313032006f6374657400;served 13 13;sent 13 14 udp 192.168.1.1:4097 192.168.1.2:2049 00030001.42*5;got 14 14;sent 14 15 udp 192.168.1.2:2049 192.168.1.1:4097 00040001;sent 14 16 U04D;served 15 15;served 15 16;sent 15 17 W04E;got 16 17;sent 16 18 V05F;served 17 18;sent 17 19 W05G;got 18 19;sent 18 20 V06H;served 19 20;sent 19 21 W06I;got 20 21;boot unbuilt mnt program 42*5;",
};

/// These texts as one.
fn joined(alloc: Global, parts: &[&[u8]]) -> Result<ByteList, NoMemory> {
    let mut text = ByteList::empty(alloc);
    for part in parts {
        text.push_slice(part)?;
    }
    Ok(text)
}

/// What a byte of an abbreviated output stands for: `P` is how the client learns its address, `C` begins a datagram to a port of the
/// server, `S` one from a port of the server, and `T` ends its heading. `U` begins a call of everyone, `V` one of the server and `W` a
/// reply; `D` to `I` end the calls of a boot and their replies, behind the last byte of their number.
fn expanded(byte: &u8) -> &[&[u8]] {
    match *byte {
        b';' => &[b"\n"],
        b'P' => &[
            b"sent 0 0 ",
            QUESTION,
            b"\nserved 1 0\nsent 1 1 ",
            ADDRESS,
            b"\ngot 2 1\n",
        ],
        b'Q' => &[QUESTION],
        b'A' => &[ADDRESS],
        b'R' => &[REQUEST],
        b'C' => &[b"udp 192.168.1.2:2048 192.168.1.1:"],
        b'S' => &[b"udp 192.168.1.1:"],
        b'T' => &[b" 192.168.1.2:2048 "],
        b'D' => &[
            b".00*7.02000186a00000000200000005.00*17.0186ba00000001000000010000001400000001ffffffc0ffffffa80000000100000002",
        ],
        b'E' => &[
            b"00000001.00*18.03f80000002c00000006737061726b79.00*5.076578616d706c65.00*4.01ffffffc0ffffffa80000000100000001",
        ],
        b'F' => &[
            b".00*7.02000186a00000000200000005.00*17.0186ba00000001000000020000001400000006737061726b79.00*5.04726f6f74",
        ],
        b'G' => &[
            b"00000001.00*18.03f80000003400000004626f737300000001ffffffc0ffffffa80000000100000001000000132f6578706f72742f726f6f742f737061726b7900",
        ],
        b'H' => &[b".00*7.02000186a00000000200000003.00*17.0186a50000000100000011.00*4"],
        b'I' => &[b"00000001.00*18.03f9"],
        b'U' => &[b"udp 192.168.1.2:1021 255.255.255.255:111 000000"],
        b'V' => &[b"udp 192.168.1.2:1021 192.168.1.1:111 000000"],
        b'W' => &[b"udp 192.168.1.1:111 192.168.1.2:1021 000000"],
        _ => &[],
    }
}

/// An output without its abbreviations.
fn whole(alloc: Global, output: &[u8]) -> Result<ByteList, NoMemory> {
    let mut text = ByteList::empty(alloc);
    for byte in output {
        let parts = expanded(byte);
        if parts.is_empty() {
            text.push_slice(&[*byte])?;
        }
        for part in parts {
            text.push_slice(part)?;
        }
    }
    Ok(text)
}

/// Plays a script, and compares its output.
fn plays(rt: &impl Abort, alloc: Global, boot: &Boot) -> Result<(), Fail> {
    let script = joined(alloc, &[boot.head, MACHINES, boot.lines])?;
    let wanted = whole(alloc, boot.output)?;
    let (status, output) = ran(alloc, &["replay"], script.as_slice())?;
    assert_eq!(rt; status, 0);
    assert_eq!(rt; output.as_slice(), wanted.as_slice());
    Ok(())
}

#[test]
fn boots(rt: HostRuntime) -> Result<(), Fail> {
    for boot in &BOOTS {
        plays(&rt, rt.alloc(), boot)?;
    }
    Ok(())
}

#[test]
fn boots_twice(rt: HostRuntime) -> Result<(), Fail> {
    plays(&rt, rt.alloc(), &TWO_BOOTS)
}

/// Plays a script with this fate line, and compares the last line of its output.
fn ends(rt: &impl Abort, alloc: Global, lines: &[&[u8]], answer: &[u8]) -> Result<(), Fail> {
    let script = joined(alloc, lines)?;
    let (status, output) = ran(alloc, &["replay"], script.as_slice())?;
    assert_eq!(rt; status, 0);
    assert!(rt; output.as_slice().ends_with(answer));
    Ok(())
}

/// The packets of a calm boot from three blocks: the question and its answer, the request, three blocks with their ACKs, and three
/// calls with their replies.
const PACKETS: [&[u8]; 15] = [
    b"0", b"1", b"2", b"3", b"4", b"5", b"6", b"7", b"8", b"9", b"10", b"11", b"12", b"13", b"14",
];

const THREE_BLOCKS: &[u8] = b"tftp C0A80102 42*1100\nparams sparky root=boss:/export/root/sparky\n";

/// A boot from three blocks brings all of them, whatever becomes of any one packet.
fn boots_whatever_comes(rt: &impl Abort, alloc: Global, delays: &[u8]) -> Result<(), Fail> {
    for id in &PACKETS {
        let lines = [
            LIFE,
            MACHINES,
            THREE_BLOCKS,
            b"fate ",
            *id,
            b" ",
            delays,
            b"\nboot\n",
        ];
        ends(rt, alloc, &lines, b"\nboot unbuilt mnt program 42*1100\n")?;
    }
    Ok(())
}

/// Whatever a stranger sends to the client in a boot, it boots from the server's blocks.
#[test]
fn boots_though_a_stranger_sends_blocks(rt: HostRuntime) -> Result<(), Fail> {
    let forged = b"10.0.0.9:900 192.168.1.2:2048 000300014141\n";
    for tick in &PACKETS[1..] {
        let lines = [
            LIFE,
            MACHINES,
            THREE_BLOCKS,
            b"stranger ",
            *tick,
            b" ",
            forged,
            b"boot\n",
        ];
        ends(
            &rt,
            rt.alloc(),
            &lines,
            b"\nboot unbuilt mnt program 42*1100\n",
        )?;
    }
    Ok(())
}

/// 512 datagrams of a stranger, each of which comes eight times, are a flood in the client's first try.
#[test]
fn is_flooded_by_a_stranger(rt: HostRuntime) -> Result<(), Fail> {
    let mut script = joined(
        rt.alloc(),
        &[b"life 10\ntries 4\nwait 20", MACHINES, b"fate 0 none\n"],
    )?;
    for id in 1..513u64 {
        script.push_slice(b"fate ")?;
        push_number(rt.alloc(), &mut script, id)?;
        script.push_slice(b" 1 2 3 4 5 6 7 8\n")?;
    }
    for _ in 0..512 {
        script.push_slice(b"stranger 1 10.0.0.9:900 192.168.1.2:2048 00\n")?;
    }
    script.push_slice(b"addr\n")?;
    let (status, output) = ran(rt.alloc(), &["replay"], script.as_slice())?;
    assert_eq!(rt; status, 0);
    assert!(rt;
        output
            .as_slice()
            .ends_with(b"\ngot 9 512\naddr flood rarp\n")
    );
    Ok(())
}

#[test]
fn boots_though_a_packet_is_lost(rt: HostRuntime) -> Result<(), Fail> {
    boots_whatever_comes(&rt, rt.alloc(), b"none")
}

#[test]
fn boots_though_a_packet_is_repeated(rt: HostRuntime) -> Result<(), Fail> {
    boots_whatever_comes(&rt, rt.alloc(), b"1 1")
}

#[test]
fn boots_though_a_packet_comes_again_late(rt: HostRuntime) -> Result<(), Fail> {
    boots_whatever_comes(&rt, rt.alloc(), b"1 9")
}

#[test]
fn boots_though_a_packet_is_late(rt: HostRuntime) -> Result<(), Fail> {
    boots_whatever_comes(&rt, rt.alloc(), b"9")
}

/// Two requests come eight times each at tick 14.
const SIXTEEN_SESSIONS: &[u8] =
    b"tftp C0A80102 42*600\nparams sparky root=boss:/export/root/sparky\nfate 2 12 12 12 12 12 12 12 12\nfate 3 7 7 7 7 7 7 7 7\n";

#[test]
fn boots_from_the_first_of_sixteen_sessions(rt: HostRuntime) -> Result<(), Fail> {
    let lines = [
        LONG_LIFE,
        MACHINES,
        SIXTEEN_SESSIONS,
        b"fate 4 none\nboot\n",
    ];
    ends(
        &rt,
        rt.alloc(),
        &lines,
        b"\nboot unbuilt mnt program 42*600\n",
    )
}

/// The seventeenth session ends the first, whose port then knows no transfer.
#[test]
fn finds_the_oldest_session_ended(rt: HostRuntime) -> Result<(), Fail> {
    let lines = [LONG_LIFE, MACHINES, SIXTEEN_SESSIONS, b"fate 4 2\nboot\n"];
    ends(&rt, rt.alloc(), &lines, b"\nboot refused tftp 5\n")
}
