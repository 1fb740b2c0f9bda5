//! What `show` and `pack` write.

/// An input of a program, its status and its output.
#[derive(Clone, Copy)]
pub struct TextRow {
    pub word: &'static str,
    pub input: &'static [u8],
    pub status: u8,
    pub output: &'static [u8],
}

pub const TEXT_ROWS: [TextRow; 13] = [
    // No line.
    TextRow {
        word: "show",
        input: b"",
        status: 0,
        output: b"",
    },
    // One datagram.
    TextRow {
        word: "show",
        input: b"udp 192.168.1.2:1021 192.168.1.1:2049 00000007.00*7.02000186a300000002.00*20\n",
        status: 0,
        output: b"udp 192.168.1.2:1021 192.168.1.1:2049 call 7 nfs.null cred 0 - verf 0 -\n",
    },
    // A last line without its line feed.
    TextRow {
        word: "show",
        input: b"frame ff*6.08002001020380350001080006040003080020010203.00*4.080020010203.00*22\nudp 192.168.1.2:1021 192.168.1.1:2049 00000007.00*7.02000186a300000002.00*20",
        status: 0,
        output: b"rarp request dst=ffffffffffff src=080020010203 sender=080020010203 target=080020010203\nudp 192.168.1.2:1021 192.168.1.1:2049 call 7 nfs.null cred 0 - verf 0 -\n",
    },
    // A datagram without its last byte.
    TextRow {
        word: "show",
        input: b"udp 192.168.1.2:1021 192.168.1.1:2049 00000007.00*7.02000186a300000002.00*19\n",
        status: 1,
        output: b"refused line 1 short 36\n",
    },
    // A refused line behind another.
    TextRow {
        word: "show",
        input: b"udp 192.168.1.2:1021 192.168.1.1:2049 00000007.00*7.02000186a300000002.00*20\nudp 192.168.1.2:1021 192.168.1.1:2049 00000007.00*7.02000186a300000002.00*19\nudp 192.168.1.2:1021 192.168.1.1:2049 00000007.00*7.02000186a300000002.00*20\n",
        status: 1,
        output: b"udp 192.168.1.2:1021 192.168.1.1:2049 call 7 nfs.null cred 0 - verf 0 -\nrefused line 2 short 36\n",
    },
    // An empty line.
    TextRow {
        word: "show",
        input: b"udp 192.168.1.2:1021 192.168.1.1:2049 00000007.00*7.02000186a300000002.00*20\n\n",
        status: 1,
        output: b"udp 192.168.1.2:1021 192.168.1.1:2049 call 7 nfs.null cred 0 - verf 0 -\nrefused line 2 line 0\n",
    },
    // A text in place of a packet line.
    TextRow {
        word: "show",
        input: b"udp 192.168.1.2:1021 192.168.1.1:2049 call 7 nfs.null cred 0 - verf 0 -\n",
        status: 1,
        output: b"refused line 1 line 0\n",
    },
    // A reply by the latest call that it answers, which may have gone to all; one that answers none; a datagram of TFTP.
    TextRow {
        word: "show",
        input: b"udp 192.168.1.2:1021 192.168.1.1:111 00000009.00*7.02000186a000000002.00*20\nudp 192.168.1.2:1021 255.255.255.255:111 00000009.00*7.02000186a00000000200000003.00*17.0186a3000000020000001100000000\nudp 192.168.1.1:111 192.168.1.2:1021 0000000900000001.00*18.0801\nudp 192.168.1.1:111 192.168.1.3:1021 0000000900000001.00*18.0801\nudp 192.168.1.2:2048 192.168.1.1:69 00014330413830313032006f6374657400\n",
        status: 0,
        output: b"udp 192.168.1.2:1021 192.168.1.1:111 call 9 pmap.null cred 0 - verf 0 -\nudp 192.168.1.2:1021 255.255.255.255:111 call 9 pmap.getport prog=100003 vers=2 prot=17 port=0 cred 0 - verf 0 -\nudp 192.168.1.1:111 192.168.1.2:1021 reply 9 pmap.getport verf 0 - success port=2049\nudp 192.168.1.1:111 192.168.1.3:1021 reply 9 raw verf 0 - success 00000801\nudp 192.168.1.2:2048 192.168.1.1:69 tftp rrq \"C0A80102\" \"octet\"\n",
    },
    // The texts back.
    TextRow {
        word: "pack",
        input: b"udp 192.168.1.2:1021 192.168.1.1:2049 call 7 nfs.null cred 0 - verf 0 -\nrarp request dst=ffffffffffff src=080020010203 sender=080020010203 target=080020010203",
        status: 0,
        output: b"udp 192.168.1.2:1021 192.168.1.1:2049 00000007.00*7.02000186a300000002.00*20\nframe ff*6.08002001020380350001080006040003080020010203.00*4.080020010203.00*22\n",
    },
    // A byte run that is split in another way.
    TextRow {
        word: "pack",
        input: b"udp 192.168.1.2:1021 192.168.1.1:2049 call 7 100003/3/0 01.0203.04*2 cred 0 - verf 0 -\n",
        status: 0,
        output: b"udp 192.168.1.2:1021 192.168.1.1:2049 00000007.00*7.02000186a300000003.00*20.0102030404\n",
    },
    // A procedure that is known, by its numbers.
    TextRow {
        word: "pack",
        input: b"udp 192.168.1.2:1021 192.168.1.1:2049 call 7 100003/2/0 - cred 0 - verf 0 -\n",
        status: 1,
        output: b"refused line 1 line 0\n",
    },
    // A packet line in place of a text.
    TextRow {
        word: "pack",
        input: b"udp 192.168.1.2:1021 192.168.1.1:2049 call 7 nfs.null cred 0 - verf 0 -\nudp 192.168.1.2:1021 192.168.1.1:2049 00000007.00*7.02000186a300000002.00*20\n",
        status: 1,
        output: b"udp 192.168.1.2:1021 192.168.1.1:2049 00000007.00*7.02000186a300000002.00*20\nrefused line 2 line 0\n",
    },
    // A comment is no text.
    TextRow {
        word: "pack",
        input: b"# none\n",
        status: 1,
        output: b"refused line 1 line 0\n",
    },
];
