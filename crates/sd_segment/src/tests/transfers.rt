//! Transfers by TFTP and their records, worked out by hand from the rules: a session's block is sent again five ticks after it
//! was sent last, four times in all; in a tick the server is given all before its sessions send again.
//!
//! A row has the event lines, the client's acts and the record. The acts are packets, `tN` (the client receives once within N
//! ticks) and `wN` (it receives all that comes within N ticks). `;` stands for a line feed, `C` begins a datagram to a port of
//! the server, `S` one from a port of the server, and `T` ends its heading.

const FILE: &[u8] = b"tftp A 42*600\n";

pub const TRANSFERS: [(&[u8], &[u8], &[u8]); 21] = [
    // a file of two blocks, and the session's end
    (
        FILE,
        b"C69 000141006f6374657400,t5,C4096 00040001,t5,C4096 00040002,w9",
        b"sent 0 0 C69 000141006f6374657400;served 1 0;sent 1 1 S4096T00030001.42*512;got 2 1;sent 2 2 C4096 00040001;served 3 2;sent 3 3 S4096T00030002.42*88;got 4 3;sent 4 4 C4096 00040002;served 5 4;",
    ),
    // four sends, and the session ends
    (
        FILE,
        b"C69 000141006f6374657400,w40",
        b"sent 0 0 C69 000141006f6374657400;served 1 0;sent 1 1 S4096T00030001.42*512;got 2 1;sent 6 2 S4096T00030001.42*512;got 7 2;sent 11 3 S4096T00030001.42*512;got 12 3;sent 16 4 S4096T00030001.42*512;got 17 4;",
    ),
    // an ACK at the tick at which it would end comes first
    (
        FILE,
        b"C69 000141006f6374657400,w20,C4096 00040001,w5",
        b"sent 0 0 C69 000141006f6374657400;served 1 0;sent 1 1 S4096T00030001.42*512;got 2 1;sent 6 2 S4096T00030001.42*512;got 7 2;sent 11 3 S4096T00030001.42*512;got 12 3;sent 16 4 S4096T00030001.42*512;got 17 4;sent 20 5 C4096 00040001;served 21 5;sent 21 6 S4096T00030002.42*88;got 22 6;",
    ),
    // one tick later its port knows no transfer
    (
        FILE,
        b"C69 000141006f6374657400,w21,C4096 00040001,w5",
        b"sent 0 0 C69 000141006f6374657400;served 1 0;sent 1 1 S4096T00030001.42*512;got 2 1;sent 6 2 S4096T00030001.42*512;got 7 2;sent 11 3 S4096T00030001.42*512;got 12 3;sent 16 4 S4096T00030001.42*512;got 17 4;sent 21 5 C4096 00040001;served 22 5;sent 22 6 S4096T0005000500;got 23 6;",
    ),
    // an ACK at the tick at which the block is due comes first
    (
        FILE,
        b"C69 000141006f6374657400,w5,C4096 00040001,w3",
        b"sent 0 0 C69 000141006f6374657400;served 1 0;sent 1 1 S4096T00030001.42*512;got 2 1;sent 5 2 C4096 00040001;served 6 2;sent 6 3 S4096T00030002.42*88;got 7 3;",
    ),
    // an ACK of the block before is ignored
    (
        FILE,
        b"C69 000141006f6374657400,t5,C4096 00040001,t5,C4096 00040001,w3",
        b"sent 0 0 C69 000141006f6374657400;served 1 0;sent 1 1 S4096T00030001.42*512;got 2 1;sent 2 2 C4096 00040001;served 3 2;sent 3 3 S4096T00030002.42*88;got 4 3;sent 4 4 C4096 00040001;served 5 4;",
    ),
    // so is one of the next
    (
        FILE,
        b"C69 000141006f6374657400,t5,C4096 00040002,w3",
        b"sent 0 0 C69 000141006f6374657400;served 1 0;sent 1 1 S4096T00030001.42*512;got 2 1;sent 2 2 C4096 00040002;served 3 2;",
    ),
    // an ERROR ends the session
    (
        FILE,
        b"C69 000141006f6374657400,t5,C4096 0005000000,w9",
        b"sent 0 0 C69 000141006f6374657400;served 1 0;sent 1 1 S4096T00030001.42*512;got 2 1;sent 2 2 C4096 0005000000;served 3 2;",
    ),
    // a request at a session's port is ignored, where it comes from the peer
    (
        FILE,
        b"C69 000141006f6374657400,t5,C4096 000141006f6374657400,w3",
        b"sent 0 0 C69 000141006f6374657400;served 1 0;sent 1 1 S4096T00030001.42*512;got 2 1;sent 2 2 C4096 000141006f6374657400;served 3 2;",
    ),
    // an ACK of another peer gets an ERROR, and the session goes on
    (
        FILE,
        b"C69 000141006f6374657400,t5,udp 192.168.1.2:2049 192.168.1.1:4096 00040001,w5",
        b"sent 0 0 C69 000141006f6374657400;served 1 0;sent 1 1 S4096T00030001.42*512;got 2 1;sent 2 2 udp 192.168.1.2:2049 192.168.1.1:4096 00040001;served 3 2;sent 3 3 udp 192.168.1.1:4096 192.168.1.2:2049 0005000500;got 4 3;sent 6 4 S4096T00030001.42*512;got 7 4;",
    ),
    // an ERROR of another peer is ignored
    (
        FILE,
        b"C69 000141006f6374657400,t5,udp 192.168.1.2:2049 192.168.1.1:4096 0005000000,w5",
        b"sent 0 0 C69 000141006f6374657400;served 1 0;sent 1 1 S4096T00030001.42*512;got 2 1;sent 2 2 udp 192.168.1.2:2049 192.168.1.1:4096 0005000000;served 3 2;sent 6 3 S4096T00030001.42*512;got 7 3;",
    ),
    // sessions send again in order of their numbers
    (
        FILE,
        b"C69 000141006f6374657400,udp 192.168.1.2:2049 192.168.1.1:69 000141006f6374657400,w7",
        b"sent 0 0 C69 000141006f6374657400;sent 0 1 udp 192.168.1.2:2049 192.168.1.1:69 000141006f6374657400;served 1 0;sent 1 2 S4096T00030001.42*512;served 1 1;sent 1 3 udp 192.168.1.1:4097 192.168.1.2:2049 00030001.42*512;got 2 2;got 2 3;sent 6 4 S4096T00030001.42*512;sent 6 5 udp 192.168.1.1:4097 192.168.1.2:2049 00030001.42*512;got 7 4;got 7 5;",
    ),
    // a request that comes twice makes two sessions
    (
        b"tftp A 42*600\nfate 0 1 2\n",
        b"C69 000141006f6374657400,w5",
        b"sent 0 0 C69 000141006f6374657400;served 1 0;sent 1 1 S4096T00030001.42*512;served 2 0;sent 2 2 S4097T00030001.42*512;got 2 1;got 3 2;",
    ),
    // the mode's letters are of either case
    (
        FILE,
        b"C69 000141004f4354455400,w5",
        b"sent 0 0 C69 000141004f4354455400;served 1 0;sent 1 1 S4096T00030001.42*512;got 2 1;",
    ),
    // another mode, of a name that is there or not
    (
        FILE,
        b"C69 000141006e6574617363696900,w5",
        b"sent 0 0 C69 000141006e6574617363696900;served 1 0;sent 1 1 S69T0005000400;got 2 1;",
    ),
    (
        FILE,
        b"C69 000142006e6574617363696900,w5",
        b"sent 0 0 C69 000142006e6574617363696900;served 1 0;sent 1 1 S69T0005000400;got 2 1;",
    ),
    // another name
    (
        FILE,
        b"C69 000161006f6374657400,w5",
        b"sent 0 0 C69 000161006f6374657400;served 1 0;sent 1 1 S69T0005000100;got 2 1;",
    ),
    // a request to write
    (
        FILE,
        b"C69 000241006f6374657400,w5",
        b"sent 0 0 C69 000241006f6374657400;served 1 0;sent 1 1 S69T0005000200;got 2 1;",
    ),
    // what is no request is ignored at the port for requests, and so is what doesn't read
    (
        FILE,
        b"C69 00040001,C69 0005000000,C69 ff,w5",
        b"sent 0 0 C69 00040001;sent 0 1 C69 0005000000;sent 0 2 C69 ff;served 1 0;served 1 1;served 1 2;",
    ),
    // a session's port may be the first to the last of 4,096
    (
        FILE,
        b"C4095 00040001,C4096 00040001,C8191 00040001,C8192 00040001,C8191 ff,w5",
        b"sent 0 0 C4095 00040001;sent 0 1 C4096 00040001;sent 0 2 C8191 00040001;sent 0 3 C8192 00040001;sent 0 4 C8191 ff;served 1 0;served 1 1;sent 1 5 S4096T0005000500;served 1 2;sent 1 6 S8191T0005000500;served 1 3;served 1 4;got 2 5;got 2 6;",
    ),
    // a request to everyone is ignored
    (
        FILE,
        b"udp 192.168.1.2:2048 255.255.255.255:69 000141006f6374657400,w5",
        b"sent 0 0 udp 192.168.1.2:2048 255.255.255.255:69 000141006f6374657400;served 1 0;",
    ),
];
