//! Schedules and their records, worked out by hand from the rules: a packet comes at each tick that its fate says, in a
//! tick the server is given all before the client gets anything, both in order of id, and each reply takes the next id.
//!
//! A row has the life, the event lines, the client's acts and the record. The acts are `s` (it sends a request), `n` (a
//! frame that is no request), `d` (a datagram to the server), `b` (one to all), `a` (one to nobody), `tN` (it receives
//! once within N ticks), `wN` (it receives all that comes within N ticks). In the record `;` stands for a line feed, `Q` and `R` for a request and its reply, and `N`, `D`, `B` and `A` for the others.

pub const SCHEDULES: [(&[u8], &[u8], &[u8], &[u8]); 56] = [
    // calm
    (b"10", b"", b"w100", b""),
    (b"10", b"", b"s w0", b"sent 0 0 Q;"),
    (b"10", b"", b"s w1", b"sent 0 0 Q;served 1 0;sent 1 1 R;"),
    (
        b"10",
        b"",
        b"s w5",
        b"sent 0 0 Q;served 1 0;sent 1 1 R;got 2 1;",
    ),
    (
        b"10",
        b"",
        b"s w1 w1",
        b"sent 0 0 Q;served 1 0;sent 1 1 R;got 2 1;",
    ),
    (
        b"10",
        b"",
        b"s s w5",
        b"sent 0 0 Q;sent 0 1 Q;served 1 0;sent 1 2 R;served 1 1;sent 1 3 R;got 2 2;got 2 3;",
    ),
    (
        b"10",
        b"",
        b"s w1 s w5",
        b"sent 0 0 Q;served 1 0;sent 1 1 R;sent 1 2 Q;served 2 2;sent 2 3 R;got 2 1;got 3 3;",
    ),
    (
        b"10",
        b"",
        b"s t5 s t5",
        b"sent 0 0 Q;served 1 0;sent 1 1 R;got 2 1;sent 2 2 Q;served 3 2;sent 3 3 R;got 4 3;",
    ),
    (
        b"10",
        b"fate 7 none\n",
        b"s w5",
        b"sent 0 0 Q;served 1 0;sent 1 1 R;got 2 1;",
    ),
    // other packets
    (b"10", b"", b"n w5", b"sent 0 0 N;served 1 0;"),
    (b"10", b"", b"d w5", b"sent 0 0 D;served 1 0;"),
    (b"10", b"", b"b w5", b"sent 0 0 B;served 1 0;"),
    (b"10", b"", b"a w9", b"sent 0 0 A;"),
    (
        b"10",
        b"fate 0 2 1\n",
        b"a s w5",
        b"sent 0 0 A;sent 0 1 Q;served 1 1;sent 1 2 R;got 2 2;",
    ),
    (
        b"10",
        b"fate 1 1 3\n",
        b"s n w5",
        b"sent 0 0 Q;sent 0 1 N;served 1 0;sent 1 2 R;served 1 1;got 2 2;served 3 1;",
    ),
    // lost
    (b"10", b"fate 0 none\n", b"s w5", b"sent 0 0 Q;"),
    (
        b"10",
        b"fate 1 none\n",
        b"s w5",
        b"sent 0 0 Q;served 1 0;sent 1 1 R;",
    ),
    (
        b"10",
        b"fate 0 none\n",
        b"s w5 s w5",
        b"sent 0 0 Q;sent 5 1 Q;served 6 1;sent 6 2 R;got 7 2;",
    ),
    (
        b"10",
        b"fate 1 none\n",
        b"s w5 s w5",
        b"sent 0 0 Q;served 1 0;sent 1 1 R;sent 5 2 Q;served 6 2;sent 6 3 R;got 7 3;",
    ),
    (
        b"10",
        b"fate 0 none\nfate 1 none\nfate 2 none\nfate 3 none\n",
        b"s w5 s w5 s w5 s w5",
        b"sent 0 0 Q;sent 5 1 Q;sent 10 2 Q;sent 15 3 Q;",
    ),
    (
        b"10",
        b"fate 1 none\n",
        b"s s s w5",
        b"sent 0 0 Q;sent 0 1 Q;sent 0 2 Q;served 1 0;sent 1 3 R;served 1 2;sent 1 4 R;got 2 3;got 2 4;",
    ),
    // late
    (b"10", b"fate 0 9\n", b"s w8", b"sent 0 0 Q;"),
    (
        b"10",
        b"fate 0 9\n",
        b"s w9",
        b"sent 0 0 Q;served 9 0;sent 9 1 R;",
    ),
    (
        b"10",
        b"fate 0 9\n",
        b"s w10",
        b"sent 0 0 Q;served 9 0;sent 9 1 R;got 10 1;",
    ),
    (
        b"10",
        b"fate 1 9\n",
        b"s w9",
        b"sent 0 0 Q;served 1 0;sent 1 1 R;",
    ),
    (
        b"10",
        b"fate 1 9\n",
        b"s w10",
        b"sent 0 0 Q;served 1 0;sent 1 1 R;got 10 1;",
    ),
    (
        b"10",
        b"fate 0 9\nfate 1 9\n",
        b"s w17",
        b"sent 0 0 Q;served 9 0;sent 9 1 R;",
    ),
    (
        b"10",
        b"fate 0 9\nfate 1 9\n",
        b"s w18",
        b"sent 0 0 Q;served 9 0;sent 9 1 R;got 18 1;",
    ),
    (
        b"10000",
        b"fate 0 9999\n",
        b"s w10001",
        b"sent 0 0 Q;served 9999 0;sent 9999 1 R;got 10000 1;",
    ),
    (
        b"10",
        b"fate 1 4\n",
        b"s w5",
        b"sent 0 0 Q;served 1 0;sent 1 1 R;got 5 1;",
    ),
    (
        b"10",
        b"fate 1 5\n",
        b"s w5",
        b"sent 0 0 Q;served 1 0;sent 1 1 R;",
    ),
    (
        b"10",
        b"fate 1 5\n",
        b"s w5 w1",
        b"sent 0 0 Q;served 1 0;sent 1 1 R;got 6 1;",
    ),
    (
        b"10",
        b"fate 0 7\n",
        b"s w5 s w5",
        b"sent 0 0 Q;sent 5 1 Q;served 6 1;sent 6 2 R;served 7 0;sent 7 3 R;got 7 2;got 8 3;",
    ),
    (
        b"10",
        b"fate 0 5\n",
        b"s w5 s w5",
        b"sent 0 0 Q;served 5 0;sent 5 1 R;sent 5 2 Q;served 6 2;sent 6 3 R;got 6 1;got 7 3;",
    ),
    (
        b"10",
        b"fate 1 8\n",
        b"s w5 s w5",
        b"sent 0 0 Q;served 1 0;sent 1 1 R;sent 5 2 Q;served 6 2;sent 6 3 R;got 7 3;got 9 1;",
    ),
    // repeated
    (
        b"10",
        b"fate 0 1 3\n",
        b"s w5",
        b"sent 0 0 Q;served 1 0;sent 1 1 R;got 2 1;served 3 0;sent 3 2 R;got 4 2;",
    ),
    (
        b"10",
        b"fate 0 3 1\n",
        b"s w5",
        b"sent 0 0 Q;served 1 0;sent 1 1 R;got 2 1;served 3 0;sent 3 2 R;got 4 2;",
    ),
    (
        b"10",
        b"fate 0 2 2\n",
        b"s w5",
        b"sent 0 0 Q;served 2 0;sent 2 1 R;served 2 0;sent 2 2 R;got 3 1;got 3 2;",
    ),
    (
        b"2",
        b"fate 0 1 1\n",
        b"s w5",
        b"sent 0 0 Q;served 1 0;sent 1 1 R;served 1 0;sent 1 2 R;got 2 1;got 2 2;",
    ),
    (
        b"10",
        b"fate 0 1 9\n",
        b"s w10",
        b"sent 0 0 Q;served 1 0;sent 1 1 R;got 2 1;served 9 0;sent 9 2 R;got 10 2;",
    ),
    (
        b"10",
        b"fate 1 1 3\n",
        b"s w5",
        b"sent 0 0 Q;served 1 0;sent 1 1 R;got 2 1;got 4 1;",
    ),
    (
        b"10",
        b"fate 1 2 2\n",
        b"s w5",
        b"sent 0 0 Q;served 1 0;sent 1 1 R;got 3 1;got 3 1;",
    ),
    (
        b"10",
        b"fate 1 1 2 3 4 5 6 7 8\n",
        b"s w9",
        b"sent 0 0 Q;served 1 0;sent 1 1 R;got 2 1;got 3 1;got 4 1;got 5 1;got 6 1;got 7 1;got 8 1;got 9 1;",
    ),
    (
        b"10",
        b"fate 1 4 4 4 4 4 4 4 4\n",
        b"s w5",
        b"sent 0 0 Q;served 1 0;sent 1 1 R;got 5 1;got 5 1;got 5 1;got 5 1;got 5 1;got 5 1;got 5 1;got 5 1;",
    ),
    (
        b"10",
        b"fate 1 1 1\n",
        b"s t5",
        b"sent 0 0 Q;served 1 0;sent 1 1 R;got 2 1;",
    ),
    (
        b"10",
        b"fate 1 1 1\n",
        b"s t5 w0",
        b"sent 0 0 Q;served 1 0;sent 1 1 R;got 2 1;got 2 1;",
    ),
    (
        b"10",
        b"fate 1 1 1\n",
        b"s t5 s w5",
        b"sent 0 0 Q;served 1 0;sent 1 1 R;got 2 1;sent 2 2 Q;got 2 1;served 3 2;sent 3 3 R;got 4 3;",
    ),
    (
        b"10",
        b"fate 0 1 2\nfate 1 1 2\nfate 2 1 2\n",
        b"s w5",
        b"sent 0 0 Q;served 1 0;sent 1 1 R;served 2 0;sent 2 2 R;got 2 1;got 3 1;got 3 2;got 4 2;",
    ),
    // reordered
    (
        b"10",
        b"fate 0 2\n",
        b"s s w5",
        b"sent 0 0 Q;sent 0 1 Q;served 1 1;sent 1 2 R;served 2 0;sent 2 3 R;got 2 2;got 3 3;",
    ),
    (
        b"10",
        b"fate 0 3\n",
        b"s w2 s w5",
        b"sent 0 0 Q;sent 2 1 Q;served 3 0;sent 3 2 R;served 3 1;sent 3 3 R;got 4 2;got 4 3;",
    ),
    (
        b"10",
        b"fate 2 3\nfate 3 1\n",
        b"s s w5",
        b"sent 0 0 Q;sent 0 1 Q;served 1 0;sent 1 2 R;served 1 1;sent 1 3 R;got 2 3;got 4 2;",
    ),
    (
        b"10",
        b"fate 0 3\nfate 1 2\nfate 2 1\n",
        b"s s s w5",
        b"sent 0 0 Q;sent 0 1 Q;sent 0 2 Q;served 1 2;sent 1 3 R;served 2 1;sent 2 4 R;got 2 3;served 3 0;sent 3 5 R;got 3 4;got 4 5;",
    ),
    (
        b"10",
        b"fate 3 2\nfate 4 2\nfate 5 1 2\n",
        b"s s s w5",
        b"sent 0 0 Q;sent 0 1 Q;sent 0 2 Q;served 1 0;sent 1 3 R;served 1 1;sent 1 4 R;served 1 2;sent 1 5 R;got 2 5;got 3 3;got 3 4;got 3 5;",
    ),
    (
        b"10",
        b"fate 0 2 2\nfate 1 2\n",
        b"s s w5",
        b"sent 0 0 Q;sent 0 1 Q;served 2 0;sent 2 2 R;served 2 0;sent 2 3 R;served 2 1;sent 2 4 R;got 3 2;got 3 3;got 3 4;",
    ),
    (
        b"10",
        b"fate 0 6 1\nfate 1 none\n",
        b"s w5 s w5",
        b"sent 0 0 Q;served 1 0;sent 1 1 R;sent 5 2 Q;served 6 0;sent 6 3 R;served 6 2;sent 6 4 R;got 7 3;got 7 4;",
    ),
    (
        b"10",
        b"fate 1 6\n",
        b"s w5 s w5",
        b"sent 0 0 Q;served 1 0;sent 1 1 R;sent 5 2 Q;served 6 2;sent 6 3 R;got 7 1;got 7 3;",
    ),
];
