//! Schedules with planned faults and their records, in the form of the other schedules. An act behind `x` fails.

pub const FAULTS: [(&[u8], &[u8], &[u8], &[u8]); 9] = [
    // a packet whose send fails goes by its fate all the same
    (
        b"10",
        b"fault send 0\n",
        b"xs w5",
        b"sent 0 0 Q;failed 0;served 1 0;sent 1 1 R;got 2 1;",
    ),
    (
        b"10",
        b"fate 0 none\nfault send 0\n",
        b"xs w5",
        b"sent 0 0 Q;failed 0;",
    ),
    (
        b"10",
        b"fault send 2\nfault send 2\n",
        b"s w5 xs w5",
        b"sent 0 0 Q;served 1 0;sent 1 1 R;got 2 1;sent 5 2 Q;failed 5;served 6 2;sent 6 3 R;got 7 3;",
    ),
    // a packet of the server is no packet that the client sends
    (
        b"10",
        b"fault send 1\n",
        b"s w5",
        b"sent 0 0 Q;served 1 0;sent 1 1 R;got 2 1;",
    ),
    // a receive fails before time goes on, and is counted
    (
        b"10",
        b"fault recv 0\n",
        b"s xt5 w5",
        b"sent 0 0 Q;failed 0;served 1 0;sent 1 1 R;got 2 1;",
    ),
    (
        b"10",
        b"fault recv 1\nfault recv 0\n",
        b"s xt5 xt5 w5",
        b"sent 0 0 Q;failed 0;failed 0;served 1 0;sent 1 1 R;got 2 1;",
    ),
    // one that gets nothing is counted too
    (
        b"10",
        b"fault recv 2\n",
        b"s w5 xt1 w1",
        b"sent 0 0 Q;served 1 0;sent 1 1 R;got 2 1;failed 5;",
    ),
    // what waits goes on waiting
    (
        b"10",
        b"fate 1 1 1\nfault recv 1\n",
        b"s t5 xt5 t5",
        b"sent 0 0 Q;served 1 0;sent 1 1 R;got 2 1;failed 2;got 2 1;",
    ),
    // strangers' packets and a failing receive
    (
        b"10",
        b"stranger 1 10.0.0.9:900 192.168.1.2:5 01\nfault recv 1\nfault send 0\n",
        b"t1 xt5 t5",
        b"sent 1 0 udp 10.0.0.9:900 192.168.1.2:5 01;failed 1;got 2 0;",
    ),
];
