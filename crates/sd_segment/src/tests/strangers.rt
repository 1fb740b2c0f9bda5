//! Schedules with strangers and their records, in the form of the other schedules.

pub const STRANGERS: [(&[u8], &[u8], &[u8], &[u8]); 6] = [
    // strangers send first in their tick, and the packets go by their fates
    (
        b"10",
        b"stranger 1 10.0.0.9:900 192.168.1.1:9999 00\n",
        b"s w5",
        b"sent 0 0 Q;sent 1 1 udp 10.0.0.9:900 192.168.1.1:9999 00;served 1 0;sent 1 2 R;served 2 1;got 2 2;",
    ),
    (
        b"10",
        b"stranger 2 10.0.0.9:900 192.168.1.2:1021 0102\n",
        b"w5",
        b"sent 2 0 udp 10.0.0.9:900 192.168.1.2:1021 0102;got 3 0;",
    ),
    (
        b"10",
        b"fate 1 2 2\nstranger 1 10.0.0.9:900 192.168.1.2:5 01\nstranger 1 10.0.0.8:7 192.168.1.2:6 02\n",
        b"w5",
        b"sent 1 0 udp 10.0.0.9:900 192.168.1.2:5 01;sent 1 1 udp 10.0.0.8:7 192.168.1.2:6 02;got 2 0;got 3 1;got 3 1;",
    ),
    (
        b"10",
        b"stranger 3 10.0.0.9:900 192.168.1.2:5 01\nstranger 1 10.0.0.8:7 10.0.0.77:6 02\n",
        b"w5",
        b"sent 1 0 udp 10.0.0.8:7 10.0.0.77:6 02;sent 3 1 udp 10.0.0.9:900 192.168.1.2:5 01;got 4 1;",
    ),
    (
        b"10",
        b"stranger 6 10.0.0.9:900 192.168.1.2:5 01\n",
        b"w5",
        b"",
    ),
    // what the client didn't receive within its tick it gets before time goes on
    (
        b"10",
        b"stranger 1 10.0.0.9:900 192.168.1.2:5 01\nstranger 1 10.0.0.9:900 192.168.1.2:5 02\n",
        b"t5 t5",
        b"sent 1 0 udp 10.0.0.9:900 192.168.1.2:5 01;sent 1 1 udp 10.0.0.9:900 192.168.1.2:5 02;got 2 0;got 2 1;",
    ),
];
