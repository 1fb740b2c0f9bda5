//! Lines of strangers.

use crate::scripts::{refused, with_line};
use sd_outside::Addr;
use sd_script::read_script;
use std::test::Fail;

#[test]
fn reads_what_strangers_send(rt: HostRuntime) -> Result<(), Fail> {
    let more = b"stranger 4294967295 10.0.0.9:900 192.168.1.2:2048 000300014141\n";
    let text = with_line(&rt, 0, b"", more)?;
    let Ok(script) = read_script(rt.alloc(), text.as_slice()) else {
        assert!(rt; false, "refused");
        return Ok(());
    };
    match script.events.strangers.as_slice() {
        [stranger] => {
            assert_eq!(rt; stranger.tick, 4_294_967_295);
            assert_eq!(rt;
                stranger.src,
                Addr {
                    ip: 0x0a00_0009,
                    port: 900
                }
            );
            assert_eq!(rt;
                stranger.dst,
                Addr {
                    ip: 0xc0a8_0102,
                    port: 2048
                }
            );
            assert_eq!(rt; stranger.body.as_slice(), b"\x00\x03\x00\x01AA".as_slice());
        }
        _ => assert!(rt; false, "other strangers"),
    }
    Ok(())
}

/// What follows the heading, with the number of the refused line, or none.
const AFTER: [(&[u8], Option<u64>); 29] = [
    (b"stranger 1 10.0.0.9:900 192.168.1.2:2048 00\naddr\n", None),
    (b"stranger 0 10.0.0.9:900 192.168.1.2:2048 00\n", Some(7)),
    (
        b"stranger 4294967296 10.0.0.9:900 192.168.1.2:2048 00\n",
        Some(7),
    ),
    (b"stranger 01 10.0.0.9:900 192.168.1.2:2048 00\n", Some(7)),
    // From either end's address, and from the portmapper's port.
    (b"stranger 1 192.168.1.1:900 192.168.1.2:2048 00\n", Some(7)),
    (b"stranger 1 192.168.1.2:900 192.168.1.1:111 00\n", Some(7)),
    (b"stranger 1 10.0.0.9:111 192.168.1.1:111 00\n", Some(7)),
    (b"stranger 1 10.0.0.9:0 192.168.1.1:0 00\n", None),
    (b"stranger 1 10.0.0.9:65535 192.168.1.1:65535 00\n", None),
    (b"stranger 1 10.0.0.9:65536 192.168.1.1:111 00\n", Some(7)),
    (b"stranger 1 10.0.0.9 192.168.1.1:111 00\n", Some(7)),
    (b"stranger 1 10.0.0.9:900 192.168.1.1 00\n", Some(7)),
    (b"stranger 1 10.0.0.256:900 192.168.1.1:111 00\n", Some(7)),
    // To everyone, to nobody, from everyone.
    (b"stranger 1 10.0.0.9:900 255.255.255.255:111 00\n", None),
    (b"stranger 1 10.0.0.9:900 10.0.0.10:1 00\n", None),
    (b"stranger 1 255.255.255.255:900 192.168.1.1:111 00\n", None),
    // A frame, no body, bodies at the limit and past it.
    (b"stranger 1 frame 00*60\n", Some(7)),
    (b"stranger 1 10.0.0.9:900 192.168.1.1:111\n", Some(7)),
    (b"stranger 1 10.0.0.9:900 192.168.1.1:111 \n", Some(7)),
    (b"stranger 1 10.0.0.9:900 192.168.1.1:111 -\n", None),
    (b"stranger 1 10.0.0.9:900 192.168.1.1:111 00*9216\n", None),
    (
        b"stranger 1 10.0.0.9:900 192.168.1.1:111 00*9217\n",
        Some(7),
    ),
    (b"stranger 1 10.0.0.9:900 192.168.1.1:111 00 00\n", Some(7)),
    (b"stranger 1\n", Some(7)),
    (b"stranger\n", Some(7)),
    // The same line twice.
    (
        b"stranger 1 10.0.0.9:9 10.0.0.10:1 00\nstranger 1 10.0.0.9:9 10.0.0.10:1 00\n",
        None,
    ),
    (
        b"fate 3 1\nstranger 1 10.0.0.9:9 10.0.0.10:1 00\nfate 4 1\naddr\n",
        None,
    ),
    (b"addr\nstranger 1 10.0.0.9:9 10.0.0.10:1 00\n", Some(8)),
    (
        b"stranger 1 10.0.0.9:9 10.0.0.10:1 00\narch sun2\n",
        Some(8),
    ),
];

#[test]
fn judges_lines_of_strangers(rt: HostRuntime) -> Result<(), Fail> {
    for (more, wanted) in AFTER {
        let text = with_line(&rt, 0, b"", more)?;
        assert_eq!(rt; refused(&rt, text.as_slice())?, wanted);
    }
    Ok(())
}

#[test]
fn takes_4096_lines_of_strangers(rt: HostRuntime) -> Result<(), Fail> {
    let mut text = with_line(&rt, 0, b"", b"")?;
    for _ in 0..4_096 {
        text.push_slice(b"stranger 1 10.0.0.9:900 192.168.1.1:111 00\n")?;
    }
    assert_eq!(rt; refused(&rt, text.as_slice())?, None);
    text.push_slice(b"stranger 1 10.0.0.9:900 192.168.1.1:111 00\n")?;
    assert_eq!(rt; refused(&rt, text.as_slice())?, Some(4_103));
    Ok(())
}
