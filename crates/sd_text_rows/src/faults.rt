//! Lines of planned faults of the client's network.

use crate::scripts::{refused, with_line};
use sd_config::PlannedFault;
use sd_script::read_script;
use std::test::Fail;

#[test]
fn reads_what_fails(rt: HostRuntime) -> Result<(), Fail> {
    let more = b"fault recv 0\nfault send 4294967295\nfault recv 0\n";
    let text = with_line(&rt, 0, b"", more)?;
    let Ok(script) = read_script(rt.alloc(), text.as_slice()) else {
        assert!(rt; false, "refused");
        return Ok(());
    };
    let faults = [
        PlannedFault::Recv { call: 0 },
        PlannedFault::Send { id: 4_294_967_295 },
        PlannedFault::Recv { call: 0 },
    ];
    assert_eq!(rt; script.events.faults.as_slice(), faults.as_slice());
    Ok(())
}

/// What follows the heading, with the number of the refused line, or none.
const AFTER: [(&[u8], Option<u64>); 27] = [
    (b"fault send 0\naddr\n", None),
    (b"fault recv 0\naddr\n", None),
    (b"fault send 4294967295\n", None),
    (b"fault recv 4294967295\n", None),
    (b"fault send 4294967296\n", Some(7)),
    (b"fault recv 4294967296\n", Some(7)),
    (b"fault send 18446744073709551616\n", Some(7)),
    (b"fault recv 01\n", Some(7)),
    (b"fault recv -1\n", Some(7)),
    // Too few fields, or too many.
    (b"fault\n", Some(7)),
    (b"fault recv\n", Some(7)),
    (b"fault recv \n", Some(7)),
    (b"fault 1\n", Some(7)),
    (b"fault recv 1 2\n", Some(7)),
    (b"fault recv 1 \n", Some(7)),
    (b"fault  recv 1\n", Some(7)),
    // Other words.
    (b"fault Recv 1\n", Some(7)),
    (b"fault receive 1\n", Some(7)),
    (b"fault sends 1\n", Some(7)),
    // The server's disk has no planned faults yet, and the server no crashes.
    (b"fault disk 0\n", Some(7)),
    (b"fault read 0\n", Some(7)),
    (b"crash 0 1 0 0\n", Some(7)),
    // The same line several times.
    (b"fault send 0\nfault send 0\n", None),
    (b"fault recv 0\nfault recv 0\nfault recv 0\n", None),
    // Among other event lines, and not elsewhere.
    (
        b"fate 3 1\nfault recv 1\nstranger 1 10.0.0.9:9 10.0.0.10:1 00\nfault send 1\nfate 4 1\naddr\n",
        None,
    ),
    (b"addr\nfault recv 0\n", Some(8)),
    (b"fault recv 0\narch sun2\n", Some(8)),
];

#[test]
fn judges_lines_of_faults(rt: HostRuntime) -> Result<(), Fail> {
    for (more, wanted) in AFTER {
        let text = with_line(&rt, 0, b"", more)?;
        assert_eq!(rt; refused(&rt, text.as_slice())?, wanted);
    }
    Ok(())
}
