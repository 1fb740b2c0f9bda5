//! Frames as they are on the wire, byte by byte, and answers by a table.

use sd_outside::Mac;
use sd_rarp::{RarpError, RarpFrame, answer, read_frame, write_frame};
use std::test::Fail;

const ALL: Mac = Mac([0xff; 6]);

const CLIENT: Mac = Mac([8, 0, 0x20, 1, 2, 3]);

const SERVER: Mac = Mac([8, 0, 0x20, 0, 0, 1]);
/// 192.168.1.1
const SERVER_IP: u32 = 0xc0a80101;
/// 192.168.1.2
const CLIENT_IP: u32 = 0xc0a80102;

const REQUEST: RarpFrame = RarpFrame::Request {
    dst: ALL,
    src: CLIENT,
    sender: CLIENT,
    target: CLIENT,
};

const REPLY: RarpFrame = RarpFrame::Reply {
    dst: CLIENT,
    src: SERVER,
    sender: SERVER,
    sender_ip: SERVER_IP,
    target: CLIENT,
    target_ip: CLIENT_IP,
};

const REQUEST_BYTES: [u8; 60] = [
    0xff, 0xff, 0xff, 0xff, 0xff, 0xff, 8, 0, 0x20, 1, 2, 3, 0x80, 0x35, 0, 1, 8, 0, 6, 4, 0, 3, 8,
    0, 0x20, 1, 2, 3, 0, 0, 0, 0, 8, 0, 0x20, 1, 2, 3, 0, 0, 0, 0, 0, 0, 0, 0, 0, 0, 0, 0, 0, 0, 0,
    0, 0, 0, 0, 0, 0, 0,
];

const REPLY_BYTES: [u8; 60] = [
    8, 0, 0x20, 1, 2, 3, 8, 0, 0x20, 0, 0, 1, 0x80, 0x35, 0, 1, 8, 0, 6, 4, 0, 4, 8, 0, 0x20, 0, 0,
    1, 192, 168, 1, 1, 8, 0, 0x20, 1, 2, 3, 192, 168, 1, 2, 0, 0, 0, 0, 0, 0, 0, 0, 0, 0, 0, 0, 0,
    0, 0, 0, 0, 0,
];

#[test]
fn writes_what_is_on_the_wire(rt: HostRuntime) {
    assert_eq!(rt; write_frame(&REQUEST), REQUEST_BYTES);
    assert_eq!(rt; write_frame(&REPLY), REPLY_BYTES);
    assert_eq!(rt; read_frame(&REPLY_BYTES), Ok(REPLY));
}

#[test]
fn reads_by_length(rt: HostRuntime) -> Result<(), Fail> {
    let mut bytes = vec![in rt.alloc(); 0; 1515]?;
    bytes[..60].copy_from_slice(&REQUEST_BYTES);
    let cases = [
        (0, Err(RarpError::Short { len: 0 })),
        (41, Err(RarpError::Short { len: 41 })),
        (42, Ok(REQUEST)),
        (1514, Ok(REQUEST)),
        (1515, Err(RarpError::Long { len: 1515 })),
    ];
    for (len, want) in cases {
        assert!(rt; len <= bytes.len());
        assert_eq!(rt; read_frame(&bytes[..len]), want, "{len} bytes");
    }
    Ok(())
}

#[test]
fn reads_by_field(rt: HostRuntime) {
    let cases = [
        (12, [0x08, 0x06], Err(RarpError::NotRarp { kind: 2054 })),
        (14, [0, 6], Err(RarpError::Shape { at: 14 })),
        (16, [8, 6], Err(RarpError::Shape { at: 16 })),
        (18, [8, 4], Err(RarpError::Shape { at: 18 })),
        (18, [6, 6], Err(RarpError::Shape { at: 19 })),
        (20, [0, 5], Err(RarpError::Shape { at: 20 })),
        (28, [1, 2], Ok(REQUEST)),
        (38, [1, 2], Ok(REQUEST)),
        (42, [1, 2], Ok(REQUEST)),
    ];
    for (at, two, want) in cases {
        assert!(rt; at < 59);
        let mut bytes = REQUEST_BYTES;
        bytes[at..at + 2].copy_from_slice(&two);
        assert_eq!(rt; read_frame(&bytes), want, "at {at}");
    }
}

#[test]
fn answers_by_the_first_entry(rt: HostRuntime) {
    let table = [(SERVER, SERVER_IP), (CLIENT, CLIENT_IP), (CLIENT, 7)];
    let me = (SERVER, SERVER_IP);
    assert_eq!(rt; answer(&table, me, &REQUEST), Some(REPLY));
    assert_eq!(rt; answer(&table, me, &REPLY), None);
    assert_eq!(rt; answer(&table[..1], me, &REQUEST), None);
}
