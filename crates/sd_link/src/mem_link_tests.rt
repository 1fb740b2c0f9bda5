//! A link in memory call by call.

use crate::{Link, LinkError, MemLink, PacketTimes};
use sd_outside::{ByteList, NoMemory, Packet};
use std::alloc::Global;
use std::test::Fail;

/// Frames of one byte each, with their ticks.
fn inbox_of(alloc: Global, frames: &[(u64, u8)]) -> Result<PacketTimes, NoMemory> {
    let mut inbox = PacketTimes::empty(alloc);
    for (tick, byte) in frames {
        inbox.push((*tick, Packet::Frame(ByteList::from_slice(alloc, &[*byte])?)))?;
    }
    Ok(inbox)
}

fn first_byte(packet: &Packet) -> Option<u8> {
    match packet {
        Packet::Frame(bytes) => bytes.as_slice().first().copied(),
        Packet::Udp { .. } => None,
    }
}

/// The byte of the frame that a receive gave, and the tick at which the link then stands.
fn receive<L: Link>(link: &mut L, until: u64) -> (Result<Option<u8>, LinkError>, u64) {
    let got = match link.recv(until) {
        Ok(Some(packet)) => Ok(first_byte(&packet)),
        Ok(None) => Ok(None),
        Err(why) => Err(why),
    };
    (got, link.now())
}

const LAST: u64 = 1 << 62;

#[test]
fn hands_out_each_packet_at_its_tick(rt: HostRuntime) -> Result<(), Fail> {
    let frames = [(3, b'a'), (3, b'b'), (9, b'c')];
    let failed = Err(LinkError::Failed);
    let rows = [
        (
            5,
            &[7, 2, 2],
            [
                (Ok(Some(b'a')), 3),
                (Ok(Some(b'b')), 3),
                (failed, 3),
                (Ok(None), 5),
            ],
        ),
        (
            2,
            &[7, 0, 1],
            [(failed, 0), (failed, 0), (Ok(None), 2), (Ok(None), 2)],
        ),
        (
            9,
            &[7, 8, 9],
            [
                (Ok(Some(b'a')), 3),
                (Ok(Some(b'b')), 3),
                (Ok(Some(b'c')), 9),
                (Ok(None), 9),
            ],
        ),
        (
            LAST + 1,
            &[7, 8, 9],
            [
                (Ok(Some(b'a')), 3),
                (Ok(Some(b'b')), 3),
                (Ok(Some(b'c')), 9),
                (failed, 9),
            ],
        ),
        (
            LAST,
            &[0, 0, 0],
            [
                (failed, 0),
                (Ok(Some(b'a')), 3),
                (Ok(Some(b'b')), 3),
                (Ok(Some(b'c')), 9),
            ],
        ),
    ];
    for (until, fail, gives) in rows {
        let mut link = MemLink::new(rt.alloc(), inbox_of(rt.alloc(), &frames)?, fail.as_slice())?;
        for given in gives {
            assert_eq!(rt; receive(&mut link, until), given, "until {until}");
        }
    }
    Ok(())
}

#[test]
fn takes_what_is_sent(rt: HostRuntime) -> Result<(), Fail> {
    let mut link = MemLink::new(rt.alloc(), inbox_of(rt.alloc(), &[(LAST + 1, b'a')])?, &[1])?;
    let packet = Packet::Frame(ByteList::empty(rt.alloc()));
    assert_eq!(rt; link.send(&packet), Ok(()));
    assert_eq!(rt; link.send(&packet), Err(LinkError::Failed));
    assert_eq!(rt; link.send(&packet), Ok(()));
    assert_eq!(rt; receive(&mut link, LAST), (Ok(None), LAST));
    assert_eq!(rt;
        receive(&mut link, LAST + 2),
        (Err(LinkError::Failed), LAST)
    );

    let mut text = ByteList::from_slice(rt.alloc(), b"before")?;
    assert_eq!(rt; link.drain(&mut text), Ok(()));
    assert_eq!(rt; text.as_slice(), b"before".as_slice());
    Ok(())
}
