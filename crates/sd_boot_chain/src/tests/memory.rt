//! Boots over a link in memory: true replies up to GETPORT, and then the row's.

use super::calls::{Asked, reply, results};
use super::{CLIENT_IP, HEAD, SERVER_IP, from_server, rarp_reply};
use crate::session;
use sd_link::{MemLink, PacketTimes};
use sd_outside::{Addr, ByteList, CalmSink, NoMemory, Packet};
use sd_script::read_script;
use std::alloc::Global;
use std::process::Abort;
use std::test::Fail;

/// The client, as its fetches and its calls leave it.
const FETCHING: Addr = Addr {
    ip: CLIENT_IP,
    port: 2048,
};

const CALLING: Addr = Addr {
    ip: CLIENT_IP,
    port: 1021,
};

const PORTMAPPER: Addr = Addr {
    ip: SERVER_IP,
    port: 111,
};

/// The reply to the call with this number.
fn told(alloc: Global, xid: u8, asked: Asked) -> Result<Packet, NoMemory> {
    let bytes = results(alloc, asked, 700)?;
    reply(alloc, CALLING, &[0, 0, 0, xid], 0, 0, bytes.as_slice())
}

/// What comes before GETPORT is answered: the address, a program of three bytes, the name and the root.
fn before_getport(alloc: Global) -> Result<PacketTimes, NoMemory> {
    let mut inbox = PacketTimes::empty(alloc);
    inbox.push((1, rarp_reply(alloc)?))?;
    inbox.push((2, from_server(alloc, FETCHING, 3, 1, b"abc")?))?;
    inbox.push((3, told(alloc, 1, Asked::Whoami)?))?;
    inbox.push((4, told(alloc, 2, Asked::Getfile)?))?;
    Ok(inbox)
}

#[derive(Drop)]
struct Row {
    /// The body of the datagrams that come from the portmapper at tick 5, and how many.
    body: &'static [u8],
    count: u32,
    answer: &'static [u8],
}

const ROWS: [Row; 5] = [
    Row {
        body: b"\0\0\0\x03\0\0\0\x01\0\0\0\0\0\0\0\0\0\0\0\0\0\0\0\0\0\0\x02\xbc",
        count: 1,
        answer: b"boot unbuilt mnt program 616263\n",
    },
    // port 0, PROG_UNAVAIL, and AUTH_TOOWEAK
    Row {
        body: b"\0\0\0\x03\0\0\0\x01\0\0\0\0\0\0\0\0\0\0\0\0\0\0\0\0\0\0\0\0",
        count: 1,
        answer: b"boot noport getport\n",
    },
    Row {
        body: b"\0\0\0\x03\0\0\0\x01\0\0\0\0\0\0\0\0\0\0\0\0\0\0\0\x01",
        count: 1,
        answer: b"boot denied getport 1\n",
    },
    Row {
        body: b"\0\0\0\x03\0\0\0\x01\0\0\0\x01\0\0\0\x01\0\0\0\x05",
        count: 1,
        answer: b"boot denied getport 15\n",
    },
    Row {
        body: b"",
        count: 4096,
        answer: b"boot flood getport\n",
    },
];

/// The calls of a boot whose GETPORT is answered: sends of a request, the ACK or a call are 0, 2, 4, 5, 7 and 9, receives all others.
const CALLS: u64 = 11;

/// A boot in which these calls of the link fail.
fn boots(
    rt: &impl Abort,
    alloc: Global,
    row: &Row,
    fail: &[u64],
    answer: &[u8],
) -> Result<(), Fail> {
    let mut text = ByteList::from_slice(alloc, HEAD)?;
    text.push_slice(b"boot\n")?;
    let script = read_script(alloc, text.as_slice())?;
    let client = script.config.client()?;
    let mut inbox = before_getport(alloc)?;
    for _ in 0..row.count {
        let body = ByteList::from_slice(alloc, row.body)?;
        inbox.push((
            5,
            Packet::Udp {
                src: PORTMAPPER,
                dst: CALLING,
                body,
            },
        ))?;
    }
    let mut link = MemLink::new(alloc, inbox, fail)?;
    let mut sink = CalmSink::new(alloc, 1024)?;
    let done = session(alloc, &mut link, client, &script.commands, &mut sink);
    assert_eq!(rt; done, Ok(()));
    assert_eq!(rt; sink.bytes(), Some(answer));
    Ok(())
}

#[test]
fn boots_over_memory(rt: HostRuntime) -> Result<(), Fail> {
    for row in &ROWS {
        boots(&rt, rt.alloc(), row, &[], row.answer)?;
    }
    Ok(())
}

#[test]
fn each_call_fails_in_turn(rt: HostRuntime) -> Result<(), Fail> {
    for call in 0..CALLS {
        boots(&rt, rt.alloc(), &ROWS[0], &[call], b"boot linkfault\n")?;
    }
    // the boot makes no call more
    boots(&rt, rt.alloc(), &ROWS[0], &[CALLS], ROWS[0].answer)
}
