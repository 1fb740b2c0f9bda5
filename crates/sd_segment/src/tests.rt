//! The segment under a small client, which follows schedules.

mod calls;
mod faults;
mod schedules;
mod strangers;
mod transfers;

use crate::{Segment, new_disk};
use calls::{CALLS, LINES};
use faults::FAULTS;
use schedules::SCHEDULES;
use sd_link::{Link, LinkError};
use sd_outside::{ByteList, NoMemory};
use sd_script::{read_packet_line, read_script};
use std::alloc::Global;
use std::test::Fail;
use strangers::STRANGERS;
use transfers::TRANSFERS;

const HEAD: &[u8] =
    b"\ntries 4\nwait 5\npages 1\nserver 080020000001 192.168.1.1 boss\nclient 080020010203 192.168.1.2 sparky example 192.168.1.1\n";

const REQUEST: &[u8] =
    b"frame ff*6.08002001020380350001080006040003080020010203.00*4.080020010203.00*22";

const REPLY: &[u8] =
    b"frame 08002001020308002000000180350001080006040004080020000001c0a80101080020010203c0a80102.00*18";

const OTHER: &[u8] = b"frame 080020000001080020010203";

const TO_SERVER: &[u8] = b"udp 192.168.1.2:1021 192.168.1.1:111 01";

const TO_ALL: &[u8] = b"udp 192.168.1.2:1021 255.255.255.255:111 02";

const ASTRAY: &[u8] = b"udp 192.168.1.2:1021 192.168.1.77:111 -";

const FROM_CLIENT: &[u8] = b"udp 192.168.1.2:2048 192.168.1.1:";

const FROM_SERVER: &[u8] = b"udp 192.168.1.1:";

const TO_CLIENT: &[u8] = b" 192.168.1.2:2048 ";

fn send(alloc: Global, segment: &mut Segment, line: &[u8]) -> Result<(), LinkError> {
    match read_packet_line(alloc, line) {
        Ok(packet) => segment.send(&packet),
        Err(_) => Err(LinkError::Failed),
    }
}

/// Receives at most this many packets within so many ticks.
fn receive(segment: &mut Segment, ticks: u64, most: u64) -> Result<(), LinkError> {
    let until = segment.now().saturating_add(ticks);
    for _ in 0..most {
        if segment.recv(until)?.is_none() {
            return Ok(());
        }
    }
    Ok(())
}

fn number(digits: &[u8]) -> u64 {
    let mut number: u64 = 0;
    for digit in digits {
        let value = digit.saturating_sub(b'0') as u64;
        number = number.saturating_mul(10).saturating_add(value);
    }
    number
}

fn do_act(alloc: Global, segment: &mut Segment, act: &[u8]) -> Result<(), LinkError> {
    let Some((kind, digits)) = act.split_first() else {
        return Err(LinkError::Failed);
    };
    match *kind {
        b's' => send(alloc, segment, REQUEST),
        b'n' => send(alloc, segment, OTHER),
        b'd' => send(alloc, segment, TO_SERVER),
        b'b' => send(alloc, segment, TO_ALL),
        b'a' => send(alloc, segment, ASTRAY),
        b't' => receive(segment, number(digits), 1),
        b'w' => receive(segment, number(digits), 100),
        _ => Err(LinkError::Failed),
    }
}

/// An act, which fails where it stands behind an `x`.
fn perform(alloc: Global, segment: &mut Segment, act: &[u8]) -> Result<(), LinkError> {
    match act.split_first() {
        Some((b'x', failing)) => match do_act(alloc, segment, failing) {
            Err(LinkError::Failed) => Ok(()),
            _ => Err(LinkError::Failed),
        },
        _ => do_act(alloc, segment, act),
    }
}

fn text_of(alloc: Global, life: &[u8], events: &[u8]) -> Result<ByteList, NoMemory> {
    let mut text = ByteList::from_slice(alloc, b"life ")?;
    text.push_slice(life)?;
    text.push_slice(HEAD)?;
    text.push_slice(events)?;
    Ok(text)
}

/// The network of a script.
fn network(alloc: Global, text: &[u8]) -> Option<Segment> {
    let script = read_script(alloc, text).ok()?;
    let disk = new_disk(alloc, &script.config.swap).ok()?;
    Segment::new(alloc, script.config, script.events, disk).ok()
}

/// What these acts add to the record, drained after each. `None` where something was refused.
fn acted(alloc: Global, segment: &mut Segment, acts: &[u8]) -> Option<ByteList> {
    let mut record = ByteList::empty(alloc);
    for act in acts.split(|byte| *byte == b' ') {
        perform(alloc, segment, act).ok()?;
        segment.drain(&mut record).ok()?;
    }
    segment.facts();
    Some(record)
}

/// The record after these acts.
fn record_of(alloc: Global, life: &[u8], events: &[u8], acts: &[u8]) -> Option<ByteList> {
    let text = text_of(alloc, life, events).ok()?;
    let mut segment = network(alloc, text.as_slice())?;
    acted(alloc, &mut segment, acts)
}

/// A text without the abbreviations of the tables.
fn whole(alloc: Global, record: &[u8]) -> Result<ByteList, NoMemory> {
    let mut text = ByteList::empty(alloc);
    for byte in record {
        match *byte {
            b';' => text.push_slice(b"\n")?,
            b'Q' => text.push_slice(REQUEST)?,
            b'R' => text.push_slice(REPLY)?,
            b'N' => text.push_slice(OTHER)?,
            b'D' => text.push_slice(TO_SERVER)?,
            b'B' => text.push_slice(TO_ALL)?,
            b'A' => text.push_slice(ASTRAY)?,
            b'C' => text.push_slice(FROM_CLIENT)?,
            b'S' => text.push_slice(FROM_SERVER)?,
            b'T' => text.push_slice(TO_CLIENT)?,
            other => text.push_slice(&[other])?,
        }
    }
    Ok(text)
}

#[test]
fn follows_schedules(rt: HostRuntime) -> Result<(), Fail> {
    for (place, (life, events, acts, record)) in SCHEDULES.iter().enumerate() {
        let want = whole(rt.alloc(), record)?;
        match record_of(rt.alloc(), life, events, acts) {
            Some(got) => assert_eq!(rt; got.as_slice(), want.as_slice(), "row {place}"),
            None => assert!(rt; false, "refused: row {place}"),
        }
    }
    Ok(())
}

#[test]
fn follows_strangers(rt: HostRuntime) -> Result<(), Fail> {
    for (place, (life, events, acts, record)) in STRANGERS.iter().enumerate() {
        let want = whole(rt.alloc(), record)?;
        match record_of(rt.alloc(), life, events, acts) {
            Some(got) => assert_eq!(rt; got.as_slice(), want.as_slice(), "row {place}"),
            None => assert!(rt; false, "refused: row {place}"),
        }
    }
    Ok(())
}

#[test]
fn follows_faults(rt: HostRuntime) -> Result<(), Fail> {
    for (place, (life, events, acts, record)) in FAULTS.iter().enumerate() {
        let want = whole(rt.alloc(), record)?;
        match record_of(rt.alloc(), life, events, acts) {
            Some(got) => assert_eq!(rt; got.as_slice(), want.as_slice(), "row {place}"),
            None => assert!(rt; false, "refused: row {place}"),
        }
    }
    Ok(())
}

/// Receives, or sends a packet.
fn take_part(alloc: Global, segment: &mut Segment, act: &[u8]) -> Result<(), LinkError> {
    match act.split_first() {
        Some((b't', digits)) => receive(segment, number(digits), 1),
        Some((b'w', digits)) => receive(segment, number(digits), 100),
        _ => match whole(alloc, act) {
            Ok(line) => send(alloc, segment, line.as_slice()),
            Err(NoMemory) => Err(LinkError::NoMemory),
        },
    }
}

/// What these acts add to the record. `None` where something was refused.
fn transferred(alloc: Global, segment: &mut Segment, acts: &[u8]) -> Option<ByteList> {
    let mut record = ByteList::empty(alloc);
    for act in acts.split(|byte| *byte == b',') {
        take_part(alloc, segment, act).ok()?;
    }
    segment.drain(&mut record).ok()?;
    Some(record)
}

/// The record after these acts.
fn transfer_of(alloc: Global, events: &[u8], acts: &[u8]) -> Option<ByteList> {
    let text = text_of(alloc, b"10", events).ok()?;
    let mut segment = network(alloc, text.as_slice())?;
    transferred(alloc, &mut segment, acts)
}

#[test]
fn follows_transfers(rt: HostRuntime) -> Result<(), Fail> {
    for (place, (events, acts, record)) in TRANSFERS.iter().enumerate() {
        let want = whole(rt.alloc(), record)?;
        match transfer_of(rt.alloc(), events, acts) {
            Some(got) => assert_eq!(rt; got.as_slice(), want.as_slice(), "row {place}"),
            None => assert!(rt; false, "refused: row {place}"),
        }
    }
    Ok(())
}

/// Sends a datagram, and what is added to the record then.
fn sent(alloc: Global, segment: &mut Segment, line: &[u8]) -> Option<ByteList> {
    send(alloc, segment, line).ok()?;
    receive(segment, 5, 100).ok()?;
    let mut record = ByteList::empty(alloc);
    segment.drain(&mut record).ok()?;
    Some(record)
}

/// The record of a datagram of the client.
fn call_of(alloc: Global, address: &[u8], port: &[u8], body: &[u8]) -> Option<ByteList> {
    let text = text_of(alloc, b"10", LINES).ok()?;
    let line = datagram(alloc, b"192.168.1.2", b"1021", address, port, body).ok()?;
    let mut segment = network(alloc, text.as_slice())?;
    sent(alloc, &mut segment, line.as_slice())
}

fn datagram(
    alloc: Global,
    from: &[u8],
    from_port: &[u8],
    to: &[u8],
    to_port: &[u8],
    body: &[u8],
) -> Result<ByteList, NoMemory> {
    let mut line = ByteList::from_slice(alloc, b"udp ")?;
    line.push_slice(from)?;
    line.push_slice(b":")?;
    line.push_slice(from_port)?;
    line.push_slice(b" ")?;
    line.push_slice(to)?;
    line.push_slice(b":")?;
    line.push_slice(to_port)?;
    line.push_slice(b" ")?;
    line.push_slice(body)?;
    Ok(line)
}

/// The record of a datagram and its reply, where there is one.
fn called(
    alloc: Global,
    address: &[u8],
    port: &[u8],
    body: &[u8],
    reply: &[u8],
) -> Result<ByteList, NoMemory> {
    let mut text = ByteList::from_slice(alloc, b"sent 0 0 ")?;
    let asked = datagram(alloc, b"192.168.1.2", b"1021", address, port, body)?;
    text.push_slice(asked.as_slice())?;
    text.push_slice(b"\nserved 1 0\n")?;
    if !reply.is_empty() {
        text.push_slice(b"sent 1 1 ")?;
        let answer = datagram(alloc, b"192.168.1.1", port, b"192.168.1.2", b"1021", reply)?;
        text.push_slice(answer.as_slice())?;
        text.push_slice(b"\ngot 2 1\n")?;
    }
    Ok(text)
}

#[test]
fn answers_calls(rt: HostRuntime) -> Result<(), Fail> {
    for (place, (address, port, body, reply)) in CALLS.iter().enumerate() {
        let want = called(rt.alloc(), address, port, body, reply)?;
        match call_of(rt.alloc(), address, port, body) {
            Some(got) => assert_eq!(rt; got.as_slice(), want.as_slice(), "row {place}"),
            None => assert!(rt; false, "refused: row {place}"),
        }
    }
    Ok(())
}
