//! What a server's portmapper does with the calls of a boot.

use super::SERVER_IP;
use sd_outside::{Addr, ByteList, NoMemory, Packet};
use std::alloc::Global;

/// A call of a boot.
#[derive(Clone, Copy, PartialEq, Eq)]
pub enum Asked {
    Whoami,
    Getfile,
    Getport,
}

/// What the server does with the calls.
#[derive(Clone, Copy)]
pub enum Calls {
    /// It answers each, and MOUNT has this port.
    Port(u16),
    /// It is silent from this one on.
    Sleeps(Asked),
    /// It refuses this one: PROG_UNAVAIL.
    Refuses(Asked),
    /// It answers this one with the number of the call after it.
    Renumbers(Asked),
    /// It sends frames without end from this one on.
    Floods(Asked),
}

fn cell(bytes: &[u8], at: usize) -> u8 {
    match bytes.get(at) {
        Some(byte) => *byte,
        None => 0,
    }
}

/// `root`, behind the client's name.
const ROOT_OF_SPARKY: &[u8] = b"\0\0\0\x06sparky\0\0\0\0\0\x04root";

/// Which call it is, where it goes to whom it should.
pub fn asked_by(dst: Addr, body: &[u8]) -> Option<Asked> {
    if dst.port != 111 {
        return None;
    }
    match (cell(body, 23), cell(body, 51), dst.ip) {
        (5, 1, 0xffff_ffff) => Some(Asked::Whoami),
        (5, 2, SERVER_IP) => {
            if body.ends_with(ROOT_OF_SPARKY) {
                Some(Asked::Getfile)
            } else {
                None
            }
        }
        (3, _, SERVER_IP) => Some(Asked::Getport),
        _ => None,
    }
}

/// The results of a call: those of the first two stand in what the portmapper got for them.
pub fn results(alloc: Global, asked: Asked, port: u16) -> Result<ByteList, NoMemory> {
    match asked {
        Asked::Whoami => ByteList::from_slice(
            alloc,
            b"\0\0\x03\xf8\0\0\0\x2c\0\0\0\x06sparky\0\0\0\0\0\x07example\0\0\0\0\x01\xff\xff\xff\xc0\xff\xff\xff\xa8\0\0\0\x01\0\0\0\x01",
        ),
        Asked::Getfile => ByteList::from_slice(
            alloc,
            b"\0\0\x03\xf8\0\0\0\x34\0\0\0\x04boss\0\0\0\x01\xff\xff\xff\xc0\xff\xff\xff\xa8\0\0\0\x01\0\0\0\x01\0\0\0\x13/export/root/sparky\0",
        ),
        Asked::Getport => {
            let mut bytes = ByteList::from_slice(alloc, &[0, 0])?;
            bytes.push_slice(&port.to_be_bytes())?;
            Ok(bytes)
        }
    }
}

/// The reply to a call: its number, and then accepted with AUTH_NULL.
pub fn reply(
    alloc: Global,
    to: Addr,
    call: &[u8],
    add: u8,
    stat: u8,
    results: &[u8],
) -> Result<Packet, NoMemory> {
    let low = cell(call, 3).wrapping_add(add);
    let mut body = ByteList::from_slice(
        alloc,
        &[cell(call, 0), cell(call, 1), cell(call, 2), low],
    )?;
    body.push_slice(&[
        0, 0, 0, 1, 0, 0, 0, 0, 0, 0, 0, 0, 0, 0, 0, 0, 0, 0, 0, stat,
    ])?;
    body.push_slice(results)?;
    let src = Addr {
        ip: SERVER_IP,
        port: 111,
    };
    Ok(Packet::Udp { src, dst: to, body })
}

/// What the server sends for a call.
pub fn answer(
    alloc: Global,
    calls: Calls,
    to: Addr,
    asked: Asked,
    body: &[u8],
) -> Result<Option<Packet>, NoMemory> {
    let mut port = 700;
    let mut add = 0;
    match calls {
        Calls::Port(given) => port = given,
        Calls::Sleeps(step) => {
            if step == asked {
                return Ok(None);
            }
        }
        Calls::Floods(step) => {
            if step == asked {
                return Ok(None);
            }
        }
        Calls::Refuses(step) => {
            if step == asked {
                return Ok(Some(reply(alloc, to, body, 0, 1, &[])?));
            }
        }
        Calls::Renumbers(step) => {
            if step == asked {
                add = 1;
            }
        }
    }
    let bytes = results(alloc, asked, port)?;
    Ok(Some(reply(alloc, to, body, add, 0, bytes.as_slice())?))
}
