//! Sessions over a small link, on which a server answers each packet one tick later, or otherwise.
ghost use Rattle.std.specs.Prelude.{◌≡◌, ◌≤◌};
ghost use Rattle.sd_outside.specs.Causes.{Rose};

mod calls;
mod memory;

use super::session;
use calls::{Asked, Calls, answer, asked_by};
use sd_link::{Link, LinkError};
use sd_outside::{Addr, ByteList, CalmSink, Mac, NoMemory, Packet};
use sd_rarp::{RarpFrame, write_frame};
use sd_script::read_script;
use std::alloc::Global;
use std::process::Abort;
use std::test::Fail;

const HEAD: &[u8] =
    b"life 10\ntries 4\nwait 5\npages 1\nserver 080020000001 192.168.1.1 boss\nclient 080020010203 192.168.1.2 sparky example 192.168.1.1\n";

const SERVER: Mac = Mac([8, 0, 32, 0, 0, 1]);

const SERVER_IP: u32 = 0xc0a8_0101;

const CLIENT: Mac = Mac([8, 0, 32, 1, 2, 3]);

const CLIENT_IP: u32 = 0xc0a8_0102;

/// What the server does by TFTP.
#[derive(Clone, Copy)]
enum Manner {
    /// It gives so many whole blocks, and then one of three bytes.
    Gives { whole: u16 },
    /// It refuses, with this code.
    Refuses { code: u16 },
    /// Nothing.
    Sleeps,
    /// It sends frames without end.
    Floods,
}

const BLOCK: [u8; 512] = [0x42; 512];

/// The number of the block that a request or an ACK asks for.
fn asked_for(body: &[u8]) -> u16 {
    if body.len() == 4 && body[1] == 4 {
        u16::from_be_bytes([body[2], body[3]]).saturating_add(1)
    } else {
        1
    }
}

/// A datagram of the server's.
fn from_server(
    alloc: Global,
    to: Addr,
    kind: u8,
    number: u16,
    rest: &[u8],
) -> Result<Packet, NoMemory> {
    let mut body = ByteList::from_slice(alloc, &[0, kind])?;
    body.push_slice(&number.to_be_bytes())?;
    body.push_slice(rest)?;
    let src = Addr {
        ip: SERVER_IP,
        port: 4096,
    };
    Ok(Packet::Udp { src, dst: to, body })
}

fn transfer(
    alloc: Global,
    manner: Manner,
    to: Addr,
    body: &[u8],
) -> Result<Option<Packet>, NoMemory> {
    match manner {
        Manner::Gives { whole } => {
            let number = asked_for(body);
            let bytes = if number <= whole {
                BLOCK.as_slice()
            } else {
                b"abc"
            };
            Ok(Some(from_server(alloc, to, 3, number, bytes)?))
        }
        Manner::Refuses { code } => Ok(Some(from_server(alloc, to, 5, code, &[0])?)),
        Manner::Sleeps => Ok(None),
        Manner::Floods => Ok(None),
    }
}

/// The frame that tells the client its address.
fn rarp_reply(alloc: Global) -> Result<Packet, NoMemory> {
    let frame = write_frame(&RarpFrame::Reply {
        dst: CLIENT,
        src: SERVER,
        sender: SERVER,
        sender_ip: SERVER_IP,
        target: CLIENT,
        target_ip: CLIENT_IP,
    });
    Ok(Packet::Frame(ByteList::from_slice(alloc, &frame)?))
}

/// What the server sends for a packet.
fn reply(
    alloc: Global,
    manner: Manner,
    calls: Calls,
    packet: &Packet,
) -> Result<Option<Packet>, NoMemory> {
    match packet {
        Packet::Frame(_) => Ok(Some(rarp_reply(alloc)?)),
        Packet::Udp { src, dst, body } => match asked_by(*dst, body.as_slice()) {
            Some(asked) => answer(alloc, calls, *src, asked, body.as_slice()),
            None => {
                if dst.port == 111 {
                    Ok(None)
                } else {
                    transfer(alloc, manner, *src, body.as_slice())
                }
            }
        },
    }
}

/// Whether frames come without end after this packet.
fn floods(manner: Manner, calls: Calls, packet: &Packet) -> bool {
    match packet {
        Packet::Frame(_) => match manner {
            Manner::Floods => true,
            _ => false,
        },
        Packet::Udp { dst, body, .. } => match (calls, asked_by(*dst, body.as_slice())) {
            (Calls::Floods(step), Some(asked)) => step == asked,
            _ => false,
        },
    }
}

/// A link that tells nothing of its world.
#[derive(Drop)]
struct Wire {
    alloc: Global,
    manner: Manner,
    calls: Calls,
    /// Frames come without end.
    flooded: bool,
    tick: u32,
    /// What comes next.
    coming: Option<Packet>,
    /// A receive fails after so many.
    sound: u32,
    faults: u64,
    handed: u64,
}

impl Wire {
    fn new(alloc: Global, manner: Manner, calls: Calls, sound: u32) -> Wire {
        Wire {
            alloc,
            manner,
            calls,
            flooded: false,
            tick: 0,
            coming: None,
            sound,
            faults: 0,
            handed: 0,
        }
    }

    /// Counts a fault.
    fn fail(&mut self)
        ensures tick { self.new.tick ≡ self.old.tick }
        ensures later { self.old.faults ≤ self.new.faults }
        ensures rose { Rose self.old.faults self.new.faults }
        ensures handed { self.new.handed ≡ self.old.handed }
    {
        self.faults = self.faults.saturating_add(1);
    }

    /// What comes next, one tick later, where that isn't too late.
    fn next(&mut self, until: u32) -> Result<Option<Packet>, NoMemory>
        ensures later { self.old.tick ≤ self.new.tick }
        ensures faults { self.new.faults ≡ self.old.faults }
        ensures handed { self.new.handed ≡ self.old.handed }
    {
        if self.tick >= until {
            return Ok(None);
        }
        match self.coming.take() {
            Some(packet) => {
                self.tick = self.tick.saturating_add(1);
                Ok(Some(packet))
            }
            None => {
                if self.flooded {
                    Ok(Some(Packet::Frame(ByteList::empty(self.alloc))))
                } else {
                    Ok(None)
                }
            }
        }
    }
}

impl Link for Wire {
    ghost use Rattle.std.specs.Prelude.{None, []};

    ghost told = { λ wire. None };

    ghost clock = { λ wire. wire.tick };

    ghost faults = { λ wire. wire.faults };

    ghost handed = { λ wire. wire.handed };

    ghost drained = { λ wire. [] };

    fn now(&mut self) -> u64 {
        self.tick as u64
    }

    fn send(&mut self, packet: &Packet) -> Result<(), LinkError> {
        if floods(self.manner, self.calls, packet) {
            self.flooded = true;
        }
        match reply(self.alloc, self.manner, self.calls, packet) {
            Ok(coming) => {
                self.coming = coming;
                Ok(())
            }
            Err(NoMemory) => Err(LinkError::NoMemory),
        }
    }

    fn recv(&mut self, until: u64) -> Result<Option<Packet>, LinkError> {
        if self.sound == 0 || until > u32::MAX as u64 {
            self.fail();
            return Err(LinkError::Failed);
        }
        self.sound -= 1;
        let until = until as u32;
        match self.next(until) {
            Ok(Some(packet)) => {
                self.handed = self.handed.saturating_add(1);
                Ok(Some(packet))
            }
            Ok(None) => {
                self.tick = self.tick.max(until);
                Ok(None)
            }
            Err(NoMemory) => Err(LinkError::NoMemory),
        }
    }

    fn drain(&mut self, text: &mut ByteList) -> Result<(), NoMemory> {
        Ok(())
    }
}

#[derive(Drop)]
struct Row {
    manner: Manner,
    calls: Calls,
    /// So many receives go well.
    sound: u32,
    commands: &'static [u8],
    answers: &'static [u8],
}

const ROWS: [Row; 9] = [
    // the other commands
    Row {
        calls: Calls::Port(700),
        manner: Manner::Sleeps,
        sound: 99,
        commands: b"addr\nwait 7\n",
        answers: b"addr ok 192.168.1.2\nwait 7 ok\n",
    },
    // one block, and more
    Row {
        calls: Calls::Port(700),
        manner: Manner::Gives { whole: 0 },
        sound: 99,
        commands: b"boot\n",
        answers: b"boot unbuilt mnt program 616263\n",
    },
    Row {
        calls: Calls::Port(700),
        manner: Manner::Gives { whole: 2 },
        sound: 99,
        commands: b"boot\nboot\n",
        answers: b"boot unbuilt mnt program 42*1024.616263\nboot unbuilt mnt program 42*1024.616263\n",
    },
    Row {
        calls: Calls::Port(700),
        manner: Manner::Refuses { code: 3 },
        sound: 99,
        commands: b"boot\n",
        answers: b"boot refused tftp 3\n",
    },
    Row {
        calls: Calls::Port(700),
        manner: Manner::Sleeps,
        sound: 99,
        commands: b"boot\n",
        answers: b"boot timeout tftp\n",
    },
    Row {
        calls: Calls::Port(700),
        manner: Manner::Floods,
        sound: 9_999,
        commands: b"boot\nwait 1\n",
        answers: b"boot flood tftp\nwait 1 flood wait\n",
    },
    // the first receive fails
    Row {
        calls: Calls::Port(700),
        manner: Manner::Gives { whole: 2 },
        sound: 0,
        commands: b"boot\naddr\nwait 1\n",
        answers: b"boot linkfault\naddr linkfault\nwait 1 linkfault\n",
    },
    // the second, and the third
    Row {
        calls: Calls::Port(700),
        manner: Manner::Gives { whole: 2 },
        sound: 1,
        commands: b"boot\n",
        answers: b"boot linkfault\n",
    },
    Row {
        calls: Calls::Port(700),
        manner: Manner::Gives { whole: 2 },
        sound: 2,
        commands: b"boot\n",
        answers: b"boot linkfault\n",
    },
];

/// Does the commands, and compares the answers.
fn does(rt: &impl Abort, alloc: Global, row: &Row) -> Result<(), Fail> {
    let mut text = ByteList::from_slice(alloc, HEAD)?;
    text.push_slice(row.commands)?;
    let script = read_script(alloc, text.as_slice())?;
    let client = script.config.client()?;
    let mut link = Wire::new(alloc, row.manner, row.calls, row.sound);
    let mut sink = CalmSink::new(alloc, 1024)?;
    let done = session(alloc, &mut link, client, &script.commands, &mut sink);
    assert_eq!(rt; done, Ok(()));
    assert_eq!(rt; sink.bytes(), Some(row.answers));
    Ok(())
}

/// How the calls end.
const CALLS: [(Calls, &[u8]); 11] = [
    (Calls::Port(0), b"boot noport getport\n"),
    (Calls::Port(1), b"boot unbuilt mnt program 616263\n"),
    (Calls::Sleeps(Asked::Whoami), b"boot timeout whoami\n"),
    (Calls::Sleeps(Asked::Getfile), b"boot timeout getfile\n"),
    (Calls::Sleeps(Asked::Getport), b"boot timeout getport\n"),
    (Calls::Refuses(Asked::Whoami), b"boot denied whoami 1\n"),
    (Calls::Refuses(Asked::Getfile), b"boot denied getfile 1\n"),
    (Calls::Refuses(Asked::Getport), b"boot denied getport 1\n"),
    (Calls::Renumbers(Asked::Getfile), b"boot timeout getfile\n"),
    (Calls::Floods(Asked::Whoami), b"boot flood whoami\n"),
    (Calls::Floods(Asked::Getport), b"boot flood getport\n"),
];

#[test]
fn ends_at_each_call(rt: HostRuntime) -> Result<(), Fail> {
    for (calls, answers) in &CALLS {
        let row = Row {
            manner: Manner::Gives { whole: 0 },
            calls: *calls,
            sound: 9_999,
            commands: b"boot\n",
            answers: *answers,
        };
        does(&rt, rt.alloc(), &row)?;
    }
    Ok(())
}

#[test]
fn does_the_rows(rt: HostRuntime) -> Result<(), Fail> {
    for row in &ROWS {
        does(&rt, rt.alloc(), row)?;
    }
    Ok(())
}

/// A file of more blocks than there are numbers.
const TOO_LARGE: Row = Row {
    manner: Manner::Gives { whole: 65_535 },
    calls: Calls::Port(700),
    sound: 99_999,
    commands: b"boot\n",
    answers: b"boot toolarge 33553920\n",
};

#[test]
fn finds_a_file_too_large(rt: HostRuntime) -> Result<(), Fail> {
    does(&rt, rt.alloc(), &TOO_LARGE)
}
