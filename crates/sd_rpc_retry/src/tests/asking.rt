//! Requests over a small link, on which packets come at given ticks.
ghost use Rattle.std.specs.Prelude.{◌≡◌, ◌≤◌};
ghost use Rattle.sd_outside.specs.Causes.{Rose};

use crate::{Asked, Listener, Look, ask};
use sd_link::{Link, LinkError};
use sd_outside::{Addr, ByteList, NoMemory, Packet};
use std::alloc::Global;
use std::process::Abort;
use std::test::Fail;

/// A packet as the listener below takes it.
#[derive(Clone, Copy)]
enum Kind {
    /// A datagram from this port is the answer.
    Answer(u16),
    /// A frame of one byte is sent back.
    Strange,
    /// An empty frame is of no interest.
    Idle,
}

/// So many packets of a kind come at a tick.
#[derive(Clone, Copy)]
struct Coming {
    tick: u32,
    kind: Kind,
    copies: u32,
}

const REQUEST: u8 = 1;

const STRANGE: u8 = 2;

fn frame(alloc: Global, bytes: &[u8]) -> Result<Packet, NoMemory> {
    Ok(Packet::Frame(ByteList::from_slice(alloc, bytes)?))
}

fn packet_of(alloc: Global, kind: Kind) -> Result<Packet, NoMemory> {
    match kind {
        Kind::Answer(port) => Ok(Packet::Udp {
            src: Addr { ip: 1, port },
            dst: Addr { ip: 2, port: 1 },
            body: ByteList::empty(alloc),
        }),
        Kind::Strange => frame(alloc, &[STRANGE]),
        Kind::Idle => frame(alloc, &[]),
    }
}

/// A link that tells nothing of its world.
#[derive(Drop)]
struct Line {
    alloc: Global,
    coming: &'static [Coming],
    /// How many of the first of them came.
    came: u32,
    tick: u32,
    /// A receive fails after so many.
    sound: u32,
    /// For each frame that was sent its tick and its first byte.
    sent: ByteList,
    faults: u64,
    handed: u64,
}

impl Line {
    fn new(alloc: Global, coming: &'static [Coming], sound: u32) -> Line {
        Line {
            alloc,
            coming,
            came: 0,
            tick: 0,
            sound,
            sent: ByteList::empty(alloc),
            faults: 0,
            handed: 0,
        }
    }

    /// The next packet's kind, where it comes until this tick.
    fn next(&mut self, until: u32) -> Option<Kind>
        ensures later { self.old.tick ≤ self.new.tick }
        ensures faults { self.new.faults ≡ self.old.faults }
        ensures handed { self.new.handed ≡ self.old.handed }
    {
        let (first, rest) = self.coming.split_first()?;
        if first.tick > until {
            return None;
        }
        self.tick = self.tick.max(first.tick);
        self.came = self.came.saturating_add(1);
        if self.came >= first.copies {
            self.coming = rest;
            self.came = 0;
        }
        Some(first.kind)
    }

    /// Counts a fault.
    fn fail(&mut self)
        ensures tick { self.new.tick ≡ self.old.tick }
        ensures later { self.old.faults ≤ self.new.faults }
        ensures rose { Rose self.old.faults self.new.faults }
        ensures handed { self.new.handed ≡ self.old.handed }
    {
        self.faults = self.faults.saturating_add(1);
    }

    /// Notes what is sent.
    fn note(&mut self, packet: &Packet) -> Result<(), NoMemory>
        ensures tick { self.new.tick ≡ self.old.tick }
        ensures faults { self.new.faults ≡ self.old.faults }
        ensures handed { self.new.handed ≡ self.old.handed }
    {
        if let Packet::Frame(bytes) = packet {
            self.sent.push_slice(&[self.tick.min(255) as u8])?;
            self.sent.push_slice(bytes.as_slice())?;
        }
        Ok(())
    }
}

impl Link for Line {
    ghost use Rattle.std.specs.Prelude.{None, []};

    ghost told = { λ line. None };

    ghost clock = { λ line. line.tick };

    ghost faults = { λ line. line.faults };

    ghost handed = { λ line. line.handed };

    ghost drained = { λ line. [] };

    fn now(&mut self) -> u64 {
        self.tick as u64
    }

    fn send(&mut self, packet: &Packet) -> Result<(), LinkError> {
        match self.note(packet) {
            Ok(()) => Ok(()),
            Err(NoMemory) => Err(LinkError::NoMemory),
        }
    }

    fn recv(&mut self, until: u64) -> Result<Option<Packet>, LinkError> {
        if self.sound == 0 || until > u32::MAX as u64 {
            self.fail();
            return Err(LinkError::Failed);
        }
        self.sound -= 1;
        let until = until as u32;
        match self.next(until) {
            None => {
                self.tick = self.tick.max(until);
                Ok(None)
            }
            Some(kind) => match packet_of(self.alloc, kind) {
                Err(NoMemory) => Err(LinkError::NoMemory),
                Ok(packet) => {
                    self.handed = self.handed.saturating_add(1);
                    Ok(Some(packet))
                }
            },
        }
    }

    fn drain(&mut self, text: &mut ByteList) -> Result<(), NoMemory> {
        Ok(())
    }
}

/// Waits for a datagram.
#[derive(Drop)]
struct Waiting {}

impl Listener for Waiting {
    ghost use Rattle.std.specs.Prelude.{ℕ, [], ◌∷◌, Some, None};
    ghost use Rattle.sd_outside.specs.declared.packet.Packet.TheVariants.{Frame, Udp};

    type Found = u16;

    ghost Seen = { ℕ };

    ghost hearing = { λ waiting. record {
      match = elim [ Frame bytes ↦ None | Udp src dst body ↦ Some src.port ];
      replies = elim [ Frame [] ↦ [] | Frame (b ∷ bytes) ↦ Frame (b ∷ bytes) ∷ [] | Udp src dst body ↦ [] ];
    } };

    ghost shows = { λ waiting port. port };

    fn look(&mut self, packet: &Packet) -> Result<Look<u16>, NoMemory> {
        match packet {
            Packet::Udp { src, .. } => Ok(Look::Match(src.port)),
            Packet::Frame(bytes) => {
                if bytes.as_slice().is_empty() {
                    Ok(Look::Other)
                } else {
                    Ok(Look::Reply(packet.copy()?))
                }
            }
        }
    }
}

/// What came of a request, with the port that was found.
#[derive(Clone, Copy, Debug, PartialEq, Eq)]
enum Came {
    Answer(u16),
    Timeout,
    Flood,
    Fault,
}

fn came_of(asked: Asked<u16>) -> Came {
    match asked {
        Asked::Answer(port) => Came::Answer(port),
        Asked::Timeout => Came::Timeout,
        Asked::Flood => Came::Flood,
        Asked::Fault => Came::Fault,
    }
}

struct Row {
    coming: &'static [Coming],
    /// So many receives go well.
    sound: u32,
    tries: u32,
    wait: u64,
    came: Came,
    /// For each packet that is sent its tick and its byte.
    sent: &'static [u8],
    /// How many packets were got.
    handed: u64,
}

const ANSWER: Kind = Kind::Answer(2049);

const ROWS: [Row; 12] = [
    // the answer comes in the first try
    Row {
        coming: &[Coming {
            tick: 2,
            kind: ANSWER,
            copies: 1,
        }],
        sound: 9,
        tries: 4,
        wait: 5,
        came: Came::Answer(2049),
        sent: &[0, REQUEST],
        handed: 1,
    },
    // the first of two counts, and the second isn't got
    Row {
        coming: &[
            Coming {
                tick: 2,
                kind: Kind::Answer(7),
                copies: 1,
            },
            Coming {
                tick: 2,
                kind: ANSWER,
                copies: 1,
            },
        ],
        sound: 9,
        tries: 4,
        wait: 5,
        came: Came::Answer(7),
        sent: &[0, REQUEST],
        handed: 1,
    },
    // what comes at a try's last tick belongs to it
    Row {
        coming: &[Coming {
            tick: 5,
            kind: ANSWER,
            copies: 1,
        }],
        sound: 9,
        tries: 4,
        wait: 5,
        came: Came::Answer(2049),
        sent: &[0, REQUEST],
        handed: 1,
    },
    // one tick later it belongs to the second
    Row {
        coming: &[Coming {
            tick: 6,
            kind: ANSWER,
            copies: 1,
        }],
        sound: 9,
        tries: 4,
        wait: 5,
        came: Came::Answer(2049),
        sent: &[0, REQUEST, 5, REQUEST],
        handed: 1,
    },
    // all tries are in vain
    Row {
        coming: &[Coming {
            tick: 16,
            kind: ANSWER,
            copies: 1,
        }],
        sound: 9,
        tries: 3,
        wait: 5,
        came: Came::Timeout,
        sent: &[0, REQUEST, 5, REQUEST, 10, REQUEST],
        handed: 0,
    },
    // nothing is asked where there are no tries
    Row {
        coming: &[Coming {
            tick: 0,
            kind: ANSWER,
            copies: 1,
        }],
        sound: 9,
        tries: 0,
        wait: 5,
        came: Came::Timeout,
        sent: &[],
        handed: 0,
    },
    // something is sent at once for a strange packet, and the try goes on
    Row {
        coming: &[
            Coming {
                tick: 1,
                kind: Kind::Idle,
                copies: 1,
            },
            Coming {
                tick: 2,
                kind: Kind::Strange,
                copies: 2,
            },
            Coming {
                tick: 6,
                kind: ANSWER,
                copies: 1,
            },
        ],
        sound: 9,
        tries: 4,
        wait: 5,
        came: Came::Answer(2049),
        sent: &[0, REQUEST, 2, STRANGE, 2, STRANGE, 5, REQUEST],
        handed: 4,
    },
    // a flood
    Row {
        coming: &[Coming {
            tick: 1,
            kind: Kind::Idle,
            copies: 4096,
        }],
        sound: 9999,
        tries: 4,
        wait: 5,
        came: Came::Flood,
        sent: &[0, REQUEST],
        handed: 4096,
    },
    // the answer may be the last packet before one
    Row {
        coming: &[
            Coming {
                tick: 1,
                kind: Kind::Idle,
                copies: 4095,
            },
            Coming {
                tick: 1,
                kind: ANSWER,
                copies: 1,
            },
        ],
        sound: 9999,
        tries: 4,
        wait: 5,
        came: Came::Answer(2049),
        sent: &[0, REQUEST],
        handed: 4096,
    },
    // each try counts anew
    Row {
        coming: &[
            Coming {
                tick: 1,
                kind: Kind::Idle,
                copies: 4095,
            },
            Coming {
                tick: 6,
                kind: Kind::Idle,
                copies: 4095,
            },
        ],
        sound: 9999,
        tries: 2,
        wait: 5,
        came: Came::Timeout,
        sent: &[0, REQUEST, 5, REQUEST],
        handed: 8190,
    },
    // a receive fails
    Row {
        coming: &[Coming {
            tick: 1,
            kind: Kind::Idle,
            copies: 1,
        }],
        sound: 1,
        tries: 4,
        wait: 5,
        came: Came::Fault,
        sent: &[0, REQUEST],
        handed: 1,
    },
    // without waiting, a try takes what is there
    Row {
        coming: &[Coming {
            tick: 0,
            kind: Kind::Idle,
            copies: 2,
        }],
        sound: 9,
        tries: 2,
        wait: 0,
        came: Came::Timeout,
        sent: &[0, REQUEST, 0, REQUEST],
        handed: 2,
    },
];

fn asks(rt: &impl Abort, alloc: Global, row: &Row) -> Result<(), Fail> {
    let mut link = Line::new(alloc, row.coming, row.sound);
    let mut waiting = Waiting {};
    let request = frame(alloc, &[REQUEST])?;
    assert!(rt; row.tries <= 64 && row.wait <= 1000);
    let asked = ask(&mut link, &request, &mut waiting, row.tries, row.wait)?;
    assert_eq!(rt; came_of(asked), row.came);
    assert_eq!(rt; link.sent.as_slice(), row.sent);
    assert_eq!(rt; link.handed, row.handed);
    Ok(())
}

#[test]
fn asks_by_the_rows(rt: HostRuntime) -> Result<(), Fail> {
    for row in &ROWS {
        asks(&rt, rt.alloc(), row)?;
    }
    Ok(())
}
