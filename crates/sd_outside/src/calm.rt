//! A source and a sink in memory that never fail.
ghost use Rattle.std.specs.Prelude.{◌≡◌, ◌≤◌, [], length, Some, Ok, IfOk};
ghost use Rattle.std.specs.Option.{option_map};
ghost use Rattle.sd_outside.specs.Causes.{HasCause};
ghost use Rattle.sd_outside.specs.Streams.{Adds};
ghost use Rattle.sd_outside.specs.Calm.{written_within};

use crate::copying::copy_front;
use crate::{ByteList, Failed, NoMemory, Sink, Source};
use std::alloc::Global;
use std::marker::Model;

/// A source in memory, seen as the bytes that are left.
#[derive(Drop)]
pub struct CalmSource {
    bytes: ByteList,
    at: usize,
}

impl Model for CalmSource {
    ghost use Rattle.std.specs.Prelude.{List, ℕ, ◌≤◌, length, drop};

    ghost Value = { List ℕ };

    ghost view = { λ source. drop source.at source.bytes };

    ghost invariant = { λ source. source.at ≤ length source.bytes };
}

impl CalmSource {
    /// A source of these bytes.
    pub fn new(alloc: Global, bytes: &[u8]) -> Result<CalmSource, NoMemory>
        ensures { IfOk result (λ source. source ≡ bytes.now) }
    {
        Ok(CalmSource {
            bytes: ByteList::from_slice(alloc, bytes)?,
            at: 0,
        })
    }
}

impl Source for CalmSource {
    ghost left = { λ source. Some source };

    ghost faults = { λ _. 0 };

    fn read(&mut self, into: &mut [u8]) -> Result<usize, Failed> {
        let rest = &self.bytes.as_slice()[self.at..];
        let most = into.len();
        let count = copy_front(rest, into, most);
        self.at += count;
        Ok(count)
    }
}

/// A sink in memory. It takes all that is written, and drops what passes its room: from then on it tells no bytes.
#[derive(Drop)]
pub struct CalmSink {
    bytes: Vec<u8>,
    room: usize,
    whole: bool,
}

impl Model for CalmSink {
    ghost use Rattle.std.specs.Prelude.{◌≤◌, vec_capacity, Some, None, if◌then◌else◌};
    ghost use Rattle.sd_outside.specs.Calm.{SinkView};

    ghost Value = { SinkView };

    ghost view = { λ sink. record { room = sink.room; written = if sink.whole then Some sink.bytes.items else None } };

    ghost invariant = { λ sink. sink.room ≤ vec_capacity sink.bytes };
}

impl CalmSink {
    /// A sink with room for so many bytes, which it takes here.
    pub fn new(alloc: Global, room: usize) -> Result<CalmSink, NoMemory>
        ensures room { IfOk result (λ sink. sink.room ≡ room) }
        ensures written { IfOk result (λ sink. sink.written ≡ Some []) }
    {
        Ok(CalmSink {
            bytes: Vec::with_capacity(alloc, room)?,
            room,
            whole: true,
        })
    }

    /// The bytes written, and `None` once something passed the room.
    pub fn bytes(&self) -> Option<&[u8]>
        ensures { option_map (λ bytes. bytes.now) result ≡ self.now.written }
    {
        if self.whole {
            Some(self.bytes.as_slice())
        } else {
            None
        }
    }
}

impl Sink for CalmSink {
    ghost written = { λ sink. sink.written };

    ghost faults = { λ _. 0 };

    /// Takes all bytes. What fits the room is told, with all that was written before.
    fn write(&mut self, bytes: &[u8]) -> Result<usize, Failed>
        ensures bound { IfOk result (λ n. n ≤ length bytes.now) }
        ensures bytes { Adds self.old.written self.new.written result bytes.now }
        ensures cause { HasCause 0 0 result }

        ensures all { result ≡ Ok (length bytes.now) }
        ensures told { self.new.written ≡ written_within self.old.room self.old.written bytes.now }
        ensures room { self.new.room ≡ self.old.room }
    {
        let used = self.bytes.len();
        let fits = used <= self.room && bytes.len() <= self.room - used;
        if !fits || self.bytes.extend_from_slice(bytes).is_err() {
            self.whole = false;
        }
        Ok(bytes.len())
    }
}
