//! The calls that earlier packets held, by which replies are known.

ghost use Rattle.std.specs.Prelude.{◌≡◌, ◌<◌, [], ◌∷◌, ◌++◌, length, IfSome, OnOk, OnErr};
ghost use Rattle.sd_show.specs.Calls.{procedure_of, answered};
ghost use Rattle.sd_show.specs.Exchanges.{exchange_of, later, IsIndex, IsAskedAt};

use crate::procedures::Procedure;
use sd_outside::{Addr, BROADCAST_IP, NoMemory};
use sd_rpc_msg::Call;
use std::alloc::Global;
use std::collections::BTreeMap;
use std::marker::Model;

/// A call: its number, who sent it to whom, and what it asks for.
#[derive(Clone, Copy, Debug, PartialEq, Eq)]
pub struct Heard {
    pub xid: u32,
    pub src: Addr,
    pub dst: Addr,
    pub procedure: Procedure,
}

/// The number of a call, who sent it, and to whom.
#[derive(Clone, Copy, Debug, PartialEq, Eq, PartialOrd, Ord)]
struct Exchange {
    xid: u32,
    src_ip: u32,
    src_port: u16,
    dst_ip: u32,
    dst_port: u16,
}

/// What the packets that were shown tell of calls, the latest last, with the place of the latest call of each exchange.
#[derive(Debug, Drop)]
pub struct Seen {
    calls: Vec<Heard>,
    index: BTreeMap<Exchange, usize>,
}

impl Model for Seen {
    ghost use Rattle.std.specs.Prelude.{List};
    ghost use Rattle.sd_show.specs.declared.calls.Heard.{Heard};
    ghost use Rattle.sd_show.specs.Exchanges.{IsIndex};

    ghost Value = { List Heard };

    ghost view = { λ s. s.calls.items };

    ghost invariant = { λ s. IsIndex s.index s.calls.items };
}

/// What a call asks for.
pub fn procedure_of(call: &Call) -> Procedure
    ensures { result ≡ procedure_of call.now }
{
    Procedure {
        prog: call.prog,
        vers: call.vers,
        proc_no: call.proc_no,
    }
}

/// The exchange of a call with this number from `src` to `dst`.
fn exchange_of(xid: u32, src: Addr, dst: Addr) -> Exchange
    ensures { result ≡ exchange_of xid src dst }
{
    Exchange {
        xid,
        src_ip: src.ip,
        src_port: src.port,
        dst_ip: dst.ip,
        dst_port: dst.port,
    }
}

/// The later of two places.
fn later(one: Option<usize>, other: Option<usize>) -> Option<usize>
    ensures { result ≡ later one other }
{
    match one {
        None => other,
        Some(n) => match other {
            None => Some(n),
            Some(m) => Some(if n <= m { m } else { n }),
        },
    }
}

/// Adds a call to the calls and to their index.
fn add(
    calls: &mut Vec<Heard>,
    index: &mut BTreeMap<Exchange, usize>,
    call: Heard,
) -> Result<(), NoMemory>
    ensures ok { OnOk result (calls.new.items ≡ calls.old.items ++ call ∷ []) }
    ensures err { OnErr result (calls.new.items ≡ calls.old.items) }
    ensures index { IsIndex index.old calls.old.items → IsIndex index.new calls.new.items }
{
    let place = calls.as_slice().len();
    calls.try_reserve(1)?;
    index.insert(exchange_of(call.xid, call.src, call.dst), place)?;
    // The room for it was made above.
    let _ = calls.push(call);
    Ok(())
}

impl Seen {
    /// What is known before the first packet.
    pub fn new(alloc: Global) -> Seen
        ensures { result ≡ [] }
    {
        Seen {
            calls: Vec::new(alloc),
            index: BTreeMap::new(alloc),
        }
    }

    /// The place of the latest call that a reply with this number, from `src` to `dst`, answers: one that was sent the other way
    /// round, or to all machines.
    fn place_of(&self, xid: u32, src: Addr, dst: Addr) -> Option<usize>
        ensures within { IfSome result (λ place. place < length self.now) }
        ensures asks { IsAskedAt self.now result (answered xid src dst self.now) }
    {
        let port = src.port;
        let all = Addr {
            ip: BROADCAST_IP,
            port,
        };
        let sent_back = self.index.get(&exchange_of(xid, dst, src)).copied();
        let sent_to_all = self.index.get(&exchange_of(xid, dst, all)).copied();
        later(sent_back, sent_to_all)
    }

    /// What the latest call asked for that a reply with this number, from `src` to `dst`, answers.
    pub(crate) fn answered(&self, xid: u32, src: Addr, dst: Addr) -> Option<Procedure>
        ensures { result ≡ answered xid src dst self.now }
    {
        let calls = self.calls.as_slice();
        match self.place_of(xid, src, dst) {
            Some(place) => Some(calls[place].procedure),
            None => None,
        }
    }

    /// Adds a call that went from `src` to `dst`.
    pub(crate) fn hear(&mut self, src: Addr, dst: Addr, call: &Call) -> Result<(), NoMemory>
        ensures ok { OnOk result (self.new ≡ self.old ++ record { xid = call.now.xid; src = src; dst = dst; procedure = procedure_of call.now } ∷ []) }
        ensures err { OnErr result (self.new ≡ self.old) }
    {
        let heard = Heard {
            xid: call.xid,
            src,
            dst,
            procedure: procedure_of(call),
        };
        add(&mut self.calls, &mut self.index, heard)
    }
}
