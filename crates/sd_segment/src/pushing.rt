//! What goes into flight and what happened are kept together, or neither.
ghost use Rattle.std.specs.Prelude.{◌≡◌, ◌+◌, ◌-◌, ◌<◌, ◌≤◌, [], ◌∷◌, ◌++◌, length, IfOk, OnOk, OnErr};
ghost use Rattle.sd_link.specs.Link.{last_tick};
ghost use Rattle.std.specs.Vec.{vec_len, vec_capacity};
ghost use Rattle.sd_segment.specs.Flight.{replied, Flies};
ghost use Rattle.sd_segment.specs.Kept.{turns_kept, strays_kept};
ghost use Rattle.sd_segment.specs.declared.flown.What.TheVariants as what;

use crate::flown::{Flown, Kept, Origin, What};
use crate::strays::EventBook;
use sd_outside::{NoMemory, Packet};
use sd_server::{Due, PacketList};

const LAST_ID: usize = 1 << 62;

/// The id of the next packet. No memory holds more packets than there are ids.
pub fn next_id(flight: &[Flown]) -> Result<usize, NoMemory>
    ensures next { IfOk result (λ id. id ≡ length flight.now) }
    ensures room { OnOk result (length flight.now < last_tick) }
    ensures full { OnErr result (last_tick ≤ length flight.now) }
{
    let id = flight.len();
    if id < LAST_ID { Ok(id) } else { Err(NoMemory) }
}

/// The id of the next packet, where so many more have ids.
pub fn room_for(flight: &[Flown], count: usize) -> Result<usize, NoMemory>
    ensures next { IfOk result (λ id. id ≡ length flight.now) }
    ensures room { OnOk result (length flight.now + count ≤ last_tick) }
{
    let id = flight.len();
    if id <= LAST_ID && count <= LAST_ID - id {
        Ok(id)
    } else {
        Err(NoMemory)
    }
}

/// A packet goes into flight, and what happened is kept.
pub fn push_both(
    flight: &mut Vec<Flown>,
    kept: &mut Vec<Kept>,
    flown: Flown,
    entry: Kept,
) -> Result<(), NoMemory>
    ensures flight { OnOk result (flight.new.items ≡ flight.old.items ++ flown ∷ []) }
    ensures kept { OnOk result (kept.new.items ≡ kept.old.items ++ entry ∷ []) }
    ensures flight_err { OnErr result (flight.new.items ≡ flight.old.items) }
    ensures kept_err { OnErr result (kept.new.items ≡ kept.old.items) }
{
    flight.try_reserve(1)?;
    kept.push(entry)?;
    push_reserved(flight, flown);
    Ok(())
}

/// A packet goes into flight, and its send fails. There is room for it and for both entries.
pub fn push_failed_send(flight: &mut Vec<Flown>, kept: &mut Vec<Kept>, flown: Flown, id: usize)
    requires flight_room { vec_len flight.old < vec_capacity flight.old }
    requires kept_room { vec_len kept.old + 2 ≤ vec_capacity kept.old }
    ensures flight { flight.new.items ≡ flight.old.items ++ flown ∷ [] }
    ensures kept { kept.new.items ≡ (kept.old.items ++ record { tick = flown.tick; what = what.Sent id } ∷ []) ++ record { tick = flown.tick; what = what.Failed } ∷ [] }
{
    let tick = flown.tick;
    let what = What::Sent { id };
    push_reserved(kept, Kept { tick, what });
    let what = What::Failed;
    push_reserved(kept, Kept { tick, what });
    push_reserved(flight, flown);
}

/// Adds an item for which there is room.
fn push_reserved<T: Drop>(list: &mut Vec<T>, item: T)
    requires { vec_len list.old < vec_capacity list.old }
    ensures items { list.new.items ≡ list.old.items ++ item ∷ [] }
    ensures len { vec_len list.new ≡ vec_len list.old + 1 }
    ensures room { vec_capacity list.old ≤ vec_capacity list.new }
{
    match list.push(item) {
        Ok(()) => {}
        Err(_) => {}
    }
}

/// Takes room for so many packets more, and for as many entries.
pub fn reserve_both(
    flight: &mut Vec<Flown>,
    kept: &mut Vec<Kept>,
    count: usize,
) -> Result<(), NoMemory>
    ensures flight { flight.new.items ≡ flight.old.items }
    ensures kept { kept.new.items ≡ kept.old.items }
    ensures flight_room { OnOk result (vec_len flight.new + count ≤ vec_capacity flight.new) }
    ensures kept_room { OnOk result (vec_len kept.new + count ≤ vec_capacity kept.new) }
{
    flight.try_reserve(count)?;
    kept.try_reserve(count)?;
    Ok(())
}

/// A packet came to the server, which sends at most one, with the next id, `first`.
pub fn push_served(
    flight: &mut Vec<Flown>,
    kept: &mut Vec<Kept>,
    packets: PacketList,
    tick: u64,
    id: usize,
    first: usize,
    fate: Option<usize>,
)
    requires few { length packets ≤ 1 }
    requires flight_room { vec_len flight.old < vec_capacity flight.old }
    requires kept_room { vec_len kept.old < vec_capacity kept.old }
    ensures flight { flight.new.items ≡ flight.old.items ++ replied tick fate packets }
    ensures kept { kept.new.items ≡ kept.old.items ++ record { tick = tick; what = what.Served id first (length packets) } ∷ [] }
{
    let mut packets = packets.into_vec();
    let count = packets.len();
    let what = What::Served { id, first, count };
    push_reserved(kept, Kept { tick, what });
    match packets.pop() {
        None => {}
        Some(packet) => {
            let flown = Flown {
                from: Origin::Server,
                tick,
                packet,
                fate,
            };
            push_reserved(flight, flown);
        }
    }
}

/// A packet goes into flight, for which there is room.
fn push_packet(flight: &mut Vec<Flown>, events: &EventBook, from: Origin, tick: u64, packet: Packet)
    requires { vec_len flight.old < vec_capacity flight.old }
    ensures flies { Flies events.now.fates from tick flight.old.items (packet ∷ []) flight.new.items }
    ensures len { vec_len flight.new ≡ vec_len flight.old + 1 }
    ensures room { vec_capacity flight.old ≤ vec_capacity flight.new }
{
    let fate = events.place_of(flight.len());
    let flown = Flown {
        from,
        tick,
        packet,
        fate,
    };
    push_reserved(flight, flown);
}

/// Packets go into flight, for which there is room.
pub fn push_packets(
    flight: &mut Vec<Flown>,
    events: &EventBook,
    from: Origin,
    tick: u64,
    packets: PacketList,
)
    requires { vec_len flight.old + length packets ≤ vec_capacity flight.old }
    ensures { Flies events.now.fates from tick flight.old.items packets flight.new.items }
{
    for packet in packets.into_vec() {
        push_packet(flight, events, from, tick, packet);
    }
}

/// Strangers send so many packets, the first under this id. There is room for as many entries.
pub fn push_strays(kept: &mut Vec<Kept>, count: usize, tick: u64, first: usize)
    requires room { vec_len kept.old + count ≤ vec_capacity kept.old }
    requires ids { first + count ≤ last_tick }
    ensures { kept.new.items ≡ kept.old.items ++ strays_kept tick first count }
{
    for place in 0..count {
        let what = What::Strayed { id: first + place };
        push_reserved(kept, Kept { tick, what });
    }
}

/// Sessions have their turns, the first that sends again under this id. There is room for as many entries.
pub fn push_turns(kept: &mut Vec<Kept>, turns: &[Due], tick: u64, first: usize)
    requires room { vec_len kept.old + length turns.now ≤ vec_capacity kept.old }
    requires ids { first + length turns.now ≤ last_tick }
    ensures { kept.new.items ≡ kept.old.items ++ turns_kept tick first turns.now }
{
    let mut id = first;
    for turn in turns {
        let number = turn.number;
        if turn.again {
            let what = What::Again { number, id };
            push_reserved(kept, Kept { tick, what });
            id += 1;
        } else {
            let what = What::Ended { number };
            push_reserved(kept, Kept { tick, what });
        }
    }
}
