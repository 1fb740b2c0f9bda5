//! Which lines of strangers belong to a tick.
ghost use Rattle.std.specs.Prelude.{◌≡◌, ◌++◌, ◌==◌, ℕ, [], ◌∷◌, None, IfOk, OnOk, if◌then◌else◌};
ghost use Rattle.std.specs.BTreeMap.{get};
ghost use Rattle.std.specs.List.{flat_map};
ghost use Rattle.std.specs.Ordering.{nat_cmp};
ghost use Rattle.sd_config.specs.Plan.{strays_packet};
ghost use Rattle.sd_segment.specs.Strays.{items_or, packet_at, ArePlaces};

use sd_config::Stranger;
use sd_outside::{NoMemory, Packet};
use sd_server::PacketList;
use std::alloc::Global;
use std::collections::BTreeMap;

/// Takes out the places that are known of a tick.
fn take_places(alloc: Global, map: &mut BTreeMap<u64, Vec<usize>>, tick: u64) -> Vec<usize>
    ensures places { result.items ≡ items_or (get nat_cmp map.old tick) }
    ensures others { (q : ℕ) → get nat_cmp map.new q ≡ (if tick == q then None else get nat_cmp map.old q) }
{
    match map.remove(&tick) {
        Some(places) => places,
        None => Vec::new(alloc),
    }
}

/// Adds the place of a line with this tick.
fn add_place(
    alloc: Global,
    map: &mut BTreeMap<u64, Vec<usize>>,
    tick: u64,
    place: usize,
) -> Result<(), NoMemory>
    ensures { OnOk result ((q : ℕ) → items_or (get nat_cmp map.new q) ≡ items_or (get nat_cmp map.old q) ++ (if tick == q then place ∷ [] else [])) }
{
    let mut places = take_places(alloc, map, tick);
    places.push(place)?;
    map.insert(tick, places)?;
    Ok(())
}

/// For each tick, the places of the lines that have it, in order.
pub fn stray_places(
    alloc: Global,
    lines: &[Stranger],
) -> Result<BTreeMap<u64, Vec<usize>>, NoMemory>
    ensures { IfOk result (λ map. ArePlaces map lines.now) }
{
    let mut map = BTreeMap::new(alloc);
    for place in 0..lines.len() {
        add_place(alloc, &mut map, lines[place].tick, place)?;
    }
    Ok(map)
}

/// The datagram of a line.
fn packet_of(line: &Stranger) -> Result<Packet, NoMemory>
    ensures { IfOk result (λ packet. packet ≡ strays_packet line.now) }
{
    Ok(Packet::Udp {
        src: line.src,
        dst: line.dst,
        body: line.body.copy()?,
    })
}

/// Adds the datagram of the line at this place.
fn push_stray(list: &mut PacketList, lines: &[Stranger], place: usize) -> Result<(), NoMemory>
    ensures { OnOk result (list.new ≡ list.old ++ packet_at lines.now place) }
{
    match lines.get(place) {
        None => Ok(()),
        Some(line) => {
            list.push(packet_of(line)?)?;
            Ok(())
        }
    }
}

/// The datagrams of the lines at these places, in order.
pub fn packets_of(
    alloc: Global,
    lines: &[Stranger],
    places: &[usize],
) -> Result<PacketList, NoMemory>
    ensures { IfOk result (λ list. list ≡ flat_map (packet_at lines.now) places.now) }
{
    let mut list = PacketList::empty(alloc);
    for place in places {
        push_stray(&mut list, lines, *place)?;
    }
    Ok(list)
}
