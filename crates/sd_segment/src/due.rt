//! What comes at a tick.
ghost use Rattle.std.specs.List.{All, AllByRecursion};
ghost use Rattle.std.specs.List.Sorted.{IsNonDecreasingBy};
ghost use Rattle.std.specs.Prelude.{◌≡◌, ◌+◌, ◌≤◌, ◌++◌, length, map, take, IfOk, OnOk};
ghost use Rattle.sd_config.specs.Events.{fate_in, IsFate};
ghost use Rattle.sd_link.specs.Lawful.{due};
ghost use Rattle.sd_link.specs.Link.{last_tick};
ghost use Rattle.sd_segment.specs.Flight.{flying_of, goes_to, delays_of, copies, copies_to, AllFated};

use crate::ends::{End, goes_to};
use crate::flown::Flown;
use crate::queue::Queue;
use sd_config::{Config, Fate};
use sd_outside::NoMemory;
use std::alloc::Global;

/// Adds the id once for each delay that ends at this tick.
fn add_copies(
    ids: &mut Queue,
    id: usize,
    sent: u64,
    delays: &[u64],
    tick: u64,
) -> Result<(), NoMemory>
    requires { tick ≤ last_tick }
    ensures { OnOk result (ids.new ≡ ids.old ++ copies id sent tick delays.now) }
{
    for delay in delays {
        if sent.saturating_add(*delay) == tick {
            ids.push(id)?;
        }
    }
    Ok(())
}

/// Adds the id once for each of its packet's copies that come to this end at this tick.
fn add_packet(
    ids: &mut Queue,
    id: usize,
    config: &Config,
    end: End,
    fates: &[Fate],
    flown: &Flown,
    tick: u64,
) -> Result<(), NoMemory>
    requires { tick ≤ last_tick }
    ensures { OnOk result (ids.new ≡ ids.old ++ copies_to (goes_to end config.now) tick (delays_of fates.now flown.now.fate) (id, flying_of flown.now)) }
{
    if !goes_to(end, config, flown) {
        return Ok(());
    }
    match flown.fate {
        None => add_copies(ids, id, flown.tick, &[1], tick),
        Some(place) => match fates.get(place) {
            None => Ok(()),
            Some(fate) => add_copies(ids, id, flown.tick, fate.delays.as_slice(), tick),
        },
    }
}

/// How many packets at the front of the flight were sent so long ago that no copy of them comes at this tick.
fn outlived(flight: &[Flown], life: u64, tick: u64) -> usize
    requires { IsNonDecreasingBy (λ (f : Flown). f.tick) flight.now }
    ensures below { result ≤ length flight.now }
    ensures old { AllByRecursion (λ (f : Flown). f.tick + life ≤ tick) (take result flight.now) }
{
    match tick.checked_sub(life) {
        None => 0,
        Some(last) => flight.partition_point(|flown| flown.tick <= last),
    }
}

/// The ids of what comes to this end at a tick, in order of the ids and then of the fates.
pub fn due_ids(
    alloc: Global,
    config: &Config,
    end: End,
    fates: &[Fate],
    flight: &[Flown],
    tick: u64,
) -> Result<Queue, NoMemory>
    requires tick { tick ≤ last_tick }
    requires life { 2 ≤ config.now.life }
    requires fates { All (IsFate config.now.life) fates.now }
    requires fated { AllFated fates.now 0 flight.now }
    // The packets stand in the order in which they were sent.
    requires ascends { IsNonDecreasingBy (λ (f : Flown). f.tick) flight.now }
    ensures { IfOk result (λ ids. ids ≡ due (goes_to end config.now) (fate_in fates.now) (map flying_of flight.now) tick) }
{
    let mut ids = Queue::empty(alloc);
    for id in outlived(flight, config.life, tick)..flight.len() {
        add_packet(&mut ids, id, config, end, fates, &flight[id], tick)?;
    }
    Ok(ids)
}
