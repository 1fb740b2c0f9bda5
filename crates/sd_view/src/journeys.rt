//! What is drawn of each packet of a run.
ghost use Rattle.std.specs.Prelude.{◌≡◌, ◌||◌, ℕ, List, IfOk, OnOk};
ghost use Rattle.std.specs.Ordering.{nat_cmp};
ghost use Rattle.std.specs.BTreeSet.{contains};
ghost use Rattle.sd_view.specs.declared.lines.Line.{Line};
ghost use Rattle.sd_view.specs.Journeys.{arrives, is_stranger, is_lost, Says, AreJourneys};

use crate::brief::brief;
use crate::ends::{Column, ends_of, receiver, sender};
use crate::lines::Line;
use crate::protocols::{Protocol, protocol_of};
use sd_outside::{ByteList, ListOf, NoMemory, Packet};
use sd_show::{Seen, ShowError, show_line};
use sd_text::write_packet_line;
use std::alloc::Global;
use std::collections::BTreeSet;

/// What is drawn of a packet.
#[derive(Debug, Drop)]
pub(crate) struct Journey {
    /// Which line says that it is sent, counted from 0.
    pub place: usize,
    pub from: Column,
    pub to: Column,
    /// It goes to either end, and never arrives.
    pub lost: bool,
    pub protocol: Protocol,
    /// What it says, cut to a line.
    pub text: ByteList,
}

/// Adds the numbers of the packets that arrive.
fn add_arrivals(arrived: &mut BTreeSet<u64>, run: &[Line]) -> Result<(), NoMemory>
    ensures { OnOk result ((id : ℕ) → contains nat_cmp arrived.new id ≡ (contains nat_cmp arrived.old id || arrives id run.now)) }
{
    for line in run {
        if let Line::Came { id, .. } = line {
            arrived.insert(*id)?;
        }
    }
    Ok(())
}

/// The numbers of the packets that arrive.
fn arrivals(alloc: Global, run: &[Line]) -> Result<BTreeSet<u64>, NoMemory>
    ensures { IfOk result (λ set. (id : ℕ) → contains nat_cmp set id ≡ arrives id run.now) }
{
    let mut arrived = BTreeSet::new(alloc);
    add_arrivals(&mut arrived, run)?;
    Ok(arrived)
}

/// Whether a column is that of strangers.
pub(crate) fn is_stranger(column: Column) -> bool
    ensures { result ≡ is_stranger column }
{
    match column {
        Column::Client => false,
        Column::Server => false,
        Column::Stranger => true,
    }
}

/// Whether a packet that goes there is lost, by the numbers of those that arrive.
fn is_lost(arrived: &BTreeSet<u64>, id: u64, to: Column) -> bool
    ensures { (run : List Line) → ((n : ℕ) → contains nat_cmp arrived.now n ≡ arrives n run) → result ≡ is_lost run id to }
{
    !is_stranger(to) && !arrived.contains(&id)
}

/// What a packet says behind the calls that were seen.
fn says(alloc: Global, seen: &mut Seen, packet: &Packet) -> Result<ByteList, NoMemory>
    ensures { IfOk result (λ text. Says seen.old packet.now text seen.new) }
{
    match show_line(alloc, seen, packet) {
        Ok(text) => Ok(text),
        Err(ShowError::Bad { .. }) => {
            let mut text = ByteList::empty(alloc);
            write_packet_line(alloc, packet, &mut text)?;
            Ok(text)
        }
        Err(ShowError::NoMemory) => Err(NoMemory),
    }
}

/// What is drawn of each packet of a run, in the order of their numbers.
pub(crate) fn journeys(alloc: Global, run: &[Line]) -> Result<ListOf<Journey>, NoMemory>
    ensures { IfOk result (AreJourneys run.now) }
{
    let ends = ends_of(run);
    let arrived = arrivals(alloc, run)?;
    let mut seen = Seen::new(alloc);
    let mut journeys = ListOf::empty(alloc);
    for place in 0..run.len() {
        match &run[place] {
            Line::Sent { id, packet, .. } => {
                let said = says(alloc, &mut seen, packet)?;
                let to = receiver(ends, packet);
                journeys.push(Journey {
                    place,
                    from: sender(ends, packet),
                    to,
                    lost: is_lost(&arrived, *id, to),
                    protocol: protocol_of(packet),
                    text: brief(alloc, said.as_slice())?,
                })?;
            }
            Line::Came { .. } => {}
            Line::Failed { .. } => {}
            Line::Answer { .. } => {}
        }
    }
    Ok(journeys)
}
