//! The record of a segment as text.
ghost use Rattle.std.specs.Prelude.{◌≡◌, ◌+◌, ◌<◌, ◌^◌, ◌++◌, length, take, drop, IfOk, OnOk};
ghost use Rattle.sd_link.specs.Printing.{record_text};
ghost use Rattle.sd_segment.specs.Kept.{sent_entries, entries_of_kept, entries_kept};

use crate::flown::{Flown, Kept, What};
use sd_outside::{ByteList, NoMemory};
use sd_script::{write_failed, write_got, write_sent, write_served};
use std::alloc::Global;

/// So many packets from this id on.
fn stretch(flight: &[Flown], first: usize, count: usize) -> &[Flown]
    ensures { result.now ≡ take count (drop first flight.now) }
{
    let start = first.min(flight.len());
    let rest = &flight[start..];
    let end = count.min(rest.len());
    &rest[..end]
}

fn write_all_sent(
    alloc: Global,
    tick: u64,
    first: usize,
    sent: &[Flown],
    text: &mut ByteList,
) -> Result<(), NoMemory>
    requires { 0 < length sent.now → first + length sent.now < 2 ^ 64 }
    ensures { OnOk result (text.new ≡ text.old ++ record_text (sent_entries tick first sent.now)) }
{
    let mut id = first;
    for flown in sent {
        write_sent(alloc, tick, id as u64, &flown.packet, text)?;
        id = id.saturating_add(1);
    }
    Ok(())
}

fn write_kept(
    alloc: Global,
    flight: &[Flown],
    kept: Kept,
    text: &mut ByteList,
) -> Result<(), NoMemory>
    ensures { OnOk result (text.new ≡ text.old ++ record_text (entries_of_kept flight.now kept.tick kept.what)) }
{
    match kept.what {
        What::Sent { id } => write_all_sent(alloc, kept.tick, id, stretch(flight, id, 1), text),
        What::Strayed { id } => write_all_sent(alloc, kept.tick, id, stretch(flight, id, 1), text),
        What::Served { id, first, count } => {
            write_served(alloc, kept.tick, id as u64, text)?;
            write_all_sent(alloc, kept.tick, first, stretch(flight, first, count), text)
        }
        What::Again { id, .. } => {
            write_all_sent(alloc, kept.tick, id, stretch(flight, id, 1), text)
        }
        What::Ended { .. } => Ok(()),
        What::Got { id } => write_got(alloc, kept.tick, id as u64, text),
        What::Failed => write_failed(alloc, kept.tick, text),
    }
}

/// The record's lines of what was kept.
pub fn lines_of(alloc: Global, flight: &[Flown], kept: &[Kept]) -> Result<ByteList, NoMemory>
    ensures { IfOk result (λ text. text ≡ record_text (entries_kept flight.now kept.now)) }
{
    let mut text = ByteList::empty(alloc);
    for entry in kept {
        write_kept(alloc, flight, *entry, &mut text)?;
    }
    Ok(text)
}
