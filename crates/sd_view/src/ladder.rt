//! The ladder of a run.
ghost use Rattle.std.specs.Prelude.{◌≡◌, ◌++◌, [], codes, option_map, IfOk, OnOk};
ghost use Rattle.std.specs.Fmt.{decimal};
ghost use Rattle.sd_view.specs.Brief.{at_left, at_right, spaces};
ghost use Rattle.sd_view.specs.Ladder.{gap, lifelines, bare, row, arrow_right, arrow_left, leaving, served, got, coming, event, sent_row, came_row, line_row, heading, meets_stranger, has_strangers, ladder};

use crate::brief::{push_fit, push_left, push_right, spaces};
use crate::ends::Column;
use crate::journeys::{Journey, is_stranger};
use crate::lines::{Arrival, Line};
use sd_outside::{ByteList, NoMemory};
use sd_text::push_number;
use std::alloc::Global;

/// The columns between two lifelines.
const GAP: usize = 19;

/// No arrow between two lifelines.
fn no_arrow(alloc: Global) -> Result<ByteList, NoMemory>
    ensures { IfOk result (λ text. text ≡ spaces gap) }
{
    spaces(alloc, GAP)
}

/// An arrow that points to the right.
fn arrow_right(alloc: Global, lost: bool, id: u64) -> Result<ByteList, NoMemory>
    ensures { IfOk result (λ text. text ≡ arrow_right lost id) }
{
    let mut text = ByteList::from_slice(alloc, b"-- ")?;
    push_number(alloc, &mut text, id)?;
    text.push_slice(if lost { b" --x" } else { b" -->" })?;
    Ok(text)
}

/// An arrow that points to the left.
fn arrow_left(alloc: Global, lost: bool, id: u64) -> Result<ByteList, NoMemory>
    ensures { IfOk result (λ text. text ≡ arrow_left lost id) }
{
    let mut text = ByteList::from_slice(alloc, if lost { b"x-- " } else { b"<-- " })?;
    push_number(alloc, &mut text, id)?;
    text.push_slice(b" --")?;
    Ok(text)
}

/// A text at the left of the columns between two lifelines.
fn at_left(alloc: Global, text: &[u8]) -> Result<ByteList, NoMemory>
    ensures { IfOk result (λ out. out ≡ at_left gap text.now) }
{
    let mut out = ByteList::empty(alloc);
    push_left(alloc, &mut out, GAP, text)?;
    Ok(out)
}

/// A text at their right.
fn at_right(alloc: Global, text: &[u8]) -> Result<ByteList, NoMemory>
    ensures { IfOk result (λ out. out ≡ at_right gap text.now) }
{
    let mut out = ByteList::empty(alloc);
    push_right(alloc, &mut out, GAP, text)?;
    Ok(out)
}

/// The lifelines, with what stands between them.
fn lifelines(
    alloc: Global,
    strangers: bool,
    first: &[u8],
    second: &[u8],
) -> Result<ByteList, NoMemory>
    ensures { IfOk result (λ text. text ≡ lifelines strangers first.now second.now) }
{
    let mut text = ByteList::from_slice(alloc, b"|")?;
    text.push_slice(first)?;
    text.push_slice(b"|")?;
    if strangers {
        text.push_slice(second)?;
        text.push_slice(b"|")?;
    }
    Ok(text)
}

/// The lifelines with something between those of the client and the server.
fn before_server(alloc: Global, strangers: bool, first: &[u8]) -> Result<ByteList, NoMemory>
    ensures { IfOk result (λ text. text ≡ lifelines strangers first.now (spaces gap)) }
{
    let second = no_arrow(alloc)?;
    lifelines(alloc, strangers, first, second.as_slice())
}

/// The lifelines with something between those of the server and the strangers.
fn behind_server(alloc: Global, strangers: bool, second: &[u8]) -> Result<ByteList, NoMemory>
    ensures { IfOk result (λ text. text ≡ lifelines strangers (spaces gap) second.now) }
{
    let first = no_arrow(alloc)?;
    lifelines(alloc, strangers, first.as_slice(), second)
}

/// The lifelines alone.
#[tactic(auto, unfolding(crate::specs::Ladder::bare))]
fn bare(alloc: Global, strangers: bool) -> Result<ByteList, NoMemory>
    ensures { IfOk result (λ text. text ≡ bare strangers) }
{
    let first = no_arrow(alloc)?;
    before_server(alloc, strangers, first.as_slice())
}

/// A packet that leaves.
fn leaving(
    alloc: Global,
    strangers: bool,
    id: u64,
    lost: bool,
    from: Column,
    to: Column,
) -> Result<ByteList, NoMemory>
    ensures { IfOk result (λ text. text ≡ leaving strangers id lost from to) }
{
    let right = arrow_right(alloc, lost, id)?;
    let left = arrow_left(alloc, lost, id)?;
    match from {
        Column::Client => {
            before_server(
                alloc,
                strangers,
                at_left(alloc, right.as_slice())?.as_slice(),
            )
        }
        Column::Server => match to {
            Column::Client => {
                before_server(
                    alloc,
                    strangers,
                    at_right(alloc, left.as_slice())?.as_slice(),
                )
            }
            Column::Server => {
                before_server(
                    alloc,
                    strangers,
                    at_right(alloc, left.as_slice())?.as_slice(),
                )
            }
            Column::Stranger => {
                behind_server(
                    alloc,
                    strangers,
                    at_left(alloc, right.as_slice())?.as_slice(),
                )
            }
        },
        Column::Stranger => {
            behind_server(
                alloc,
                strangers,
                at_right(alloc, left.as_slice())?.as_slice(),
            )
        }
    }
}

/// A packet that comes to the server.
fn served(alloc: Global, strangers: bool, id: u64, from: Column) -> Result<ByteList, NoMemory>
    ensures { IfOk result (λ text. text ≡ served strangers id from) }
{
    let right = arrow_right(alloc, false, id)?;
    let left = arrow_left(alloc, false, id)?;
    match from {
        Column::Client => {
            before_server(
                alloc,
                strangers,
                at_right(alloc, right.as_slice())?.as_slice(),
            )
        }
        Column::Server => {
            before_server(
                alloc,
                strangers,
                at_right(alloc, right.as_slice())?.as_slice(),
            )
        }
        Column::Stranger => {
            behind_server(
                alloc,
                strangers,
                at_left(alloc, left.as_slice())?.as_slice(),
            )
        }
    }
}

/// A packet that comes to the client.
fn got(alloc: Global, strangers: bool, id: u64) -> Result<ByteList, NoMemory>
    ensures { IfOk result (λ text. text ≡ got strangers id) }
{
    let left = arrow_left(alloc, false, id)?;
    before_server(
        alloc,
        strangers,
        at_left(alloc, left.as_slice())?.as_slice(),
    )
}

/// A packet that comes.
fn coming(
    alloc: Global,
    strangers: bool,
    id: u64,
    how: Arrival,
    from: Column,
) -> Result<ByteList, NoMemory>
    ensures { IfOk result (λ text. text ≡ coming strangers id how from) }
{
    match how {
        Arrival::Served => served(alloc, strangers, id, from),
        Arrival::Crashed => served(alloc, strangers, id, from),
        Arrival::Faulted => served(alloc, strangers, id, from),
        Arrival::Got => got(alloc, strangers, id),
    }
}

/// What happened where a packet came.
fn event(how: Arrival) -> &'static [u8]
    ensures { result.now ≡ event how }
{
    match how {
        Arrival::Served => b"",
        Arrival::Crashed => b"  the server crashed",
        Arrival::Faulted => b"  the server's disk failed",
        Arrival::Got => b"",
    }
}

/// Adds a row.
fn push_row(
    alloc: Global,
    out: &mut ByteList,
    tick: &[u8],
    middle: &[u8],
    text: &[u8],
) -> Result<(), NoMemory>
    ensures { OnOk result (out.new ≡ out.old ++ row tick.now middle.now text.now) }
{
    let mut row = ByteList::empty(alloc);
    push_right(alloc, &mut row, 8, tick)?;
    row.push_slice(b"  ")?;
    row.push_slice(middle)?;
    row.push_slice(text)?;
    push_fit(out, 120, row.as_slice())?;
    out.push_slice(b"\n")
}

/// A tick as a text.
fn tick_text(alloc: Global, tick: u64) -> Result<ByteList, NoMemory>
    ensures { IfOk result (λ text. text ≡ decimal tick) }
{
    let mut text = ByteList::empty(alloc);
    push_number(alloc, &mut text, tick)?;
    Ok(text)
}

/// Adds the row of a packet that is sent.
fn push_sent(
    alloc: Global,
    out: &mut ByteList,
    strangers: bool,
    tick: u64,
    id: u64,
    journey: Option<&Journey>,
) -> Result<(), NoMemory>
    ensures { OnOk result (out.new ≡ out.old ++ sent_row strangers tick id (option_map (λ j. j.now) journey.entry)) }
{
    match journey {
        Some(journey) => {
            let tick = tick_text(alloc, tick)?;
            let middle = leaving(alloc, strangers, id, journey.lost, journey.from, journey.to)?;
            let mut text = ByteList::from_slice(alloc, b"  ")?;
            text.push_slice(journey.text.as_slice())?;
            push_row(
                alloc,
                out,
                tick.as_slice(),
                middle.as_slice(),
                text.as_slice(),
            )
        }
        None => Ok(()),
    }
}

/// Adds the row of a packet that comes.
fn push_came(
    alloc: Global,
    out: &mut ByteList,
    strangers: bool,
    tick: u64,
    id: u64,
    how: Arrival,
    journey: Option<&Journey>,
) -> Result<(), NoMemory>
    ensures { OnOk result (out.new ≡ out.old ++ came_row strangers tick id how (option_map (λ j. j.now) journey.entry)) }
{
    match journey {
        Some(journey) => {
            let tick = tick_text(alloc, tick)?;
            let middle = coming(alloc, strangers, id, how, journey.from)?;
            push_row(alloc, out, tick.as_slice(), middle.as_slice(), event(how))
        }
        None => Ok(()),
    }
}

/// Adds the row of a failure of the client's network.
fn push_failed(
    alloc: Global,
    out: &mut ByteList,
    strangers: bool,
    tick: u64,
) -> Result<(), NoMemory>
    ensures { OnOk result (out.new ≡ out.old ++ row (decimal tick) (bare strangers) (codes "  the client's network failed")) }
{
    let tick = tick_text(alloc, tick)?;
    let middle = bare(alloc, strangers)?;
    push_row(
        alloc,
        out,
        tick.as_slice(),
        middle.as_slice(),
        b"  the client's network failed",
    )
}

/// Adds the row of an answer.
fn push_answer(
    alloc: Global,
    out: &mut ByteList,
    strangers: bool,
    answer: &[u8],
) -> Result<(), NoMemory>
    ensures { OnOk result (out.new ≡ out.old ++ row [] (bare strangers) (codes "  answer: " ++ answer.now)) }
{
    let middle = bare(alloc, strangers)?;
    let mut text = ByteList::from_slice(alloc, b"  answer: ")?;
    text.push_slice(answer)?;
    push_row(alloc, out, b"", middle.as_slice(), text.as_slice())
}

/// Adds the row of a line.
fn push_line(
    alloc: Global,
    out: &mut ByteList,
    strangers: bool,
    journeys: &[Journey],
    line: &Line,
) -> Result<(), NoMemory>
    ensures { OnOk result (out.new ≡ out.old ++ line_row strangers journeys.now line.now) }
{
    match line {
        Line::Sent { tick, id, .. } => {
            push_sent(
                alloc,
                out,
                strangers,
                *tick,
                *id,
                journeys.get(*id as usize),
            )
        }
        Line::Came { how, tick, id } => push_came(
            alloc,
            out,
            strangers,
            *tick,
            *id,
            *how,
            journeys.get(*id as usize),
        ),
        Line::Failed { tick } => push_failed(alloc, out, strangers, *tick),
        Line::Answer { answer } => push_answer(alloc, out, strangers, answer.as_slice()),
    }
}

/// Whether a packet is from or to a stranger.
fn meets_stranger(journey: &Journey) -> bool
    ensures { result ≡ meets_stranger journey.now }
{
    is_stranger(journey.from) || is_stranger(journey.to)
}

/// Whether any packet is from or to a stranger.
pub(crate) fn has_strangers(journeys: &[Journey]) -> bool
    ensures { result ≡ has_strangers journeys.now }
{
    for journey in journeys {
        if meets_stranger(journey) {
            return true;
        }
    }
    false
}

/// The line above the rows.
fn heading(alloc: Global, strangers: bool) -> Result<ByteList, NoMemory>
    ensures { IfOk result (λ text. text ≡ heading strangers) }
{
    let mut text = ByteList::from_slice(alloc, b"    tick  client              server")?;
    if strangers {
        text.push_slice(b"              strangers\n")?;
    } else {
        text.push_slice(b"\n")?;
    }
    Ok(text)
}

/// The ladder of a run.
pub(crate) fn ladder(
    alloc: Global,
    journeys: &[Journey],
    run: &[Line],
) -> Result<ByteList, NoMemory>
    ensures { IfOk result (λ text. text ≡ ladder journeys.now run.now) }
{
    let strangers = has_strangers(journeys);
    let mut out = heading(alloc, strangers)?;
    for line in run {
        push_line(alloc, &mut out, strangers, journeys, line)?;
    }
    Ok(out)
}
