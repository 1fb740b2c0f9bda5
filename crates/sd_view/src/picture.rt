//! The picture of a run, a document of SVG.
ghost use Rattle.std.specs.Prelude.{◌≡◌, ◌++◌, ◌<◌, codes, option_map, IfOk, OnOk};
ghost use Rattle.std.specs.Fmt.{decimal};
ghost use Rattle.sd_view.specs.Picture.{x_of, text_x, y_of, class_of, arrow_class, tick_element, text_element, lost_elements, leaving_elements, sent_elements, arrival_x, arrival_class, arrival_text, came_elements, line_elements, rows, svg_tag, opening, text_style, class_style, colour_style, head_marker, background, style, legend, lifeline, lifelines, picture};

use crate::elements::{push_cross_element, push_line_element, push_numbered, push_text_element};
use crate::ends::Column;
use crate::journeys::{Journey, is_stranger};
use crate::ladder::has_strangers;
use crate::lines::{Arrival, Line};
use crate::protocols::Protocol;
use sd_outside::{ByteList, NoMemory};
use sd_text::push_number;
use std::alloc::Global;

/// The lifeline of a column.
#[tactic(auto, unfolding(crate::specs::Picture::x_of))]
fn x_of(column: Column) -> u64
    ensures place { result ≡ x_of column }
    ensures small { result < 1000 }
{
    match column {
        Column::Client => 140,
        Column::Server => 400,
        Column::Stranger => 660,
    }
}

/// Where texts begin.
#[tactic(auto, unfolding(crate::specs::Picture::text_x))]
fn text_x(strangers: bool) -> u64
    ensures place { result ≡ text_x strangers }
    ensures small { result < 1000 }
{
    if strangers { 680 } else { 420 }
}

/// The row of the line at this place. A picture of 2^59 rows has room in no memory.
#[tactic(auto, unfolding(crate::specs::Picture::y_of))]
fn y_of(place: usize) -> Result<u64, NoMemory>
    ensures { IfOk result (λ y. y ≡ y_of place) }
{
    if place < 1 << 59 {
        Ok(90 + 16 * place as u64)
    } else {
        Err(NoMemory)
    }
}

/// The class of what is drawn of a packet.
fn class_of(protocol: Protocol) -> &'static [u8]
    ensures { result.now ≡ class_of protocol }
{
    match protocol {
        Protocol::Rarp => b"rarp",
        Protocol::Tftp => b"tftp",
        Protocol::Portmap => b"portmap",
        Protocol::Bootparams => b"bootparams",
        Protocol::Mount => b"mount",
        Protocol::Nfs => b"nfs",
        Protocol::Other => b"other",
    }
}

/// The class of its arrows.
fn arrow_class(alloc: Global, protocol: Protocol) -> Result<ByteList, NoMemory>
    ensures { IfOk result (λ class. class ≡ arrow_class protocol) }
{
    let mut class = ByteList::from_slice(alloc, class_of(protocol))?;
    class.push_slice(b" arrow")?;
    Ok(class)
}

/// Adds the tick of a row.
#[tactic(auto, unfolding(crate::specs::Picture::tick_element))]
fn push_tick(alloc: Global, out: &mut ByteList, tick: u64, y: u64) -> Result<(), NoMemory>
    ensures { OnOk result (out.new ≡ out.old ++ tick_element tick y) }
{
    let mut text = ByteList::empty(alloc);
    push_number(alloc, &mut text, tick)?;
    push_text_element(alloc, out, b"tick", 120, y, text.as_slice())
}

/// Adds a line with a cross at its end.
#[tactic(auto, unfolding(crate::specs::Picture::lost_elements))]
fn push_lost(alloc: Global, out: &mut ByteList, y: u64, journey: &Journey) -> Result<(), NoMemory>
    ensures { OnOk result (out.new ≡ out.old ++ lost_elements y journey.now) }
{
    let from = x_of(journey.from);
    let end = (from * 2 + x_of(journey.to)) / 3;
    let class = class_of(journey.protocol);
    push_line_element(alloc, out, class, (from, y), (end, y))?;
    push_cross_element(alloc, out, class, end, y)
}

/// Adds what is drawn where a packet leaves.
#[tactic(auto, unfolding(crate::specs::Picture::leaving_elements))]
fn push_leaving(
    alloc: Global,
    out: &mut ByteList,
    y: u64,
    journey: &Journey,
) -> Result<(), NoMemory>
    ensures { OnOk result (out.new ≡ out.old ++ leaving_elements y journey.now) }
{
    if journey.lost {
        return push_lost(alloc, out, y, journey);
    }
    if is_stranger(journey.to) {
        let class = arrow_class(alloc, journey.protocol)?;
        let start = (x_of(journey.from), y);
        return push_line_element(alloc, out, class.as_slice(), start, (x_of(journey.to), y));
    }
    Ok(())
}

/// A number and a text behind it.
fn numbered(alloc: Global, id: u64, gap: &[u8], text: &[u8]) -> Result<ByteList, NoMemory>
    ensures { IfOk result (λ out. out ≡ decimal id ++ gap.now ++ text.now) }
{
    let mut out = ByteList::empty(alloc);
    push_number(alloc, &mut out, id)?;
    out.push_slice(gap)?;
    out.push_slice(text)?;
    Ok(out)
}

/// Adds the row of a packet that is sent.
fn push_sent(
    alloc: Global,
    out: &mut ByteList,
    strangers: bool,
    y: u64,
    tick: u64,
    id: u64,
    journey: Option<&Journey>,
) -> Result<(), NoMemory>
    ensures { OnOk result (out.new ≡ out.old ++ sent_elements strangers y tick id (option_map (λ j. j.now) journey.entry)) }
{
    match journey {
        Some(journey) => {
            let text = numbered(alloc, id, b"  ", journey.text.as_slice())?;
            let class = class_of(journey.protocol);
            push_tick(alloc, out, tick, y)?;
            push_leaving(alloc, out, y, journey)?;
            push_text_element(alloc, out, class, text_x(strangers), y, text.as_slice())
        }
        None => Ok(()),
    }
}

/// Where a packet arrived.
fn arrival_x(how: Arrival) -> u64
    ensures { result ≡ arrival_x how }
{
    match how {
        Arrival::Served => x_of(Column::Server),
        Arrival::Crashed => x_of(Column::Server),
        Arrival::Faulted => x_of(Column::Server),
        Arrival::Got => x_of(Column::Client),
    }
}

/// The class of what is said of an arrival.
fn arrival_class(how: Arrival) -> &'static [u8]
    ensures { result.now ≡ arrival_class how }
{
    match how {
        Arrival::Served => b"came",
        Arrival::Crashed => b"event",
        Arrival::Faulted => b"event",
        Arrival::Got => b"came",
    }
}

/// What is said of an arrival.
fn arrival_text(how: Arrival) -> &'static [u8]
    ensures { result.now ≡ arrival_text how }
{
    match how {
        Arrival::Served => b"  served",
        Arrival::Crashed => b"  the server crashed",
        Arrival::Faulted => b"  the server's disk failed",
        Arrival::Got => b"  got",
    }
}

/// Adds the row of a packet that arrives.
fn push_came(
    alloc: Global,
    out: &mut ByteList,
    strangers: bool,
    y: u64,
    tick: u64,
    id: u64,
    how: Arrival,
    journey: Option<&Journey>,
) -> Result<(), NoMemory>
    ensures { OnOk result (out.new ≡ out.old ++ came_elements strangers y tick id how (option_map (λ j. j.now) journey.entry)) }
{
    match journey {
        Some(journey) => {
            let class = arrow_class(alloc, journey.protocol)?;
            let start = (x_of(journey.from), y_of(journey.place)?);
            let text = numbered(alloc, id, b"", arrival_text(how))?;
            push_tick(alloc, out, tick, y)?;
            push_line_element(alloc, out, class.as_slice(), start, (arrival_x(how), y))?;
            push_text_element(
                alloc,
                out,
                arrival_class(how),
                text_x(strangers),
                y,
                text.as_slice(),
            )
        }
        None => Ok(()),
    }
}

/// Adds the row of a failure of the client's network.
fn push_failed(
    alloc: Global,
    out: &mut ByteList,
    strangers: bool,
    y: u64,
    tick: u64,
) -> Result<(), NoMemory>
    ensures { OnOk result (out.new ≡ out.old ++ tick_element tick y ++ text_element (codes "event") (text_x strangers) y (codes "the client's network failed")) }
{
    push_tick(alloc, out, tick, y)?;
    push_text_element(
        alloc,
        out,
        b"event",
        text_x(strangers),
        y,
        b"the client's network failed",
    )
}

/// Adds the row of a line.
fn push_row(
    alloc: Global,
    out: &mut ByteList,
    strangers: bool,
    journeys: &[Journey],
    y: u64,
    line: &Line,
) -> Result<(), NoMemory>
    ensures { OnOk result (out.new ≡ out.old ++ line_elements strangers journeys.now y line.now) }
{
    match line {
        Line::Sent { tick, id, .. } => push_sent(
            alloc,
            out,
            strangers,
            y,
            *tick,
            *id,
            journeys.get(*id as usize),
        ),
        Line::Came { how, tick, id } => push_came(
            alloc,
            out,
            strangers,
            y,
            *tick,
            *id,
            *how,
            journeys.get(*id as usize),
        ),
        Line::Failed { tick } => push_failed(alloc, out, strangers, y, *tick),
        Line::Answer { answer } => push_text_element(
            alloc,
            out,
            b"answer",
            text_x(strangers),
            y,
            answer.as_slice(),
        ),
    }
}

/// Adds the rows of lines.
fn push_rows(
    alloc: Global,
    out: &mut ByteList,
    strangers: bool,
    journeys: &[Journey],
    run: &[Line],
) -> Result<(), NoMemory>
    ensures { OnOk result (out.new ≡ out.old ++ rows strangers journeys.now 0 run.now) }
{
    for place in 0..run.len() {
        push_row(alloc, out, strangers, journeys, y_of(place)?, &run[place])?;
    }
    Ok(())
}

/// What stands before the width of the document.
#[tactic(auto, unfolding(crate::specs::Picture::svg_tag))]
fn svg_tag() -> &'static [u8]
    ensures { result.now ≡ svg_tag }
{
    b"<svg xmlns='http://www.w3.org/2000/svg' width='"
}

/// Adds the start of a document of so many rows.
#[tactic(auto, unfolding(crate::specs::Picture::opening))]
fn push_opening(
    alloc: Global,
    out: &mut ByteList,
    strangers: bool,
    bottom: u64,
) -> Result<(), NoMemory>
    ensures { OnOk result (out.new ≡ out.old ++ opening strangers bottom) }
{
    let width = text_x(strangers) + 850;
    push_numbered(alloc, out, svg_tag(), width)?;
    push_numbered(alloc, out, b"' height='", bottom)?;
    out.push_slice(b"'>\n")
}

/// How texts and lines look.
#[tactic(auto, unfolding(crate::specs::Picture::text_style))]
fn text_style() -> &'static [u8]
    ensures { result.now ≡ text_style }
{
    b"<style>\ntext { font: 11px monospace; white-space: pre; dominant-baseline: central; fill: currentColor } line, path { stroke: currentColor; fill: none }\n"
}

/// How ticks, arrivals, lifelines, answers and arrows look.
#[tactic(auto, unfolding(crate::specs::Picture::class_style))]
fn class_style() -> &'static [u8]
    ensures { result.now ≡ class_style }
{
    b".tick { color: #666; text-anchor: end } .came { color: #666 } .life { color: #bbb } .end { text-anchor: middle; font-weight: bold }\n.event { color: #c00 } .answer { font-weight: bold } .arrow { marker-end: url(#head) }\n"
}

/// The colours of the protocols.
#[tactic(auto, unfolding(crate::specs::Picture::colour_style))]
fn colour_style() -> &'static [u8]
    ensures { result.now ≡ colour_style }
{
    b".rarp { color: #a0522d } .tftp { color: #0a7d32 } .portmap { color: #7b1fa2 } .bootparams { color: #0b5ea8 }\n.mount { color: #b8860b } .nfs { color: #d81b60 } .other { color: #555 }\n</style>\n"
}

/// An arrow's head.
#[tactic(auto, unfolding(crate::specs::Picture::head_marker))]
fn head_marker() -> &'static [u8]
    ensures { result.now ≡ head_marker }
{
    b"<defs><marker id='head' markerWidth='8' markerHeight='8' refX='8' refY='4' orient='auto'><path d='M0 0 L8 4 L0 8'/></marker></defs>\n"
}

/// White paper.
#[tactic(auto, unfolding(crate::specs::Picture::background))]
fn background() -> &'static [u8]
    ensures { result.now ≡ background }
{
    b"<rect width='100%' height='100%' fill='white'/>\n"
}

/// Adds the style of the document.
#[tactic(auto, unfolding(crate::specs::Picture::style))]
fn push_style(out: &mut ByteList) -> Result<(), NoMemory>
    ensures { OnOk result (out.new ≡ out.old ++ style) }
{
    out.push_slice(text_style())?;
    out.push_slice(class_style())?;
    out.push_slice(colour_style())?;
    out.push_slice(head_marker())?;
    out.push_slice(background())
}

/// Adds which colour is which protocol's.
#[tactic(auto, unfolding(crate::specs::Picture::legend))]
fn push_legend(alloc: Global, out: &mut ByteList) -> Result<(), NoMemory>
    ensures { OnOk result (out.new ≡ out.old ++ legend) }
{
    push_text_element(alloc, out, class_of(Protocol::Rarp), 140, 24, b"RARP")?;
    push_text_element(alloc, out, class_of(Protocol::Tftp), 200, 24, b"TFTP")?;
    push_text_element(
        alloc,
        out,
        class_of(Protocol::Portmap),
        260,
        24,
        b"portmapper",
    )?;
    push_text_element(
        alloc,
        out,
        class_of(Protocol::Bootparams),
        360,
        24,
        b"bootparams",
    )?;
    push_text_element(alloc, out, class_of(Protocol::Mount), 460, 24, b"MOUNT")?;
    push_text_element(alloc, out, class_of(Protocol::Nfs), 520, 24, b"NFS")?;
    push_text_element(alloc, out, class_of(Protocol::Other), 570, 24, b"other")
}

/// Adds a lifeline with its name.
#[tactic(auto, unfolding(crate::specs::Picture::lifeline))]
fn push_lifeline(
    alloc: Global,
    out: &mut ByteList,
    column: Column,
    name: &[u8],
    bottom: u64,
) -> Result<(), NoMemory>
    ensures { OnOk result (out.new ≡ out.old ++ lifeline column name.now bottom) }
{
    let x = x_of(column);
    push_text_element(alloc, out, b"end", x, 50, name)?;
    push_line_element(alloc, out, b"life", (x, 60), (x, bottom))
}

/// Adds the lifelines.
#[tactic(auto, unfolding(crate::specs::Picture::lifelines))]
fn push_lifelines(
    alloc: Global,
    out: &mut ByteList,
    strangers: bool,
    bottom: u64,
) -> Result<(), NoMemory>
    ensures { OnOk result (out.new ≡ out.old ++ lifelines strangers bottom) }
{
    push_lifeline(alloc, out, Column::Client, b"client", bottom)?;
    push_lifeline(alloc, out, Column::Server, b"server", bottom)?;
    if strangers {
        push_lifeline(alloc, out, Column::Stranger, b"strangers", bottom)?;
    }
    Ok(())
}

/// The picture of a run.
#[tactic(auto, unfolding(crate::specs::Picture::picture))]
pub(crate) fn picture(
    alloc: Global,
    journeys: &[Journey],
    run: &[Line],
) -> Result<ByteList, NoMemory>
    ensures { IfOk result (λ document. document ≡ picture journeys.now run.now) }
{
    let strangers = has_strangers(journeys);
    let bottom = y_of(run.len())?;
    let mut out = ByteList::empty(alloc);
    push_opening(alloc, &mut out, strangers, bottom)?;
    push_style(&mut out)?;
    push_legend(alloc, &mut out)?;
    push_lifelines(alloc, &mut out, strangers, bottom)?;
    push_rows(alloc, &mut out, strangers, journeys, run)?;
    out.push_slice(b"</svg>\n")?;
    Ok(out)
}
