//! The capture file of a run.
ghost use Rattle.std.specs.Prelude.{◌≡◌, ◌≤◌, ◌++◌, length, flat_map, OnOk, IfOk};
ghost use Rattle.std.specs.List.{All};
ghost use Rattle.sd_view.specs.Internet.{frames_in, frames};
ghost use Rattle.sd_view.specs.Capture.{file_header, frame_header, framed, captured, capture, HasShort};

use crate::internet::{datagram, frame_of, parts_of, push_half, push_word};
use crate::lines::Line;
use sd_outside::{Addr, ByteList, NoMemory, Packet};
use std::alloc::Global;

/// The header of the file.
fn file_header(alloc: Global) -> Result<ByteList, NoMemory>
    ensures { IfOk result (λ bytes. bytes ≡ file_header) }
{
    let mut bytes = ByteList::empty(alloc);
    push_word(&mut bytes, 0xa1b2_c3d4)?;
    push_half(&mut bytes, 2)?;
    push_half(&mut bytes, 4)?;
    push_word(&mut bytes, 0)?;
    push_word(&mut bytes, 0)?;
    push_word(&mut bytes, 65_535)?;
    push_word(&mut bytes, 1)?;
    Ok(bytes)
}

/// Adds the header of a frame.
fn push_frame_header(out: &mut ByteList, tick: u64, size: u32) -> Result<(), NoMemory>
    ensures { OnOk result (out.new ≡ out.old ++ frame_header tick size) }
{
    push_word(out, (tick / 100 % 4_294_967_296) as u32)?;
    push_word(out, (tick % 100 * 10_000) as u32)?;
    push_word(out, size)?;
    push_word(out, size)
}

/// Adds a frame with its header.
fn push_frame(out: &mut ByteList, tick: u64, frame: &[u8]) -> Result<(), NoMemory>
    requires { length frame.now ≤ 1514 }
    ensures { OnOk result (out.new ≡ out.old ++ framed tick frame.now) }
{
    push_frame_header(out, tick, frame.len() as u32)?;
    out.push_slice(frame)
}

/// Adds the frames of a datagram, one for each part.
fn push_parts(
    alloc: Global,
    out: &mut ByteList,
    tick: u64,
    id: u64,
    src: Addr,
    dst: Addr,
    bytes: &[u8],
) -> Result<(), NoMemory>
    requires { length bytes.now ≤ 9224 }
    ensures { OnOk result (out.new ≡ out.old ++ flat_map (λ frame. framed tick frame) (frames_in id src dst bytes.now)) }
{
    for index in 0..parts_of(bytes.len()) {
        let frame = frame_of(alloc, id, src, dst, bytes, index)?;
        push_frame(out, tick, frame.as_slice())?;
    }
    Ok(())
}

/// Adds the frames of a datagram with this body.
fn push_datagram(
    alloc: Global,
    out: &mut ByteList,
    tick: u64,
    id: u64,
    src: Addr,
    dst: Addr,
    body: &[u8],
) -> Result<(), NoMemory>
    requires { length body.now ≤ 9216 }
    ensures { OnOk result (out.new ≡ out.old ++ flat_map (λ frame. framed tick frame) (frames id src dst body.now)) }
{
    let bytes = datagram(alloc, src, dst, body)?;
    push_parts(alloc, out, tick, id, src, dst, bytes.as_slice())
}

/// Adds what a line puts into the capture.
fn push_line(alloc: Global, out: &mut ByteList, line: &Line) -> Result<(), NoMemory>
    requires { HasShort line.now }
    ensures { OnOk result (out.new ≡ out.old ++ captured line.now) }
{
    match line {
        Line::Sent { tick, id, packet } => match packet {
            Packet::Frame(bytes) => push_frame(out, *tick, bytes.as_slice()),
            Packet::Udp { src, dst, body } => {
                push_datagram(alloc, out, *tick, *id, *src, *dst, body.as_slice())
            }
        },
        _ => Ok(()),
    }
}

/// The capture file of a run.
pub(crate) fn capture(alloc: Global, run: &[Line]) -> Result<ByteList, NoMemory>
    requires { All HasShort run.now }
    ensures { IfOk result (λ bytes. bytes ≡ capture run.now) }
{
    let mut out = file_header(alloc)?;
    for line in run {
        push_line(alloc, &mut out, line)?;
    }
    Ok(out)
}
