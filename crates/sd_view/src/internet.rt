//! Datagrams as they are on an Ethernet.
ghost use Rattle.std.specs.Prelude.{◌≡◌, ◌≤◌, ◌<◌, ◌++◌, ◌+◌, ◌*◌, ◌/◌, length, OnOk, IfOk};
ghost use Rattle.sd_view.specs.Internet.{half, word, ones_add, checksum, pseudo_header, datagram_with, never_zero, datagram_check, datagram, fragment_word, header_with, header, parts_of, part, part_head, fragment, hardware_address, ethernet, frame_of};

use sd_outside::{Addr, BROADCAST_IP, ByteList, NoMemory};
use std::alloc::Global;

/// What the header of an internet packet says.
#[derive(Clone, Copy, Debug, PartialEq, Eq)]
pub(crate) struct IpHead {
    /// The number of the datagram.
    pub id: u16,
    /// Where the part begins in the datagram, in eights of bytes.
    pub offset: u16,
    /// Whether a further part follows.
    pub more: bool,
    /// How many bytes stand behind the header.
    pub size: u16,
    pub src: u32,
    pub dst: u32,
}

/// Adds a number of two bytes.
#[tactic(auto, unfolding(crate::specs::Internet::half))]
pub(crate) fn push_half(out: &mut ByteList, n: u16) -> Result<(), NoMemory>
    ensures { OnOk result (out.new ≡ out.old ++ half n) }
{
    out.push_slice(&n.to_be_bytes())
}

/// Adds a number of four bytes.
#[tactic(auto, unfolding(crate::specs::Internet::word))]
pub(crate) fn push_word(out: &mut ByteList, n: u32) -> Result<(), NoMemory>
    ensures { OnOk result (out.new ≡ out.old ++ word n) }
{
    out.push_slice(&n.to_be_bytes())
}

/// The one's complement sum of two words.
fn ones_add(a: u32, b: u32) -> u32
    requires a { a < 65536 }
    requires b { b < 65536 }
    ensures sum { result ≡ ones_add a b }
    ensures word { result < 65536 }
{
    let sum = a + b;
    if sum < 65_536 { sum } else { sum - 65_535 }
}

/// The checksum of some bytes.
#[tactic(auto, unfolding(crate::specs::Internet::checksum))]
fn checksum(bytes: &[u8]) -> u16
    ensures { result ≡ checksum bytes.now }
{
    let mut sum: u32 = 0;
    let mut rest = bytes;
    'words: while rest.len() >= 2 {
        let high = u32::from(rest[0]);
        let low = u32::from(rest[1]);
        sum = ones_add(sum, high * 256 + low);
        rest = &rest[2..];
    }
    if !rest.is_empty() {
        sum = ones_add(sum, u32::from(rest[0]) * 256);
    }
    (65_535 - sum) as u16
}

/// The pseudo header of a datagram of so many bytes.
fn pseudo_header(alloc: Global, src: Addr, dst: Addr, size: u16) -> Result<ByteList, NoMemory>
    ensures { IfOk result (λ bytes. bytes ≡ pseudo_header src dst size) }
{
    let mut bytes = ByteList::empty(alloc);
    push_word(&mut bytes, src.ip)?;
    push_word(&mut bytes, dst.ip)?;
    bytes.push_slice(&[0, 17])?;
    push_half(&mut bytes, size)?;
    Ok(bytes)
}

/// A datagram with this checksum.
#[tactic(auto, using(crate::proofs::Sizes::datagram_size))]
fn datagram_with(
    alloc: Global,
    src: Addr,
    dst: Addr,
    body: &[u8],
    check: u16,
) -> Result<ByteList, NoMemory>
    requires { length body.now ≤ 9216 }
    ensures bytes { IfOk result (λ bytes. bytes ≡ datagram_with src dst body.now check) }
    ensures size { IfOk result (λ bytes. length bytes ≡ 8 + length body.now) }
{
    let mut bytes = ByteList::empty(alloc);
    push_half(&mut bytes, src.port)?;
    push_half(&mut bytes, dst.port)?;
    push_half(&mut bytes, (8 + body.len()) as u16)?;
    push_half(&mut bytes, check)?;
    bytes.push_slice(body)?;
    Ok(bytes)
}

/// A checksum of zero is sent as all ones.
fn never_zero(check: u16) -> u16
    ensures { result ≡ never_zero check }
{
    if check == 0 { 65_535 } else { check }
}

/// The checksum of a datagram.
fn datagram_check(alloc: Global, src: Addr, dst: Addr, body: &[u8]) -> Result<u16, NoMemory>
    requires { length body.now ≤ 9216 }
    ensures { IfOk result (λ check. check ≡ datagram_check src dst body.now) }
{
    let mut counted = pseudo_header(alloc, src, dst, (8 + body.len()) as u16)?;
    counted.push_slice(datagram_with(alloc, src, dst, body, 0)?.as_slice())?;
    Ok(never_zero(checksum(counted.as_slice())))
}

/// A datagram.
pub(crate) fn datagram(
    alloc: Global,
    src: Addr,
    dst: Addr,
    body: &[u8],
) -> Result<ByteList, NoMemory>
    requires { length body.now ≤ 9216 }
    ensures bytes { IfOk result (λ bytes. bytes ≡ datagram src dst body.now) }
    ensures size { IfOk result (λ bytes. length bytes ≡ 8 + length body.now) }
{
    let check = datagram_check(alloc, src, dst, body)?;
    datagram_with(alloc, src, dst, body, check)
}

/// The word with the flag of more fragments and the offset.
fn fragment_word(head: &IpHead) -> u16
    requires { head.now.offset < 8192 }
    ensures { result ≡ fragment_word head.now }
{
    if head.more {
        0x2000 + head.offset
    } else {
        head.offset
    }
}

/// The header with this checksum.
fn header_with(alloc: Global, head: &IpHead, check: u16) -> Result<ByteList, NoMemory>
    requires offset { head.now.offset < 8192 }
    requires size { head.now.size ≤ 1480 }
    ensures { IfOk result (λ bytes. bytes ≡ header_with head.now check) }
{
    let mut bytes = ByteList::from_slice(alloc, &[0x45, 0])?;
    push_half(&mut bytes, 20 + head.size)?;
    push_half(&mut bytes, head.id)?;
    push_half(&mut bytes, fragment_word(head))?;
    bytes.push_slice(&[64, 17])?;
    push_half(&mut bytes, check)?;
    push_word(&mut bytes, head.src)?;
    push_word(&mut bytes, head.dst)?;
    Ok(bytes)
}

/// The header of an internet packet.
fn header(alloc: Global, head: &IpHead) -> Result<ByteList, NoMemory>
    requires offset { head.now.offset < 8192 }
    requires size { head.now.size ≤ 1480 }
    ensures { IfOk result (λ bytes. bytes ≡ header head.now) }
{
    let unchecked = header_with(alloc, head, 0)?;
    header_with(alloc, head, checksum(unchecked.as_slice()))
}

/// How many parts so many bytes have.
pub(crate) fn parts_of(size: usize) -> usize
    requires { size ≤ 9224 }
    ensures { result ≡ parts_of size }
{
    (size + 1479) / 1480
}

/// A part of a datagram.
fn part(bytes: &[u8], index: usize) -> &[u8]
    requires { 1480 * index ≤ length bytes.now }
    ensures part { result.now ≡ part index bytes.now }
    ensures short { length result.now ≤ 1480 }
{
    let start = 1480 * index;
    let size = (bytes.len() - start).min(1480);
    &bytes[start..start + size]
}

/// Adds the hardware address of an internet address.
fn push_hardware_address(out: &mut ByteList, ip: u32) -> Result<(), NoMemory>
    ensures { OnOk result (out.new ≡ out.old ++ hardware_address ip) }
{
    if ip == BROADCAST_IP {
        return out.push_slice(&[0xff; 6]);
    }
    out.push_slice(&[2, 0])?;
    push_word(out, ip)
}

/// The head of a frame with an internet packet in it.
fn ethernet(
    alloc: Global,
    src: u32,
    dst: u32,
    header: &[u8],
    part: &[u8],
) -> Result<ByteList, NoMemory>
    ensures { IfOk result (λ bytes. bytes ≡ ethernet src dst (header.now ++ part.now)) }
{
    let mut bytes = ByteList::empty(alloc);
    push_hardware_address(&mut bytes, dst)?;
    push_hardware_address(&mut bytes, src)?;
    bytes.push_slice(&[8, 0])?;
    bytes.push_slice(header)?;
    bytes.push_slice(part)?;
    Ok(bytes)
}

/// The frame with a part of a datagram.
#[tactic(auto, using(crate::proofs::Sizes::frame_short))]
pub(crate) fn frame_of(
    alloc: Global,
    id: u64,
    src: Addr,
    dst: Addr,
    bytes: &[u8],
    index: usize,
) -> Result<ByteList, NoMemory>
    requires short { length bytes.now ≤ 9224 }
    requires index { index < parts_of (length bytes.now) }
    ensures bytes { IfOk result (λ frame. frame ≡ frame_of id src dst bytes.now index) }
    ensures fits { IfOk result (λ frame. length frame ≤ 1514) }
{
    let part = part(bytes, index);
    let head = IpHead {
        id: (id % 65_536) as u16,
        offset: (185 * index) as u16,
        more: index + 1 < parts_of(bytes.len()),
        size: part.len() as u16,
        src: src.ip,
        dst: dst.ip,
    };
    ethernet(
        alloc,
        src.ip,
        dst.ip,
        header(alloc, &head)?.as_slice(),
        part,
    )
}
