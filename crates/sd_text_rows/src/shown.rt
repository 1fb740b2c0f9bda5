//! Texts against tables worked by hand, and messages that were written apart from the code.

mod messages;
mod rows;

use messages::MESSAGES;
use rows::{ANSWERED, NO_TEXTS, PACKED, REFUSED, SHOWN, WRITTEN};
use sd_outside::{ByteList, Packet};
use sd_show::{Seen, ShowError, Word, pack_line, show_line};
use sd_text::{read_packet_line, write_packet_line};
use std::alloc::Global;
use std::test::Fail;

/// The text of the packet of a line, behind the calls that were seen.
fn text_behind(
    alloc: Global,
    seen: &mut Seen,
    line: &str,
) -> Result<Result<ByteList, ShowError>, Fail> {
    let packet = read_packet_line(alloc, line.as_bytes())?;
    Ok(show_line(alloc, seen, &packet))
}

fn text_of(alloc: Global, line: &str) -> Result<Result<ByteList, ShowError>, Fail> {
    text_behind(alloc, &mut Seen::new(alloc), line)
}

fn line_of(alloc: Global, text: &[u8]) -> Result<ByteList, Fail> {
    let packet: Packet = pack_line(alloc, text)?;
    let mut line = ByteList::empty(alloc);
    write_packet_line(alloc, &packet, &mut line)?;
    Ok(line)
}

#[test]
fn shows_and_packs(rt: HostRuntime) -> Result<(), Fail> {
    for row in SHOWN.lines() {
        let (line, want) = row.split_once(" | ").ok_or("no bar")?;
        let text = text_of(rt.alloc(), line)??;
        assert_eq!(rt; text.as_slice(), want.as_bytes(), "{row}");
        let again = line_of(rt.alloc(), text.as_slice())?;
        assert_eq!(rt; again.as_slice(), line.as_bytes(), "{row}");
    }
    Ok(())
}

#[test]
fn shows_replies_by_their_calls(rt: HostRuntime) -> Result<(), Fail> {
    let mut seen = Seen::new(rt.alloc());
    for row in ANSWERED.lines() {
        let (line, want) = row.split_once(" | ").ok_or("no bar")?;
        let text = text_behind(rt.alloc(), &mut seen, line)??;
        assert_eq!(rt; text.as_slice(), want.as_bytes(), "{row}");
        let again = line_of(rt.alloc(), text.as_slice())?;
        assert_eq!(rt; again.as_slice(), line.as_bytes(), "{row}");
    }
    Ok(())
}

/// The refusal of a datagram with this body in place of its own, as a word and a place.
fn refusal(
    alloc: Global,
    seen: &mut Seen,
    packet: &Packet,
    body: ByteList,
) -> Result<Option<(Word, u64)>, Fail> {
    let Packet::Udp { src, dst, .. } = packet else {
        return Ok(None);
    };
    let changed = Packet::Udp {
        src: *src,
        dst: *dst,
        body,
    };
    match show_line(alloc, seen, &changed) {
        Err(ShowError::Bad { word, at }) => Ok(Some((word, at))),
        _ => Ok(None),
    }
}

/// The place of the item that holds a byte.
fn item_at(starts: &str, place: u64) -> Result<u64, Fail> {
    let mut found = 0;
    for start in starts.split(' ') {
        let start = start.parse::<u64>()?;
        if start <= place {
            found = start;
        }
    }
    Ok(found)
}

#[test]
fn knows_every_procedure(rt: HostRuntime) -> Result<(), Fail> {
    let mut seen = Seen::new(rt.alloc());
    for row in MESSAGES.lines() {
        let (line, behind) = row.split_once(" | ").ok_or("no bar")?;
        let (want, starts) = behind.split_once(" | ").ok_or("no second bar")?;
        let packet = read_packet_line(rt.alloc(), line.as_bytes())?;
        let text = show_line(rt.alloc(), &mut seen, &packet)?;
        assert_eq!(rt; text.as_slice(), want.as_bytes(), "{row}");
        let again = line_of(rt.alloc(), text.as_slice())?;
        assert_eq!(rt; again.as_slice(), line.as_bytes(), "{row}");
        let Packet::Udp { body, .. } = &packet else {
            return Err("no datagram".into());
        };
        let bytes = body.as_slice();
        for len in 0..bytes.len() {
            let cut = ByteList::from_slice(rt.alloc(), &bytes[..len])?;
            let got = refusal(rt.alloc(), &mut seen, &packet, cut)?;
            let at = item_at(starts, len as u64)?;
            assert_eq!(rt; got, Some((Word::Short, at)), "{len} bytes of {row}");
        }
        let mut longer = ByteList::from_slice(rt.alloc(), bytes)?;
        longer.push_slice(&[0, 0, 0, 0])?;
        let got = refusal(rt.alloc(), &mut seen, &packet, longer)?;
        let at = bytes.len() as u64;
        assert_eq!(rt; got, Some((Word::Tail, at)), "{row}");
    }
    Ok(())
}

#[test]
fn refuses(rt: HostRuntime) -> Result<(), Fail> {
    for row in REFUSED.lines() {
        let (line, want) = row.split_once(" | ").ok_or("no bar")?;
        match text_of(rt.alloc(), line)? {
            Err(ShowError::Bad { word, at }) => {
                let got = format!(in rt.alloc(); "{} {at}", word.as_str())?;
                assert_eq!(rt; got.as_str(), want, "{row}");
            }
            _ => panic!(rt; "not refused: {row}"),
        }
    }
    for text in NO_TEXTS.lines() {
        let refused = pack_line(rt.alloc(), text.as_bytes()).err();
        let line = ShowError::Bad {
            word: Word::Line,
            at: 0,
        };
        assert_eq!(rt; refused, Some(line), "{text}");
    }
    Ok(())
}

#[test]
fn packs_other_forms(rt: HostRuntime) -> Result<(), Fail> {
    for row in PACKED.lines() {
        let (text, want) = row.split_once(" | ").ok_or("no bar")?;
        let line = line_of(rt.alloc(), text.as_bytes())?;
        assert_eq!(rt; line.as_slice(), want.as_bytes(), "{row}");
    }
    for row in WRITTEN.lines() {
        let (packet, behind) = row.split_once(" | ").ok_or("no bar")?;
        let (text, want) = behind.split_once(" | ").ok_or("no second bar")?;
        let shown = text_of(rt.alloc(), packet)??;
        assert_eq!(rt; shown.as_slice(), text.as_bytes(), "{row}");
        let line = line_of(rt.alloc(), text.as_bytes())?;
        assert_eq!(rt; line.as_slice(), want.as_bytes(), "{row}");
    }
    Ok(())
}
