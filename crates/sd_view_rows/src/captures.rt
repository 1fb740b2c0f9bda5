//! Captures of transcripts.

mod parts;
mod rows;

use crate::running::{ran, words};
use parts::{FILE_HEADER, LONG, LONG_PARTS, OVER, OVER_PARTS, Part, WHOLE, WHOLE_PARTS};
use rows::ROWS;
use sd_outside::{ByteList, MemSink, MemSource};
use sd_view::run;
use std::alloc::Global;
use std::test::Fail;

#[test]
fn captures_the_rows(rt: HostRuntime) -> Result<(), Fail> {
    for row in &ROWS {
        let (status, output) = ran(rt.alloc(), &["pcap"], row.input)?;
        assert_eq!(rt; status, row.status);
        assert_eq!(rt; output.as_slice(), row.output);
    }
    Ok(())
}

/// A capture of a datagram with these parts.
fn in_parts(alloc: Global, parts: &[Part]) -> Result<ByteList, Fail> {
    let mut bytes = ByteList::from_slice(alloc, FILE_HEADER)?;
    for part in parts {
        bytes.push_slice(part.head)?;
        for _ in 0..part.count {
            bytes.push_slice(b"A")?;
        }
    }
    Ok(bytes)
}

#[test]
fn cuts_long_datagrams(rt: HostRuntime) -> Result<(), Fail> {
    let rows: [(&[u8], &[Part]); 3] = [
        (LONG, &LONG_PARTS),
        (WHOLE, &WHOLE_PARTS),
        (OVER, &OVER_PARTS),
    ];
    for (input, parts) in rows {
        let (status, output) = ran(rt.alloc(), &["pcap"], input)?;
        let expected = in_parts(rt.alloc(), parts)?;
        assert_eq!(rt; status, 0);
        assert_eq!(rt; output.as_slice(), expected.as_slice());
    }
    Ok(())
}

#[test]
fn knows_its_words_alone(rt: HostRuntime) -> Result<(), Fail> {
    let rows: [&[&str]; 4] = [&[], &["show"], &["pcap", "pcap"], &["--help"]];
    for words in rows {
        let (status, output) = ran(rt.alloc(), words, b"")?;
        assert_eq!(rt; status, 2);
        assert_eq!(rt;
            output.as_slice(),
            b"usage: ladder | pcap | svg\n".as_slice()
        );
    }
    Ok(())
}

#[test]
fn tells_faults(rt: HostRuntime) -> Result<(), Fail> {
    let words = words(rt.alloc(), &["pcap"])?;
    // The second read fails, and then the second write.
    for (reads, writes, want, written) in [(1, 9, 3, 0), (9, 1, 4, 10)] {
        let mut source = MemSource::new(rt.alloc(), b"failed 3\n", 5, &[reads])?;
        let mut sink = MemSink::new(rt.alloc(), 10, &[writes])?;
        let status = run(rt.alloc(), words.as_slice(), &mut source, &mut sink);
        assert_eq!(rt; status.0, want);
        assert_eq!(rt; sink.bytes(), &FILE_HEADER[..written]);
    }
    Ok(())
}
