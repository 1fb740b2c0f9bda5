//! The worked rows, from input to output and status.

mod boots;
mod examples;
mod images;
mod texts;

use examples::EXAMPLES;
use sd_boot::{Status, Text, run};
use sd_outside::{ByteList, CalmSink, CalmSource, MemSink, MemSource};
use std::alloc::Global;
use std::test::Fail;
use texts::TEXT_ROWS;

/// An input of `replay`, its status and its output.
#[derive(Clone, Copy)]
struct Row {
    input: &'static [u8],
    status: u8,
    output: &'static [u8],
}

// An empty input.
const ROW_0: Row = Row {
    input: b"",
    status: 1,
    output: b"refused line 1\n",
};

// The heading alone.
const ROW_1: Row = Row {
    input: b"life 10\ntries 4\nwait 5\npages 1\nserver 080020000001 192.168.1.1 boss\nclient 080020010203 192.168.1.2 sparky example 192.168.1.1\n",
    status: 0,
    output: b"",
};

// One address.
const ROW_2: Row = Row {
    input: b"life 10\ntries 4\nwait 5\npages 1\nserver 080020000001 192.168.1.1 boss\nclient 080020010203 192.168.1.2 sparky example 192.168.1.1\naddr\n",
    status: 0,
    output: b"sent 0 0 frame ff*6.08002001020380350001080006040003080020010203.00*4.080020010203.00*22\nserved 1 0\nsent 1 1 frame 08002001020308002000000180350001080006040004080020000001c0a80101080020010203c0a80102.00*18\ngot 2 1\naddr ok 192.168.1.2\n",
};

// A try that is too short.
const ROW_3: Row = Row {
    input: b"life 10\ntries 1\nwait 1\npages 1\nserver 080020000001 192.168.1.1 boss\nclient 080020010203 192.168.1.2 sparky example 192.168.1.1\naddr\n",
    status: 0,
    output: b"sent 0 0 frame ff*6.08002001020380350001080006040003080020010203.00*4.080020010203.00*22\nserved 1 0\nsent 1 1 frame 08002001020308002000000180350001080006040004080020000001c0a80101080020010203c0a80102.00*18\naddr timeout rarp\n",
};

// A second try that gets the first reply.
const ROW_4: Row = Row {
    input: b"life 10\ntries 2\nwait 1\npages 1\nserver 080020000001 192.168.1.1 boss\nclient 080020010203 192.168.1.2 sparky example 192.168.1.1\naddr\n",
    status: 0,
    output: b"sent 0 0 frame ff*6.08002001020380350001080006040003080020010203.00*4.080020010203.00*22\nserved 1 0\nsent 1 1 frame 08002001020308002000000180350001080006040004080020000001c0a80101080020010203c0a80102.00*18\nsent 1 2 frame ff*6.08002001020380350001080006040003080020010203.00*4.080020010203.00*22\nserved 2 2\nsent 2 3 frame 08002001020308002000000180350001080006040004080020000001c0a80101080020010203c0a80102.00*18\ngot 2 1\naddr ok 192.168.1.2\n",
};

// Four requests that are lost.
const ROW_5: Row = Row {
    input: b"life 10\ntries 4\nwait 5\npages 1\nserver 080020000001 192.168.1.1 boss\nclient 080020010203 192.168.1.2 sparky example 192.168.1.1\nfate 0 none\nfate 1 none\nfate 2 none\nfate 3 none\naddr\n",
    status: 0,
    output: b"sent 0 0 frame ff*6.08002001020380350001080006040003080020010203.00*4.080020010203.00*22\nsent 5 1 frame ff*6.08002001020380350001080006040003080020010203.00*4.080020010203.00*22\nsent 10 2 frame ff*6.08002001020380350001080006040003080020010203.00*4.080020010203.00*22\nsent 15 3 frame ff*6.08002001020380350001080006040003080020010203.00*4.080020010203.00*22\naddr timeout rarp\n",
};

// A reply that comes again in a pause.
const ROW_6: Row = Row {
    input: b"life 10\ntries 4\nwait 5\npages 1\nserver 080020000001 192.168.1.1 boss\nclient 080020010203 192.168.1.2 sparky example 192.168.1.1\nfate 1 1 3\naddr\nwait 5\n",
    status: 0,
    output: b"sent 0 0 frame ff*6.08002001020380350001080006040003080020010203.00*4.080020010203.00*22\nserved 1 0\nsent 1 1 frame 08002001020308002000000180350001080006040004080020000001c0a80101080020010203c0a80102.00*18\ngot 2 1\naddr ok 192.168.1.2\ngot 4 1\nwait 5 ok\n",
};

// A reply that a later one overtakes.
const ROW_7: Row = Row {
    input: b"life 10\ntries 4\nwait 5\npages 1\nserver 080020000001 192.168.1.1 boss\nclient 080020010203 192.168.1.2 sparky example 192.168.1.1\n# the first reply is nine ticks late\n\nfate 1 9\naddr\n",
    status: 0,
    output: b"sent 0 0 frame ff*6.08002001020380350001080006040003080020010203.00*4.080020010203.00*22\nserved 1 0\nsent 1 1 frame 08002001020308002000000180350001080006040004080020000001c0a80101080020010203c0a80102.00*18\nsent 5 2 frame ff*6.08002001020380350001080006040003080020010203.00*4.080020010203.00*22\nserved 6 2\nsent 6 3 frame 08002001020308002000000180350001080006040004080020000001c0a80101080020010203c0a80102.00*18\ngot 7 3\naddr ok 192.168.1.2\n",
};

// A line outside the grammar.
const ROW_8: Row = Row {
    input: b"life 10\ntries 4\nwait 5\npages 1\nserver 080020000001 192.168.1.1 boss\nclient 080020010203 192.168.1.2 sparky example 192.168.1.1\naddr\nboots\n",
    status: 1,
    output: b"refused line 8\n",
};

// The first receive fails: the next request gets the reply to the first.
const ROW_9: Row = Row {
    input: b"life 10\ntries 4\nwait 5\npages 1\nserver 080020000001 192.168.1.1 boss\nclient 080020010203 192.168.1.2 sparky example 192.168.1.1\nfault recv 0\naddr\naddr\n",
    status: 0,
    output: b"sent 0 0 frame ff*6.08002001020380350001080006040003080020010203.00*4.080020010203.00*22\nfailed 0\naddr linkfault\nsent 0 1 frame ff*6.08002001020380350001080006040003080020010203.00*4.080020010203.00*22\nserved 1 0\nsent 1 2 frame 08002001020308002000000180350001080006040004080020000001c0a80101080020010203c0a80102.00*18\nserved 1 1\nsent 1 3 frame 08002001020308002000000180350001080006040004080020000001c0a80101080020010203c0a80102.00*18\ngot 2 2\naddr ok 192.168.1.2\n",
};

// The first send fails, and the packet goes out.
const ROW_10: Row = Row {
    input: b"life 10\ntries 4\nwait 5\npages 1\nserver 080020000001 192.168.1.1 boss\nclient 080020010203 192.168.1.2 sparky example 192.168.1.1\nfault send 0\naddr\naddr\n",
    status: 0,
    output: b"sent 0 0 frame ff*6.08002001020380350001080006040003080020010203.00*4.080020010203.00*22\nfailed 0\naddr linkfault\nsent 0 1 frame ff*6.08002001020380350001080006040003080020010203.00*4.080020010203.00*22\nserved 1 0\nsent 1 2 frame 08002001020308002000000180350001080006040004080020000001c0a80101080020010203c0a80102.00*18\nserved 1 1\nsent 1 3 frame 08002001020308002000000180350001080006040004080020000001c0a80101080020010203c0a80102.00*18\ngot 2 2\naddr ok 192.168.1.2\n",
};

// A wait that fails.
const ROW_11: Row = Row {
    input: b"life 10\ntries 4\nwait 5\npages 1\nserver 080020000001 192.168.1.1 boss\nclient 080020010203 192.168.1.2 sparky example 192.168.1.1\nfault recv 0\nwait 5\naddr\n",
    status: 0,
    output: b"failed 0\nwait 5 linkfault\nsent 0 0 frame ff*6.08002001020380350001080006040003080020010203.00*4.080020010203.00*22\nserved 1 0\nsent 1 1 frame 08002001020308002000000180350001080006040004080020000001c0a80101080020010203c0a80102.00*18\ngot 2 1\naddr ok 192.168.1.2\n",
};

fn words(alloc: Global, all: &[&str]) -> Result<Vec<Text>, Fail> {
    let mut words = Vec::new(alloc);
    for word in all {
        words.push(Text::new(alloc, word)?)?;
    }
    Ok(words)
}

/// What the program of these words writes, and its status.
fn ran(alloc: Global, all: &[&str], input: &[u8]) -> Result<(u8, ByteList), Fail> {
    let words = words(alloc, all)?;
    let mut source = CalmSource::new(alloc, input)?;
    let mut sink = CalmSink::new(alloc, 65_536)?;
    let status = run(alloc, words.as_slice(), &mut source, &mut sink);
    match sink.bytes() {
        Some(bytes) => Ok((status.0, ByteList::from_slice(alloc, bytes)?)),
        None => Ok((status.0, ByteList::empty(alloc))),
    }
}

#[test]
fn plays_the_rows(rt: HostRuntime) -> Result<(), Fail> {
    let rows = [
        ROW_0, ROW_1, ROW_2, ROW_3, ROW_4, ROW_5, ROW_6, ROW_7, ROW_8, ROW_9, ROW_10, ROW_11,
    ];
    for row in &rows {
        let (status, output) = ran(rt.alloc(), &["replay"], row.input)?;
        assert_eq!(rt; status, row.status);
        assert_eq!(rt; output.as_slice(), row.output);
    }
    Ok(())
}

#[test]
fn plays_the_examples(rt: HostRuntime) -> Result<(), Fail> {
    for row in &EXAMPLES {
        let (status, output) = ran(rt.alloc(), &["replay"], row.input)?;
        assert_eq!(rt; status, row.status);
        assert_eq!(rt; output.as_slice(), row.output);
    }
    Ok(())
}

#[test]
fn shows_and_packs_the_rows(rt: HostRuntime) -> Result<(), Fail> {
    for row in &TEXT_ROWS {
        let (status, output) = ran(rt.alloc(), &[row.word], row.input)?;
        assert_eq!(rt; status, row.status);
        assert_eq!(rt; output.as_slice(), row.output);
    }
    Ok(())
}

#[test]
fn writes_the_usage_line(rt: HostRuntime) -> Result<(), Fail> {
    let words = words(rt.alloc(), &["replay", "now"])?;
    let mut source = CalmSource::new(rt.alloc(), b"")?;
    let mut sink = CalmSink::new(rt.alloc(), 65_536)?;
    let status = run(rt.alloc(), words.as_slice(), &mut source, &mut sink);
    assert_eq!(rt; status, Status(2));
    assert_eq!(rt;
        sink.bytes(),
        Some(
            b"usage: replay, show, pack, image make, image show, workload N, serve, client\n".as_slice()
        )
    );
    Ok(())
}

/// What `replay` of the one address writes, and its status, where these calls of the source and of the sink fail.
fn ran_failing(alloc: Global, reads: &[u64], writes: &[u64]) -> Result<(u8, ByteList), Fail> {
    let words = words(alloc, &["replay"])?;
    let mut source = MemSource::new(alloc, ROW_2.input, 7, reads)?;
    let mut sink = MemSink::new(alloc, 5, writes)?;
    let status = run(alloc, words.as_slice(), &mut source, &mut sink);
    Ok((status.0, ByteList::from_slice(alloc, sink.bytes())?))
}

#[test]
fn tells_a_read_that_failed(rt: HostRuntime) -> Result<(), Fail> {
    let (status, output) = ran_failing(rt.alloc(), &[0], &[])?;
    assert_eq!(rt; status, 3);
    assert_eq!(rt; output.as_slice(), b"".as_slice());
    Ok(())
}

#[test]
fn tells_a_write_that_failed(rt: HostRuntime) -> Result<(), Fail> {
    let (status, output) = ran_failing(rt.alloc(), &[], &[0])?;
    assert_eq!(rt; status, 4);
    assert_eq!(rt; output.as_slice(), b"".as_slice());
    Ok(())
}

#[test]
fn goes_on_by_short_steps(rt: HostRuntime) -> Result<(), Fail> {
    let (status, output) = ran_failing(rt.alloc(), &[], &[])?;
    assert_eq!(rt; status, 0);
    assert_eq!(rt; output.as_slice(), ROW_2.output);
    Ok(())
}
