//! Each call once with ample memory, and the sources and sinks call by call.
ghost use Rattle.std.specs.Prelude.{◌<◌, length};

use super::*;
use std::test::Fail;

#[test]
fn lists_hold_what_was_put_in(rt: HostRuntime) -> Result<(), Fail> {
    let alloc = rt.alloc();
    let mut bytes = ByteList::empty(alloc);
    bytes.push_slice(b"hello")?;
    bytes.put(1, b"a");
    bytes.shorten(4);
    let copy = bytes.copy()?;
    let same = ByteList::from_vec(bytes.into_vec());
    let given = ByteList::from_slice(alloc, b"hall")?;
    assert_eq!(rt; copy.as_slice(), b"hall".as_slice());
    assert_eq!(rt; same.as_slice(), b"hall".as_slice());
    assert_eq!(rt; given.as_slice(), b"hall".as_slice());

    let mut list = ListOf::empty(alloc);
    list.push(3)?;
    let mut list = ListOf::from_vec(list.into_vec());
    list.push(5)?;
    assert_eq!(rt; list.as_slice(), [3, 5].as_slice());
    Ok(())
}

#[test]
fn copies_packets(rt: HostRuntime) -> Result<(), Fail> {
    let alloc = rt.alloc();
    let frame = Packet::Frame(ByteList::from_slice(alloc, b"frame")?);
    match frame.copy()? {
        Packet::Frame(bytes) => assert_eq!(rt; bytes.as_slice(), b"frame".as_slice()),
        Packet::Udp { .. } => assert!(rt; false),
    }
    let from = Addr { ip: 1, port: 2 };
    let to = Addr { ip: 3, port: 4 };
    let datagram = Packet::Udp {
        src: from,
        dst: to,
        body: ByteList::from_slice(alloc, b"body")?,
    };
    match datagram.copy()? {
        Packet::Frame(_) => assert!(rt; false),
        Packet::Udp { src, dst, body } => {
            assert_eq!(rt; src, from);
            assert_eq!(rt; dst, to);
            assert_eq!(rt; body.as_slice(), b"body".as_slice());
        }
    }
    Ok(())
}

fn read_from<S: Source>(source: &mut S, into: &mut [u8]) -> Result<usize, Failed>
    requires { 0 < length into.old }
{
    source.read(into)
}

fn write_to<S: Sink>(sink: &mut S, bytes: &[u8]) -> Result<usize, Failed> {
    sink.write(bytes)
}

#[test]
fn sources_give_their_bytes(rt: HostRuntime) -> Result<(), Fail> {
    let mut calm = CalmSource::new(rt.alloc(), b"abc")?;
    let mut into = [0; 2];
    assert_eq!(rt; read_from(&mut calm, &mut into), Ok(2));
    assert_eq!(rt; into, *b"ab");
    assert_eq!(rt; read_from(&mut calm, &mut into), Ok(1));
    assert_eq!(rt; into, *b"cb");
    assert_eq!(rt; read_from(&mut calm, &mut into), Ok(0));

    let cases = [
        (1, [9, 9], [Ok(1), Ok(1), Ok(1), Ok(0)]),
        (8, [9, 9], [Ok(2), Ok(1), Ok(0), Ok(0)]),
        (8, [0, 9], [Err(Failed), Ok(2), Ok(1), Ok(0)]),
        (8, [2, 1], [Ok(2), Err(Failed), Err(Failed), Ok(1)]),
    ];
    for (step, fail, answers) in cases {
        assert!(rt; step > 0);
        let mut source = MemSource::new(rt.alloc(), b"abc", step, &fail)?;
        for answer in answers {
            assert_eq!(rt; read_from(&mut source, &mut into), answer, "step {step}");
        }
        assert_eq!(rt; into[0], b'c', "step {step}");
    }
    Ok(())
}

#[test]
fn calm_sink_tells_what_fits(rt: HostRuntime) -> Result<(), Fail> {
    let mut sink = CalmSink::new(rt.alloc(), 5)?;
    for piece in [b"ab", b"cd"] {
        assert_eq!(rt; write_to(&mut sink, piece), Ok(2));
    }
    assert_eq!(rt; sink.bytes(), Some(b"abcd".as_slice()));
    assert_eq!(rt; write_to(&mut sink, b"ef"), Ok(2));
    assert!(rt; sink.bytes().is_none());
    Ok(())
}

#[test]
fn sink_fails_as_planned(rt: HostRuntime) -> Result<(), Fail> {
    let mut sink = MemSink::new(rt.alloc(), 4, &[1])?;
    for answer in [Ok(4), Err(Failed), Ok(4)] {
        assert_eq!(rt; write_to(&mut sink, b"hello"), answer);
    }
    assert_eq!(rt; sink.bytes(), b"hellhell".as_slice());
    Ok(())
}

#[test]
fn sink_fails_past_its_room(rt: HostRuntime) -> Result<(), Fail> {
    let mut sink = MemSink::new(rt.alloc(), 65536, &[])?;
    let bytes = vec![in rt.alloc(); 7; 32768]?;
    for answer in [Ok(32768), Ok(32768), Err(Failed)] {
        assert_eq!(rt; write_to(&mut sink, bytes.as_slice()), answer);
    }
    assert_eq!(rt; sink.bytes().len(), 65536);
    Ok(())
}
