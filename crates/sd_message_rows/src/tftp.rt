//! Packets as they are on the wire, and whole transfers.

use sd_outside::{Addr, ByteList, NoMemory};
use sd_tftp::{
    Receiver, Sender, SenderStep, SenderTick, Step, TftpError, TftpPacket, block_of, read_packet,
    write_packet,
};
use std::alloc::Global;
use std::test::Fail;

const SERVER: Addr = Addr {
    ip: 0xc0a8_0101,
    port: 4096,
};

/// Another port of the server.
const OTHER: Addr = Addr {
    ip: 0xc0a8_0101,
    port: 4097,
};

const CLIENT: Addr = Addr {
    ip: 0xc0a8_0102,
    port: 2048,
};

const BYTES: [u8; 512] = [0x42; 512];

#[test]
fn refuses(rt: HostRuntime) {
    let mut long = [0x42; 517];
    long[..4].copy_from_slice(&[0, 3, 0, 1]);
    let cases = [
        (b"".as_slice(), TftpError::Short { at: 0 }),
        (&[0], TftpError::Short { at: 0 }),
        (&[0, 9], TftpError::Opcode { got: 9 }),
        (&[1, 1], TftpError::Opcode { got: 257 }),
        (b"\x00\x01A", TftpError::NoEnd { at: 2 }),
        (b"\x00\x02A\x00B", TftpError::NoEnd { at: 4 }),
        (&[0, 3, 0], TftpError::Short { at: 2 }),
        (&long, TftpError::DataLong { len: 513 }),
        (&[0, 4, 0, 1, 0], TftpError::Tail { at: 4 }),
        (b"\x00\x05\x00\x01A", TftpError::NoEnd { at: 4 }),
        (b"\x00\x05\x00\x01A\x00B", TftpError::Tail { at: 6 }),
    ];
    for (bytes, want) in cases {
        match read_packet(rt.alloc(), bytes) {
            Ok(_) => panic!(rt; "{bytes:?} is read"),
            Err(got) => assert_eq!(rt; got, want, "{bytes:?}"),
        }
    }
}

#[test]
fn writes(rt: HostRuntime) -> Result<(), Fail> {
    let alloc = rt.alloc();
    let ack = write_packet(alloc, &TftpPacket::Ack { number: 1 })?;
    assert!(rt; ack.as_slice() == [0, 4, 0, 1].as_slice());
    let message = ByteList::empty(alloc);
    let error = write_packet(alloc, &TftpPacket::Error { code: 5, message })?;
    assert!(rt; error.as_slice() == [0, 5, 0, 5, 0].as_slice());
    let bytes = ByteList::from_slice(alloc, b"B")?;
    let block = write_packet(alloc, &TftpPacket::Block { number: 258, bytes })?;
    assert!(rt; block.as_slice() == [0, 3, 1, 2, 0x42].as_slice());
    Ok(())
}

#[test]
fn reads_a_request_with_a_tail(rt: HostRuntime) {
    match read_packet(rt.alloc(), b"\x00\x01A\x00octet\x00tail") {
        Ok(TftpPacket::Rrq { name, mode }) => {
            assert!(rt; name.as_slice() == b"A".as_slice());
            assert!(rt; mode.as_slice() == b"octet".as_slice());
        }
        _ => panic!(rt; "no RRQ"),
    }
}

/// What a receiver does with a block.
fn step(
    alloc: Global,
    receiver: &mut Receiver,
    from: Addr,
    number: u16,
    bytes: &[u8],
) -> Result<Step, NoMemory> {
    let bytes = ByteList::from_slice(alloc, bytes)?;
    receiver.step(from, &TftpPacket::Block { number, bytes })
}

fn took(number: u16, last: bool) -> Step {
    let to = SERVER;
    Step::Took { to, number, last }
}

#[test]
fn receives(rt: HostRuntime) -> Result<(), Fail> {
    let mut receiver = Receiver::new(rt.alloc(), SERVER.ip);
    let again = Step::Again {
        to: SERVER,
        number: 1,
    };
    let cases = [
        (CLIENT, 1, BYTES.as_slice(), Step::Ignored),
        (SERVER, 2, b"end", Step::Ignored),
        (SERVER, 1, &BYTES, took(1, false)),
        (SERVER, 1, &BYTES, again),
        (OTHER, 2, b"end", Step::Stranger { to: OTHER }),
        (SERVER, 2, b"end", took(2, true)),
        (SERVER, 2, b"end", Step::Ignored),
    ];
    for (from, number, bytes, want) in cases {
        assert_eq!(rt; step(rt.alloc(), &mut receiver, from, number, bytes)?, want);
    }
    assert_eq!(rt; receiver.taken().len(), 515);
    Ok(())
}

#[test]
fn ends_at_an_error(rt: HostRuntime) -> Result<(), Fail> {
    let message = ByteList::empty(rt.alloc());
    let error = TftpPacket::Error { code: 1, message };
    let mut receiver = Receiver::new(rt.alloc(), SERVER.ip);
    let cases = [
        (CLIENT, Step::Ignored),
        (OTHER, Step::Refused { code: 1 }),
        (OTHER, Step::Ignored),
    ];
    for (from, want) in cases {
        assert_eq!(rt; receiver.step(from, &error)?, want);
    }
    Ok(())
}

#[test]
fn ends_at_the_last_number(rt: HostRuntime) -> Result<(), Fail> {
    let mut receiver = Receiver::new(rt.alloc(), SERVER.ip);
    for number in 1..65_535 {
        let said = step(rt.alloc(), &mut receiver, SERVER, number, &BYTES)?;
        assert_eq!(rt; said, took(number, false));
    }
    let said = step(rt.alloc(), &mut receiver, SERVER, 65_535, &BYTES)?;
    assert_eq!(rt; said, Step::Over { got: 33_553_920 });
    assert_eq!(rt; receiver.taken().len(), 33_553_920);
    Ok(())
}

#[test]
fn sends(rt: HostRuntime) {
    let file = [0x42; 1024];
    let mut sender = Sender::new(CLIENT, 0);
    let cases = [
        (CLIENT, 2, SenderStep::Ignored),
        (OTHER, 1, SenderStep::Stranger { to: OTHER }),
        (CLIENT, 1, SenderStep::Next { number: 2 }),
        (CLIENT, 1, SenderStep::Ignored),
        (CLIENT, 2, SenderStep::Next { number: 3 }),
        (CLIENT, 3, SenderStep::Done),
        (CLIENT, 3, SenderStep::Ignored),
    ];
    for (from, number, want) in cases {
        let said = sender.step(9, from, &TftpPacket::Ack { number }, &file);
        assert_eq!(rt; said, want);
    }
    assert_eq!(rt; block_of(&file, 2).len(), 512);
    assert_eq!(rt; block_of(&file, 3).len(), 0);
}

#[test]
fn sends_again(rt: HostRuntime) {
    let mut sender = Sender::new(CLIENT, 0);
    let cases = [
        (4, SenderTick::Rest),
        (5, SenderTick::Resend { number: 1 }),
        (9, SenderTick::Rest),
        (10, SenderTick::Ended),
        (99, SenderTick::Rest),
    ];
    for (now, want) in cases {
        assert_eq!(rt; sender.tick(now, 5, 2), want);
    }
}
