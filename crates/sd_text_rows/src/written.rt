//! Lines of packets, and the lines of a transcript.

use sd_config::Stage;
use sd_outside::{Addr, ByteList, NoMemory, Packet};
use sd_script::{
    PacketLineError, Told, read_packet_line, write_answer, write_crashed, write_failed,
    write_faulted, write_got, write_packet_line, write_sent, write_served,
};
use std::test::Fail;

const REQUEST: &[u8] =
    b"frame ff*6.08002001020380350001080006040003080020010203.00*4.080020010203.00*22";

const DATAGRAM: &[u8] =
    b"udp 192.168.1.2:1021 192.168.1.1:2049 00000007.00*7.02000186a300000002.00*20";

/// The packet of a line, or none where it is refused.
fn packet_of(rt: &HostRuntime, line: &[u8]) -> Result<Option<Packet>, NoMemory> {
    match read_packet_line(rt.alloc(), line) {
        Ok(packet) => Ok(Some(packet)),
        Err(PacketLineError::BadPacket) => Ok(None),
        Err(PacketLineError::NoMemory) => Err(NoMemory),
    }
}

#[test]
fn reads_and_writes_packet_lines(rt: HostRuntime) -> Result<(), Fail> {
    for line in [
        REQUEST,
        DATAGRAM,
        b"frame -".as_slice(),
        b"udp 0.0.0.0:0 255.255.255.255:65535 -".as_slice(),
    ] {
        let Some(packet) = packet_of(&rt, line)? else {
            assert!(rt; false, "refused");
            return Ok(());
        };
        let mut text = ByteList::empty(rt.alloc());
        write_packet_line(rt.alloc(), &packet, &mut text)?;
        assert_eq!(rt; text.as_slice(), line);
    }
    let packet = Packet::Udp {
        src: Addr {
            ip: 0xc0a8_0102,
            port: 1021,
        },
        dst: Addr {
            ip: 0xc0a8_0101,
            port: 2049,
        },
        body: ByteList::from_slice(rt.alloc(), &[0, 0, 0, 7])?,
    };
    let mut text = ByteList::empty(rt.alloc());
    write_packet_line(rt.alloc(), &packet, &mut text)?;
    assert_eq!(rt;
        text.as_slice(),
        b"udp 192.168.1.2:1021 192.168.1.1:2049 00000007".as_slice()
    );
    let bad: [&[u8]; 12] = [
        b"",
        b"frame",
        b"frame ",
        b"frame 00 00",
        b"frame  00",
        b"frame 00*1515",
        b"Frame 00",
        b"udp 192.168.1.2 192.168.1.1:2049 00",
        b"udp 192.168.1.2:65536 192.168.1.1:1 00",
        b"udp 192.168.1.2:1 00",
        b"udp 1.2.3.4:1 1.2.3.4:2 00*9217",
        b"frame 00\n",
    ];
    for line in bad {
        assert!(rt; packet_of(&rt, line)?.is_none());
    }
    assert!(rt; packet_of(&rt, b"frame 00*1514")?.is_some());
    assert!(rt; packet_of(&rt, b"udp 1.2.3.4:1 1.2.3.4:2 00*9216")?.is_some());
    Ok(())
}

/// The first worked run, written line by line.
#[test]
fn writes_the_lines_of_a_transcript(rt: HostRuntime) -> Result<(), Fail> {
    let alloc = rt.alloc();
    let mut text = ByteList::empty(alloc);
    let Some(request) = packet_of(&rt, REQUEST)? else {
        assert!(rt; false, "refused");
        return Ok(());
    };
    write_sent(alloc, 0, 0, &request, &mut text)?;
    write_served(alloc, 1, 0, &mut text)?;
    write_got(alloc, 2, 1, &mut text)?;
    write_crashed(alloc, 3, 2, &mut text)?;
    write_faulted(alloc, 10, 4_294_967_296, &mut text)?;
    write_failed(alloc, 11, &mut text)?;
    let answers = [
        Told::AddrOk { ip: 0xc0a8_0102 },
        Told::AddrTimeout,
        Told::AddrFlood { step: Stage::Rarp },
        Told::AddrLinkFault,
        Told::BootUnbuilt {
            step: Stage::Whoami,
            program: ByteList::from_slice(alloc, &[0x42; 600])?,
        },
        Told::BootUnbuilt {
            step: Stage::Tftp,
            program: ByteList::empty(alloc),
        },
        Told::BootTimeout { step: Stage::Tftp },
        Told::BootFlood { step: Stage::Rarp },
        Told::BootTimeout {
            step: Stage::Getfile,
        },
        Told::BootUnbuilt {
            step: Stage::Mnt,
            program: ByteList::empty(alloc),
        },
        Told::BootDenied {
            step: Stage::Getport,
            code: 15,
        },
        Told::BootRefused {
            step: Stage::Tftp,
            status: 1,
        },
        Told::BootNoPort,
        Told::BootTooLarge { size: 33_553_920 },
        Told::BootLinkFault,
        Told::WaitOk { ticks: 5 },
        Told::WaitFlood { ticks: 100_000 },
        Told::WaitLinkFault { ticks: 1 },
    ];
    for answer in answers.iter() {
        write_answer(alloc, answer, &mut text)?;
    }
    let wanted =
        b"sent 0 0 frame ff*6.08002001020380350001080006040003080020010203.00*4.080020010203.00*22
served 1 0
got 2 1
crashed 3 2
faulted 10 4294967296
failed 11
addr ok 192.168.1.2
addr timeout rarp
addr flood rarp
addr linkfault
boot unbuilt whoami program 42*600
boot unbuilt tftp program -
boot timeout tftp
boot flood rarp
boot timeout getfile
boot unbuilt mnt program -
boot denied getport 15
boot refused tftp 1
boot noport getport
boot toolarge 33553920
boot linkfault
wait 5 ok
wait 100000 flood wait
wait 1 linkfault
";
    assert_eq!(rt; text.as_slice(), wanted.as_slice());
    Ok(())
}
