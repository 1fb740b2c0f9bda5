//! What the lines of a script say, which may come where, and limits at their edges.

use sd_config::Command;
use sd_outside::{ByteList, NoMemory};
use sd_script::{Script, ScriptError, read_script};
use std::test::Fail;

const SERVER: &[u8] = b"server 080020000001 192.168.1.1 boss";

const CLIENT: &[u8] = b"client 080020010203 192.168.1.2 sparky example 192.168.1.1";

/// The heading, with another line at the place 1 to 6, and what follows it.
pub fn with_line(
    rt: &HostRuntime,
    place: u64,
    line: &[u8],
    more: &[u8],
) -> Result<ByteList, NoMemory> {
    let mut text = ByteList::empty(rt.alloc());
    push_line(&mut text, if place == 1 { line } else { b"life 10" })?;
    push_line(&mut text, if place == 2 { line } else { b"tries 4" })?;
    push_line(&mut text, if place == 3 { line } else { b"wait 5" })?;
    push_line(&mut text, if place == 4 { line } else { b"pages 1" })?;
    push_line(&mut text, if place == 5 { line } else { SERVER })?;
    push_line(&mut text, if place == 6 { line } else { CLIENT })?;
    text.push_slice(more)?;
    Ok(text)
}

pub fn push_line(text: &mut ByteList, line: &[u8]) -> Result<(), NoMemory> {
    text.push_slice(line)?;
    text.push_slice(b"\n")
}

/// The number of the refused line, or none where the text is a script.
pub fn refused(rt: &HostRuntime, text: &[u8]) -> Result<Option<u64>, NoMemory> {
    match read_script(rt.alloc(), text) {
        Ok(_) => Ok(None),
        Err(ScriptError::Line { number }) => Ok(Some(number)),
        Err(ScriptError::NoMemory) => Err(NoMemory),
    }
}

#[test]
fn reads_what_the_lines_say(rt: HostRuntime) -> Result<(), Fail> {
    let more = b"# a comment\n\nfate 29 9 1\nfate 3 none\naddr\n#\nwait 100000\nboot";
    let text = with_line(&rt, 0, b"", more)?;
    let Ok(script) = read_script(rt.alloc(), text.as_slice()) else {
        assert!(rt; false, "refused");
        return Ok(());
    };
    assert_eq!(rt; script.config.life, 10);
    assert_eq!(rt; script.config.tries, 4);
    assert_eq!(rt; script.config.wait, 5);
    assert_eq!(rt; script.config.pages, 1);
    assert_eq!(rt; script.config.server.mac.0, [8, 0, 0x20, 0, 0, 1]);
    assert_eq!(rt; script.config.server.ip, 0xc0a8_0101);
    assert_eq!(rt; script.config.server.name.as_slice(), b"boss".as_slice());
    assert_eq!(rt; script.config.client.mac.0, [8, 0, 0x20, 1, 2, 3]);
    assert_eq!(rt; script.config.client.ip, 0xc0a8_0102);
    assert_eq!(rt; script.config.client.name.as_slice(), b"sparky".as_slice());
    assert_eq!(rt; script.config.domain.as_slice(), b"example".as_slice());
    assert_eq!(rt; script.config.router, 0xc0a8_0101);
    match script.events.fates.as_slice() {
        [late, lost] => {
            assert_eq!(rt; late.id, 29);
            assert_eq!(rt; late.delays.as_slice(), [9, 1].as_slice());
            assert_eq!(rt; lost.id, 3);
            assert!(rt; lost.delays.as_slice().is_empty());
        }
        _ => assert!(rt; false, "other fates"),
    }
    let commands = [
        Command::Addr,
        Command::Wait { ticks: 100_000 },
        Command::Boot,
    ];
    assert_eq!(rt; script.config.kernel.as_slice(), b"/vmunix".as_slice());
    assert_eq!(rt; script.commands.as_slice(), commands.as_slice());
    Ok(())
}

/// Lines at their place in the heading.
const HEADING: [(u64, &[u8], bool); 64] = [
    (1, b"life 2", true),
    (1, b"life 10000", true),
    (1, b"life 1", false),
    (1, b"life 10001", false),
    (1, b"life 010", false),
    (1, b"life +10", false),
    (1, b"life 18446744073709551626", false),
    (1, b"life  10", false),
    (1, b"life 10 ", false),
    (1, b"life 10\r", false),
    (1, b"life 10\t", false),
    (1, b"life 10 10", false),
    (1, b"life", false),
    (1, b"life ", false),
    (1, b" life 10", false),
    (1, b"Life 10", false),
    (1, b"tries 4", false),
    (1, b"addr", false),
    (1, b"fate 1 none", false),
    (2, b"tries 1", true),
    (2, b"tries 64", true),
    (2, b"tries 0", false),
    (2, b"tries 65", false),
    (2, b"wait 5", false),
    (3, b"wait 1", true),
    (3, b"wait 1000", true),
    (3, b"wait 0", false),
    (3, b"wait 1001", false),
    (4, b"pages 4095", true),
    (4, b"pages 0", false),
    (4, b"pages 4096", false),
    (5, b"server 0a0b0c0d0e0f 1.0.255.0 a-Z.0_9", true),
    (5, b"server 0a0b0c0d0e0f 0.0.0.1 -", true),
    (5, b"server 0a0b0c0d0e0f 255.255.255.254 .", true),
    (5, b"server 0A0b0c0d0e0f 1.0.255.0 boss", false),
    (5, b"server 0a0b0c0d0e 1.0.255.0 boss", false),
    (5, b"server 0a0b0c0d0e0f0 1.0.255.0 boss", false),
    (5, b"server 0a0b0c0d0e0g 1.0.255.0 boss", false),
    (5, b"server 0a0b0c0d0e0f 0.0.0.0 boss", false),
    (5, b"server 0a0b0c0d0e0f 255.255.255.255 boss", false),
    (5, b"server 0a0b0c0d0e0f 1.0.255.256 boss", false),
    (5, b"server 0a0b0c0d0e0f 1.0.255.00 boss", false),
    (5, b"server 0a0b0c0d0e0f 1.0.255 boss", false),
    (5, b"server 0a0b0c0d0e0f 1.0.255.0.1 boss", false),
    (5, b"server 0a0b0c0d0e0f 1.0..0 boss", false),
    (5, b"server 0a0b0c0d0e0f 1.0.255.0 bo\x80ss", false),
    (5, b"server 0a0b0c0d0e0f 1.0.255.0 bo/ss", false),
    (5, b"server 0a0b0c0d0e0f 1.0.255.0 boss\r", false),
    (5, b"server 0a0b0c0d0e0f 1.0.255.0 ", false),
    (5, b"server 0a0b0c0d0e0f 1.0.255.0", false),
    (5, b"server 0a0b0c0d0e0f  1.0.255.0 boss", false),
    (6, b"client 080020010203 192.168.1.2 sparky d 0.0.0.0", true),
    (
        6,
        b"client 080020010203 192.168.1.2 sparky d 255.255.255.255",
        true,
    ),
    (
        6,
        b"client 080020010203 192.168.1.2 Boss boss 1.2.3.4",
        true,
    ),
    (
        6,
        b"client 080020000001 192.168.1.2 sparky d 1.2.3.4",
        false,
    ),
    (
        6,
        b"client 080020010203 192.168.1.1 sparky d 1.2.3.4",
        false,
    ),
    (6, b"client 080020010203 192.168.1.2 boss d 1.2.3.4", false),
    (6, b"client 080020010203 192.168.1.2 sparky d 1.2.3", false),
    (6, b"client 080020010203 192.168.1.2 sparky d", false),
    (6, b"client 080020010203 192.168.1.2 sparky  1.2.3.4", false),
    (
        6,
        b"client 080020010203 192.168.1.2 sparky d 1.2.3.4 e",
        false,
    ),
    (6, b"client 080020010203 0.0.0.0 sparky d 1.2.3.4", false),
    (6, b"server 080020000002 192.168.1.2 sparky", false),
    (6, b"addr", false),
];

#[test]
fn judges_lines_of_the_heading(rt: HostRuntime) -> Result<(), Fail> {
    for (place, line, is_read) in HEADING {
        let text = with_line(&rt, place, line, b"addr\n")?;
        let wanted = if is_read { None } else { Some(place) };
        assert_eq!(rt; refused(&rt, text.as_slice())?, wanted, "line {place}");
    }
    Ok(())
}

/// What follows the heading, with the number of the refused line, or none.
const AFTER: [(&[u8], Option<u64>); 45] = [
    (b"", None),
    (b"addr", None),
    (b"wait 1\nwait 100000\naddr\n", None),
    (b"fate 29 9\n", None),
    (b"fate 29 10\n", Some(7)),
    (b"fate 29 0\n", Some(7)),
    (b"fate 29 1 2 3 4 5 6 7 8\n", None),
    (b"fate 29 1 2 3 4 5 6 7 8 9\n", Some(7)),
    (b"fate 29 9 9\n", None),
    (b"fate 29 1 10 1\n", Some(7)),
    (b"fate 29\n", Some(7)),
    (b"fate 29 \n", Some(7)),
    (b"fate 29 none\n", None),
    (b"fate 29 none 1\n", Some(7)),
    (b"fate 29 1 none\n", Some(7)),
    (b"fate 0 none\nfate 4294967295 none\n", None),
    (b"fate 4294967296 none\n", Some(7)),
    (b"fate 1 1\nfate 1 2\n", Some(8)),
    (
        b"fate 1 none\nfate 0 1\nfate 2 1\nfate 1 none\naddr\n",
        Some(10),
    ),
    (b"addr\nfate 1 1\n", Some(8)),
    (b"addr \n", Some(7)),
    (b"addr\r\n", Some(7)),
    (b"addr 1\n", Some(7)),
    (b"ADDR\n", Some(7)),
    (b"wait 0\n", Some(7)),
    (b"wait 100001\n", Some(7)),
    (b"wait 01\n", Some(7)),
    (b"wait\n", Some(7)),
    (b"life 10\n", Some(7)),
    (b"boot\naddr\nboot", None),
    (b"boot \n", Some(7)),
    (b"boot 1\n", Some(7)),
    (b"host 192.168.1.9 other\n", Some(7)),
    (b"params sparky root=boss:/export\n", None),
    (b"stranger 1 frame 00\n", Some(7)),
    (b"out 1 00*8192\n", Some(7)),
    (b"in 1\n", Some(7)),
    (b"drop 1\n", Some(7)),
    (b"\n#\x80\r\n\naddr\n# addr \n", None),
    (b"\n#\n\naddr\n x\n", Some(11)),
    (b" # addr\n", Some(7)),
    (b" \n", Some(7)),
    (b"\r\n", Some(7)),
    (b"\0\n", Some(7)),
    (b"addr\nwait 5\naddr\nadr", Some(10)),
];

#[test]
fn judges_lines_after_the_heading(rt: HostRuntime) -> Result<(), Fail> {
    for (more, wanted) in AFTER {
        let text = with_line(&rt, 0, b"", more)?;
        assert_eq!(rt; refused(&rt, text.as_slice())?, wanted);
    }
    assert_eq!(rt; refused(&rt, b"")?, Some(1));
    assert_eq!(rt; refused(&rt, b"\n")?, Some(2));
    assert_eq!(rt; refused(&rt, b"life 10")?, Some(2));
    assert_eq!(rt; refused(&rt, b"life 10\n")?, Some(2));
    assert_eq!(rt; refused(&rt, b"#\n\nlife 10\ntries 4\n")?, Some(5));
    Ok(())
}

/// A text of this length: the heading, and a comment.
fn filled(rt: &HostRuntime, len: usize) -> Result<Vec<u8>, NoMemory> {
    let head = with_line(rt, 0, b"", b"")?;
    let mut text = head.into_vec();
    text.resize(len, b'#')?;
    Ok(text)
}

#[test]
fn keeps_the_limits(rt: HostRuntime) -> Result<(), Fail> {
    let mut text = with_line(&rt, 0, b"", b"fate 0 none\n")?;
    for _ in 0..16_384 {
        text.push_slice(b"addr\n")?;
    }
    assert_eq!(rt; refused(&rt, text.as_slice())?, None);
    text.push_slice(b"#\naddr\n")?;
    assert_eq!(rt; refused(&rt, text.as_slice())?, Some(16_393));

    let mut name = with_line(&rt, 0, b"", b"")?;
    name.shorten(0);
    name.push_slice(b"server 0a0b0c0d0e0f 1.0.255.0 ")?;
    for _ in 0..255 {
        name.push_slice(b"a")?;
    }
    let text = with_line(&rt, 5, name.as_slice(), b"")?;
    assert_eq!(rt; refused(&rt, text.as_slice())?, None);
    name.push_slice(b"a")?;
    let text = with_line(&rt, 5, name.as_slice(), b"")?;
    assert_eq!(rt; refused(&rt, text.as_slice())?, Some(5));

    let mut text = filled(&rt, 67_108_864)?;
    assert_eq!(rt; refused(&rt, text.as_slice())?, None);
    text.push(b'\n')?;
    assert_eq!(rt; refused(&rt, text.as_slice())?, Some(7));
    Ok(())
}
