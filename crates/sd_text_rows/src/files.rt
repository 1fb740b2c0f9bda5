//! What configuration lines say of boot files, files, links, the kernel and the swap file, and their limits.

use crate::scripts::{push_line, refused, with_line};
use sd_config::{Config, RootItem};
use sd_outside::{ByteList, NoMemory};
use sd_script::read_script;
use sd_text::{push_number, write_runs};
use std::test::Fail;

/// A whole boot, behind the heading.
const BOOT: &[u8] = b"tftp C0A80102 42*600
root /export/root/sparky
file /vmunix 4b*8193
kernel /vmunix
swap /export/swap/sparky 16384
";

/// The lines of a whole boot, and more behind them.
fn boot_and(rt: &HostRuntime, more: &[u8]) -> Result<ByteList, NoMemory> {
    let mut text = with_line(rt, 0, b"", BOOT)?;
    text.push_slice(more)?;
    Ok(text)
}

/// Adds what is kept of a file or a link.
fn push_item(rt: &HostRuntime, item: &RootItem, text: &mut ByteList) -> Result<(), NoMemory> {
    let alloc = rt.alloc();
    match item {
        RootItem::File { path, bytes } => {
            text.push_slice(path.as_slice())?;
            text.push_slice(b" ")?;
            write_runs(alloc, bytes.as_slice(), text)?;
        }
        RootItem::Symlink { path, text: target } => {
            text.push_slice(path.as_slice())?;
            text.push_slice(b" to ")?;
            text.push_slice(target.as_slice())?;
        }
    }
    text.push_slice(b"\n")
}

/// What is kept of boot files, and of the files and links of the root export.
fn kept_files(rt: &HostRuntime, config: &Config) -> Result<ByteList, NoMemory> {
    let mut text = ByteList::empty(rt.alloc());
    for file in config.tftp.as_slice() {
        text.push_slice(file.name.as_slice())?;
        text.push_slice(b" ")?;
        write_runs(rt.alloc(), file.bytes.as_slice(), &mut text)?;
        text.push_slice(b"\n")?;
    }
    for item in config.items.as_slice() {
        push_item(rt, item, &mut text)?;
    }
    Ok(text)
}

/// What is kept of the other configuration lines.
fn kept_names(rt: &HostRuntime, config: &Config) -> Result<ByteList, NoMemory> {
    let mut text = ByteList::empty(rt.alloc());
    push_line(&mut text, config.arch.as_slice())?;
    push_line(&mut text, config.kernel.as_slice())?;
    if let Some(root) = &config.root {
        push_line(&mut text, root.as_slice())?;
    }
    if let Some(swap) = &config.swap {
        push_number(rt.alloc(), &mut text, swap.size)?;
        text.push_slice(b" ")?;
        push_line(&mut text, swap.path.as_slice())?;
    }
    Ok(text)
}

/// What is kept of a text's configuration lines.
fn kept(rt: &HostRuntime, text: &[u8]) -> Result<ByteList, NoMemory> {
    match read_script(rt.alloc(), text) {
        Ok(script) => {
            let mut text = kept_names(rt, &script.config)?;
            text.push_slice(kept_files(rt, &script.config)?.as_slice())?;
            Ok(text)
        }
        Err(_) => ByteList::from_slice(rt.alloc(), b"refused"),
    }
}

#[test]
fn reads_what_configuration_lines_say(rt: HostRuntime) -> Result<(), Fail> {
    let text = boot_and(&rt, b"link /etc/rc ../x\narch sun2\nfile /b -\nboot\n")?;
    let wanted = b"sun2
/vmunix
/export/root/sparky
16384 /export/swap/sparky
C0A80102 42*600
/vmunix 4b*8193
/etc/rc to ../x
/b -
";
    let is = kept(&rt, text.as_slice())?;
    assert_eq!(rt; is.as_slice(), wanted.as_slice());
    let text = with_line(&rt, 0, b"", b"")?;
    let is = kept(&rt, text.as_slice())?;
    assert_eq!(rt; is.as_slice(), b"\n/vmunix\n".as_slice());
    Ok(())
}

/// What follows the whole boot, whose lines are the first eleven, with the number of the refused line, or none.
const AFTER: [(&[u8], Option<u64>); 10] = [
    (b"fate 29 9\n", None),
    (b"fate 29 10\n", Some(12)),
    (b"fate 29 9\narch sun2\n", Some(13)),
    (b"addr\nlink /a b\n", Some(13)),
    (b"kernel /vmunix\n", Some(12)),
    (b"root /export/other\n", Some(12)),
    (b"swap /export/other 16384\n", Some(12)),
    (b"tftp C0A80102 00\n", Some(12)),
    (b"file /vmunix/x 00\n", Some(12)),
    (b"arch sun2\narch sun2\n", Some(13)),
];

#[test]
fn judges_lines_after_a_whole_boot(rt: HostRuntime) -> Result<(), Fail> {
    for (more, wanted) in AFTER {
        let text = boot_and(&rt, more)?;
        assert_eq!(rt; refused(&rt, text.as_slice())?, wanted);
    }
    Ok(())
}

/// Configuration lines behind the heading, with the number of the refused line, or none.
const LINES: [(&[u8], Option<u64>); 53] = [
    (b"arch .\n", None),
    (b"arch ..\n", None),
    (b"arch \n", Some(7)),
    (b"arch\n", Some(7)),
    (b"arch a/b\n", Some(7)),
    (b"arch a b\n", Some(7)),
    (b"tftp . -\ntftp .. -\ntftp a -\n", None),
    (b"tftp a 00\ntftp a 00\n", Some(8)),
    (b"tftp a\n", Some(7)),
    (b"tftp a \n", Some(7)),
    (b"tftp a 0\n", Some(7)),
    (b"tftp a 00*1\n", Some(7)),
    (b"tftp a 00 00\n", Some(7)),
    (b"tftp a/b 00\n", Some(7)),
    (b"tftp a 00*33553920\n", Some(7)),
    (b"root /\n", Some(7)),
    (b"root //\n", Some(7)),
    (b"root /a/\n", Some(7)),
    (b"root /a//b\n", Some(7)),
    (b"root a\n", Some(7)),
    (b"root \n", Some(7)),
    (b"root /.\n", Some(7)),
    (b"root /a/..\n", Some(7)),
    (b"root /a/./b\n", Some(7)),
    (b"root /...\n", None),
    (b"root /a\x7f\n", Some(7)),
    (b"root /!~\n", None),
    (b"root /a\nroot /a\n", Some(8)),
    (b"root /a\nswap /a 8192\n", Some(8)),
    (b"swap /a 8192\nroot /a\n", Some(8)),
    (b"root /a\nswap /a/b 8192\n", None),
    (b"swap /a 8191\n", Some(7)),
    (b"swap /a 33554432\n", None),
    (b"swap /a 33554433\n", Some(7)),
    (b"swap /a\n", Some(7)),
    (b"swap /a 8192\nswap /b 8192\n", Some(8)),
    (b"kernel /stand/vmunix\n", None),
    (b"kernel vmunix\n", Some(7)),
    (b"kernel /a\nkernel /b\n", Some(8)),
    (b"file /a 00\nfile /a 00\n", Some(8)),
    (b"file /a 00\nlink /a b\n", Some(8)),
    (b"link /a b\nfile /a 00\n", Some(8)),
    (b"file /a 00\nfile /a/b 00\n", Some(8)),
    (b"file /a/b 00\nlink /a c\n", Some(8)),
    (b"file /a 00\nfile /ab 00\nfile /b/a 00\n", None),
    (b"file /a\n", Some(7)),
    (b"file /a 0g\n", Some(7)),
    (b"file /a -\nfile /b 00\n", None),
    (b"file /b 00*33554433\n", Some(7)),
    (b"link /a \n", Some(7)),
    (b"link /a\n", Some(7)),
    (b"link /a b c\n", Some(7)),
    (b"link /a /b//./..\n", None),
];

#[test]
fn judges_configuration_lines(rt: HostRuntime) -> Result<(), Fail> {
    for (lines, wanted) in LINES {
        let text = with_line(&rt, 0, b"", lines)?;
        assert_eq!(rt; refused(&rt, text.as_slice())?, wanted);
    }
    Ok(())
}

/// Adds lines that begin so, end so, and have a number of three digits between, from 0 on.
pub fn push_lines(
    text: &mut ByteList,
    count: usize,
    begin: &[u8],
    end: &[u8],
) -> Result<(), NoMemory> {
    for number in 0..count {
        let digits = [
            b'0' + (number / 100 % 10) as u8,
            b'0' + (number / 10 % 10) as u8,
            b'0' + (number % 10) as u8,
        ];
        text.push_slice(begin)?;
        text.push_slice(&digits)?;
        push_line(text, end)?;
    }
    Ok(())
}

#[test]
fn keeps_the_limits_on_files(rt: HostRuntime) -> Result<(), Fail> {
    let mut text = with_line(&rt, 0, b"", b"")?;
    push_lines(&mut text, 16, b"tftp ", b" -")?;
    push_lines(&mut text, 256, b"file /", b" 00")?;
    assert_eq!(rt; refused(&rt, text.as_slice())?, None);
    text.push_slice(b"link /a b\n")?;
    assert_eq!(rt; refused(&rt, text.as_slice())?, Some(279));

    let mut text = with_line(&rt, 0, b"", b"")?;
    push_lines(&mut text, 17, b"tftp ", b" -")?;
    assert_eq!(rt; refused(&rt, text.as_slice())?, Some(23));
    Ok(())
}

#[test]
fn keeps_the_sum_of_all_files(rt: HostRuntime) -> Result<(), Fail> {
    let most = b"tftp a 00*33553919\nfile /a 00*33554432\nfile /b 00*513\nfile /c -\nfile /d 00\n";
    let text = with_line(&rt, 0, b"", most)?;
    assert_eq!(rt; refused(&rt, text.as_slice())?, Some(11));
    Ok(())
}
