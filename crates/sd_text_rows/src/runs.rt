//! Byte runs in every split.

use sd_outside::{ByteList, NoMemory};
use sd_script::{RunsError, read_runs};
use sd_text::write_runs;
use std::test::Fail;

/// Six pairs of digits, with a dot before each whose bit is set, but the first.
fn dotted(rt: &HostRuntime, dots: u32) -> Result<ByteList, NoMemory> {
    let mut text = ByteList::from_slice(rt.alloc(), b"01")?;
    let mut dots = dots;
    for pair in [b"02", b"fe", b"00", b"ff", b"7a"] {
        if dots % 2 == 1 {
            text.push_slice(b".")?;
        }
        text.push_slice(pair)?;
        dots /= 2;
    }
    Ok(text)
}

/// A part of some equal bytes, as pairs, or as one pair and a number.
fn push_part(
    rt: &HostRuntime,
    text: &mut ByteList,
    len: u32,
    counted: bool,
) -> Result<(), NoMemory> {
    if counted && len > 1 {
        text.push_slice(b"4b*")?;
        return text.push_slice(len.to_string(rt.alloc())?.as_bytes());
    }
    for _ in 0..len {
        text.push_slice(b"4b")?;
    }
    Ok(())
}

/// Six equal bytes in parts. A part ends where the bit of `ends` is set, and its form is that of the bit of `forms`.
fn parted(rt: &HostRuntime, ends: u32, forms: u32) -> Result<ByteList, NoMemory> {
    let mut text = ByteList::empty(rt.alloc());
    let mut len: u32 = 1;
    let mut ends = ends;
    let mut forms = forms;
    for _ in 0..5 {
        if ends % 2 == 1 {
            push_part(rt, &mut text, len, forms % 2 == 1)?;
            text.push_slice(b".")?;
            len = 0;
        }
        len = len.saturating_add(1);
        ends /= 2;
        forms /= 2;
    }
    push_part(rt, &mut text, len, forms % 2 == 1)?;
    Ok(text)
}

/// The bytes of a text, or none where it is refused.
fn bytes_of(rt: &HostRuntime, text: &[u8]) -> Result<Option<ByteList>, NoMemory> {
    match read_runs(rt.alloc(), text) {
        Ok(bytes) => Ok(Some(bytes)),
        Err(RunsError::BadRuns) => Ok(None),
        Err(RunsError::NoMemory) => Err(NoMemory),
    }
}

#[test]
fn reads_every_split(rt: HostRuntime) -> Result<(), Fail> {
    for dots in 0..32 {
        let text = dotted(&rt, dots)?;
        match bytes_of(&rt, text.as_slice())? {
            Some(bytes) => assert_eq!(rt; bytes.as_slice(), [1, 2, 0xfe, 0, 0xff, 0x7a].as_slice()),
            None => assert!(rt; false, "refused at {dots}"),
        }
    }
    for ends in 0..32 {
        for forms in 0..64 {
            let text = parted(&rt, ends, forms)?;
            match bytes_of(&rt, text.as_slice())? {
                Some(bytes) => assert_eq!(rt; bytes.as_slice(), [0x4b; 6].as_slice()),
                None => assert!(rt; false, "refused at {ends} {forms}"),
            }
        }
    }
    Ok(())
}

#[test]
fn refuses_what_is_no_run_text(rt: HostRuntime) -> Result<(), Fail> {
    let texts: [&[u8]; 24] = [
        b"",
        b".",
        b"00.",
        b".00",
        b"00..00",
        b"-.00",
        b"--",
        b"0",
        b"000",
        b"0A",
        b"0A*2",
        b"0g",
        b"00 ",
        b"00*1",
        b"00*0",
        b"00*",
        b"00*02",
        b"00*+2",
        b"0001*2",
        b"*2",
        b"0*2",
        b"00*2*2",
        b"00*18446744073709551618",
        b"00*67108865",
    ];
    for text in texts {
        assert!(rt; bytes_of(&rt, text)?.is_none());
    }
    match bytes_of(&rt, b"-")? {
        Some(bytes) => assert!(rt; bytes.as_slice().is_empty()),
        None => assert!(rt; false, "refused"),
    }
    Ok(())
}

#[test]
fn writes_runs(rt: HostRuntime) -> Result<(), Fail> {
    let rows: [(&[u8], &[u8]); 7] = [
        (&[], b"-"),
        (&[0x4b], b"4b"),
        (&[0x4b; 3], b"4b4b4b"),
        (&[0x4b; 4], b"4b*4"),
        (&[1, 1, 1, 2, 2, 2, 2, 3], b"010101.02*4.03"),
        (&[0, 0, 0, 0, 1, 1, 1, 1, 1], b"00*4.01*5"),
        (
            &[9, 8, 8, 7, 7, 7, 0xab, 0xab, 0xab, 0xab],
            b"090808070707.ab*4",
        ),
    ];
    for (bytes, wanted) in rows {
        let mut text = ByteList::from_slice(rt.alloc(), b"x ")?;
        write_runs(rt.alloc(), bytes, &mut text)?;
        let mut whole = ByteList::from_slice(rt.alloc(), b"x ")?;
        whole.push_slice(wanted)?;
        assert_eq!(rt; text.as_slice(), whole.as_slice());
    }
    Ok(())
}
