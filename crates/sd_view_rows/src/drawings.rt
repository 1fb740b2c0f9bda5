//! Ladders and pictures of transcripts.

mod ladders;
mod pictures;

use crate::running::ran;
use ladders::LADDERS;
use pictures::PICTURES;
use std::test::Fail;

/// A transcript, and what a view makes of it.
#[derive(Clone, Copy)]
pub struct Row {
    pub input: &'static [u8],
    pub output: &'static [u8],
}

#[test]
fn draws_ladders(rt: HostRuntime) -> Result<(), Fail> {
    for row in &LADDERS {
        let (status, output) = ran(rt.alloc(), &["ladder"], row.input)?;
        assert_eq!(rt; status, 0);
        assert_eq!(rt; output.as_slice(), row.output);
    }
    Ok(())
}

#[test]
fn draws_pictures(rt: HostRuntime) -> Result<(), Fail> {
    for row in &PICTURES {
        let (status, output) = ran(rt.alloc(), &["svg"], row.input)?;
        assert_eq!(rt; status, 0);
        assert_eq!(rt; output.as_slice(), row.output);
    }
    Ok(())
}

#[test]
fn refuses_what_is_no_transcript(rt: HostRuntime) -> Result<(), Fail> {
    for word in ["ladder", "pcap", "svg"] {
        let (status, output) = ran(rt.alloc(), &[word], b"failed 3\ngot 3 0\n")?;
        assert_eq!(rt; status, 1);
        assert_eq!(rt; output.as_slice(), b"refused line 2\n".as_slice());
    }
    Ok(())
}
