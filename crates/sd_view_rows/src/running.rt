//! The program, over an input and an output in memory.

use sd_outside::{ByteList, CalmSink, CalmSource};
use sd_view::run;
use std::alloc::Global;
use std::test::Fail;

/// The words of a command line.
pub fn words(alloc: Global, all: &[&str]) -> Result<Vec<ByteList>, Fail> {
    let mut words = Vec::new(alloc);
    for word in all {
        words.push(ByteList::from_slice(alloc, word.as_bytes())?)?;
    }
    Ok(words)
}

/// What the program of these words writes, and its status.
pub fn ran(alloc: Global, all: &[&str], input: &[u8]) -> Result<(u8, ByteList), Fail> {
    let words = words(alloc, all)?;
    let mut source = CalmSource::new(alloc, input)?;
    let mut sink = CalmSink::new(alloc, 65_536)?;
    let status = run(alloc, words.as_slice(), &mut source, &mut sink);
    match sink.bytes() {
        Some(bytes) => Ok((status.0, ByteList::from_slice(alloc, bytes)?)),
        None => Ok((status.0, ByteList::empty(alloc))),
    }
}
