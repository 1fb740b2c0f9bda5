//! Reading byte runs.

ghost use Rattle.std.specs.Prelude.{◌≤◌, length};
ghost use Rattle.sd_text.specs.Answers.{Reads};
ghost use Rattle.sd_text.specs.Runs.{IsRunsWithin};
ghost use Rattle.sd_text.specs.RunReading.{IsItemText, ReadsOnto};

use crate::error::LineError;
use crate::parts::Parts;
use crate::values::{read_number, read_pairs, same_text};
use sd_outside::ByteList;
use std::alloc::Global;

/// An item of a byte run text.
#[derive(Debug, Drop)]
pub enum RunItem {
    Pairs(ByteList),
    Repeated { byte: u8, count: u64 },
}

/// The item whose text this is, where it repeats its byte at most `most` times.
fn read_item(alloc: Global, text: &[u8], most: usize) -> Result<RunItem, LineError>
    ensures { Reads (IsItemText most text.now) result }
{
    if text.len() < 3 || text[2] != b'*' {
        return Ok(RunItem::Pairs(read_pairs(alloc, text)?));
    }
    let pair = read_pairs(alloc, &text[..2])?;
    let Some(count) = read_number(&text[3..], 2, most as u64) else {
        return Err(LineError::Outside);
    };
    Ok(RunItem::Repeated {
        byte: pair.as_slice()[0],
        count,
    })
}

/// Adds the bytes for which an item stands, where at most `most` are there then. The first pairs aren't copied.
fn push_item(bytes: &mut Vec<u8>, item: RunItem, most: usize) -> Result<(), LineError>
    requires { length bytes.old.items ≤ most }
    ensures { ReadsOnto most bytes.old.items item bytes.new.items result }
{
    let room = most - bytes.len();
    match item {
        RunItem::Pairs(pairs) => {
            if pairs.as_slice().len() > room {
                return Err(LineError::Outside);
            }
            if bytes.is_empty() {
                *bytes = pairs.into_vec();
            } else {
                bytes.extend_from_slice(pairs.as_slice())?;
            }
        }
        RunItem::Repeated { byte, count } => {
            if count > room as u64 {
                return Err(LineError::Outside);
            }
            bytes.resize(bytes.len() + count as usize, byte)?;
        }
    }
    Ok(())
}

/// The bytes for which a text stands, where they are at most `most`.
pub fn read_runs_within(alloc: Global, text: &[u8], most: usize) -> Result<ByteList, LineError>
    ensures { Reads (IsRunsWithin most text.now) result }
{
    let mut bytes = Vec::new(alloc);
    if same_text(text, b"-") {
        return Ok(ByteList::from_vec(bytes));
    }
    let mut parts = Parts::new(text, b'.');
    while let Some(part) = parts.next() {
        let item = read_item(alloc, part, most)?;
        push_item(&mut bytes, item, most)?;
    }
    Ok(ByteList::from_vec(bytes))
}
