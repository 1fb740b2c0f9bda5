//! Writing byte runs.

ghost use Rattle.std.specs.Prelude.{◌≡◌, ◌<◌, ◌++◌, length, IfOk, OnOk, OnErr};
ghost use Rattle.sd_text.specs.Runs.{pairs, repeated, item_text, runs_text};
ghost use Rattle.sd_text.specs.Writing.{run_length, IsFirstItem, WritesItem, AppendsPrefix};

use sd_outside::{ByteList, NoMemory};
use std::alloc::Global;

/// The least length of a run that is an item of its own.
const LONG_RUN: usize = 4;

/// What the first item of some bytes is, with how many bytes it stands for.
#[derive(Clone, Copy, Debug)]
pub enum FirstItem {
    Repeated(usize),
    Pairs(usize),
}

/// How many bytes at the front equal the first.
fn front_run(bytes: &[u8]) -> usize
    requires { 0 < length bytes.now }
    ensures { result ≡ run_length bytes.now }
{
    let first = bytes[0];
    bytes.iter().take_while(|b| **b == first).count()
}

/// Where the first item ends, and of which kind it is.
fn first_item(bytes: &[u8]) -> FirstItem
    requires { 0 < length bytes.now }
    ensures { IsFirstItem bytes.now result }
{
    let run = front_run(bytes);
    if run >= LONG_RUN {
        return FirstItem::Repeated(run);
    }
    let mut at = run;
    while at < bytes.len() {
        let run = front_run(&bytes[at..]);
        if run >= LONG_RUN {
            break;
        }
        at += run;
    }
    FirstItem::Pairs(at)
}

/// The text of an item that repeats a byte.
fn repeated_text(alloc: Global, byte: u8, count: usize) -> Result<ByteList, NoMemory>
    ensures { IfOk result (λ text. text ≡ item_text (repeated byte count)) }
{
    let mut text = ByteList::from_vec(hex::encode(alloc, [byte])?.into_bytes());
    text.push_slice(b"*")?;
    text.push_slice(count.to_string(alloc)?.as_bytes())?;
    Ok(text)
}

/// Writes an item of pairs. A refused call changes nothing.
fn write_pairs(alloc: Global, bytes: &[u8], text: &mut ByteList) -> Result<(), NoMemory>
    ensures ok { OnOk result (text.new ≡ text.old ++ item_text (pairs bytes.now)) }
    ensures err { OnErr result (text.new ≡ text.old) }
{
    text.push_slice(hex::encode(alloc, bytes)?.as_bytes())
}

/// Writes the first item of some bytes, and gives the bytes after those for which it stands. A refused call
/// changes nothing.
fn write_item<'a>(alloc: Global, bytes: &'a [u8], text: &mut ByteList) -> Result<&'a [u8], NoMemory>
    requires { 0 < length bytes.now }
    ensures ok { IfOk result (λ rest. WritesItem bytes.now text.old rest.now text.new) }
    ensures err { OnErr result (text.new ≡ text.old) }
{
    match first_item(bytes) {
        FirstItem::Repeated(count) => {
            let item = repeated_text(alloc, bytes[0], count)?;
            text.push_slice(item.as_slice())?;
            Ok(&bytes[count..])
        }
        FirstItem::Pairs(count) => {
            write_pairs(alloc, &bytes[..count], text)?;
            Ok(&bytes[count..])
        }
    }
}

/// Writes the byte run text of some bytes at the end of a text. A refused call leaves a prefix of it there.
pub fn write_runs(alloc: Global, bytes: &[u8], text: &mut ByteList) -> Result<(), NoMemory>
    ensures ok { OnOk result (text.new ≡ text.old ++ runs_text bytes.now) }
    ensures err { OnErr result (AppendsPrefix text.old text.new (runs_text bytes.now)) }
{
    if bytes.is_empty() {
        return text.push_slice(b"-");
    }
    let mut rest = write_item(alloc, bytes, text)?;
    while !rest.is_empty() {
        text.push_slice(b".")?;
        rest = write_item(alloc, rest, text)?;
    }
    Ok(())
}
