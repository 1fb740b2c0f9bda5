//! The fields of a line, one after another.

ghost use Rattle.std.specs.Prelude.{◌≡◌, []};
ghost use Rattle.sd_text.specs.Texts.{IsNumber, IsIp, IsAddr};
ghost use Rattle.sd_text.specs.Runs.{IsRunsWithin};
ghost use Rattle.sd_text.specs.Answers.{Reads, Tells, Takes, TakesLast};

use crate::error::LineError;
use crate::parts::Parts;
use crate::runs::read_runs_within;
use crate::values::read_number;
use sd_outside::{Addr, ByteList};
use std::alloc::Global;

/// A number as the next field.
pub fn take_number(fields: &mut Parts<'_>, least: u64, most: u64) -> Result<u64, LineError>
    ensures { Takes (IsNumber least most) fields.old fields.new result }
{
    let Some(text) = fields.next() else {
        return Err(LineError::Outside);
    };
    match read_number(text, least, most) {
        Some(number) => Ok(number),
        None => Err(LineError::Outside),
    }
}

/// No field is left.
pub fn take_end(fields: &mut Parts<'_>) -> Result<(), LineError>
    ensures { Tells (fields.old ≡ []) result }
{
    match fields.next() {
        None => Ok(()),
        Some(_) => Err(LineError::Outside),
    }
}

/// A number as the one field that is left.
pub fn only_number(mut fields: Parts<'_>, least: u64, most: u64) -> Result<u64, LineError>
    ensures { TakesLast (IsNumber least most) fields.entry result }
{
    let number = take_number(&mut fields, least, most)?;
    take_end(&mut fields)?;
    Ok(number)
}

/// The address of which this is the text.
pub fn read_ip(text: &[u8]) -> Result<u32, LineError>
    ensures { Reads (IsIp text.now) result }
{
    let mut parts = Parts::new(text, b'.');
    let first = take_number(&mut parts, 0, 255)? as u8;
    let second = take_number(&mut parts, 0, 255)? as u8;
    let third = take_number(&mut parts, 0, 255)? as u8;
    let fourth = only_number(parts, 0, 255)? as u8;
    Ok(u32::from_be_bytes([first, second, third, fourth]))
}

/// The address and port of which this is the text.
pub fn read_addr(text: &[u8]) -> Result<Addr, LineError>
    ensures { Reads (IsAddr text.now) result }
{
    let mut parts = Parts::new(text, b':');
    let ip = take_ip(&mut parts)?;
    let port = only_number(parts, 0, 65_535)? as u16;
    Ok(Addr { ip, port })
}

/// An address as the next field.
pub fn take_ip(fields: &mut Parts<'_>) -> Result<u32, LineError>
    ensures { Takes IsIp fields.old fields.new result }
{
    let Some(text) = fields.next() else {
        return Err(LineError::Outside);
    };
    read_ip(text)
}

/// An address and a port as the next field.
pub fn take_addr(fields: &mut Parts<'_>) -> Result<Addr, LineError>
    ensures { Takes IsAddr fields.old fields.new result }
{
    let Some(text) = fields.next() else {
        return Err(LineError::Outside);
    };
    read_addr(text)
}

/// A byte run text of at most `most` bytes as the next field.
pub fn take_runs(alloc: Global, fields: &mut Parts<'_>, most: usize) -> Result<ByteList, LineError>
    ensures { Takes (IsRunsWithin most) fields.old fields.new result }
{
    let Some(text) = fields.next() else {
        return Err(LineError::Outside);
    };
    read_runs_within(alloc, text, most)
}
