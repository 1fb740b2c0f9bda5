//! The texts of single values.

ghost use Rattle.std.specs.Prelude.{◌≡◌, ◌<◌, length, slice_index, IsTrue, ◌↔◌};
ghost use Rattle.sd_text.specs.Answers.{Finds, Reads};
ghost use Rattle.sd_text.specs.Texts.{IsNumber, IsMac};
ghost use Rattle.sd_text.specs.Values.{BeginsPlain, IsPairs, is_lower_digit};
ghost use Rattle.std.specs.List.{AllPass};

use crate::error::LineError;
use hex::FromHexError;
use sd_outside::{ByteList, Mac};
use std::alloc::Global;

/// Whether two texts are equal.
pub fn same_text(text: &[u8], other: &[u8]) -> bool
    ensures { IsTrue result ↔ (text.now ≡ other.now) }
{
    text == other
}

/// Whether the first byte is no sign, and no zero that stands before a digit.
fn begins_plain(text: &[u8]) -> bool
    ensures { IsTrue result ↔ BeginsPlain text.now }
{
    match text {
        [b'+', ..] => false,
        [b'0', _, ..] => false,
        _ => true,
    }
}

/// The number of which this is the text, where it is from `least` to `most`.
pub fn read_number(text: &[u8], least: u64, most: u64) -> Option<u64>
    ensures { Finds (IsNumber least most text.now) result }
{
    if !begins_plain(text) {
        return None;
    }
    let Ok(digits) = str::from_utf8(text) else {
        return None;
    };
    let Ok(number) = digits.parse::<u64>() else {
        return None;
    };
    if least <= number && number <= most {
        Some(number)
    } else {
        None
    }
}

/// Whether each byte is a hexadecimal digit in lower case.
fn is_lower_hex(text: &[u8]) -> bool
    ensures { IsTrue result ↔ AllPass is_lower_digit text.now }
{
    text.iter().all(|b| matches!(*b, b'0'..=b'9' | b'a'..=b'f'))
}

/// The bytes whose hexadecimal digits, in lower case, these are. There is at least one.
pub fn read_pairs(alloc: Global, text: &[u8]) -> Result<ByteList, LineError>
    ensures { Reads (IsPairs text.now) result }
{
    if text.is_empty() || !is_lower_hex(text) {
        return Err(LineError::Outside);
    }
    match hex::decode(alloc, text) {
        Ok(bytes) => Ok(ByteList::from_vec(bytes)),
        Err(error) => match error {
            FromHexError::OutOfMemory => Err(LineError::NoMemory),
            _ => Err(LineError::Outside),
        },
    }
}

/// The hardware address of which this is the text.
pub fn read_mac(text: &[u8]) -> Option<Mac>
    ensures { Finds (IsMac text.now) result }
{
    if !is_lower_hex(text) {
        return None;
    }
    let mut bytes = [0; 6];
    match hex::decode_to_slice(text, &mut bytes) {
        Ok(()) => Some(Mac(bytes)),
        Err(_) => None,
    }
}
