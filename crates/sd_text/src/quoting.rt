//! Texts between quotation marks.

ghost use Rattle.std.specs.Prelude.{◌≡◌, ◌<◌, ◌≤◌, IfOk, length, true, IsTrue};
ghost use Rattle.sd_xdr.specs.Kind.{bytes};
ghost use Rattle.sd_text.specs.Kind.{inner, is_low_hex};
ghost use Rattle.sd_text.specs.Grammar.{is_plain, hex_value, hex_byte, is_escape};
ghost use Rattle.sd_text.specs.Reading.{BeginsInner, FindsIn};

use crate::class::Class;
use crate::error::LineError;
use sd_outside::ByteList;
use std::alloc::Global;

/// Whether a byte stands for itself.
pub fn is_plain(byte: u8) -> bool
    ensures { result ≡ is_plain byte }
{
    (0x20..=0x7e).contains(&byte) && byte != b'"' && byte != b'\\'
}

/// The number of a hexadecimal digit in lower case.
fn hex_value(digit: u8) -> u8
    requires { IsTrue (is_low_hex digit) }
    ensures value { result ≡ hex_value digit }
    ensures small { result < 16 }
{
    if digit < 58 { digit - 48 } else { digit - 87 }
}

/// The byte of two hexadecimal digits in lower case.
fn hex_byte(high: u8, low: u8) -> u8
    requires high { IsTrue (is_low_hex high) }
    requires low { IsTrue (is_low_hex low) }
    ensures { result ≡ hex_byte high low }
{
    16 * hex_value(high) + hex_value(low)
}

/// Whether three bytes stand for one that can't stand for itself.
fn is_escape(first: u8, high: u8, low: u8) -> bool
    ensures { result ≡ is_escape first high low }
{
    first == b'\\'
        && (Class::LowHex.has(high) && (Class::LowHex.has(low) && !is_plain(hex_byte(high, low))))
}

/// The first byte for which a text stands, and the text behind it.
#[tactic(auto, using(crate::proofs::InnerBytes::inner_plain, crate::proofs::InnerBytes::inner_short, crate::proofs::InnerBytes::inner_escape))]
fn first_byte(text: &[u8]) -> Option<(u8, &[u8])>
    requires { 0 < length text.now }
    ensures { BeginsInner text.now result }
{
    let Some((first, rest)) = text.split_first() else {
        return None;
    };
    if is_plain(*first) {
        return Some((*first, rest));
    }
    let Some((high, rest)) = rest.split_first() else {
        return None;
    };
    let Some((low, rest)) = rest.split_first() else {
        return None;
    };
    if is_escape(*first, *high, *low) {
        Some((hex_byte(*high, *low), rest))
    } else {
        None
    }
}

/// The bytes, at most so many, for which a text between quotation marks stands.
pub fn inner_of(alloc: Global, text: &[u8], most: usize) -> Result<ByteList, LineError>
    ensures finds { FindsIn (inner most) bytes text.now result }
    ensures range { IfOk result (λ b. length b ≤ most) }
{
    let mut bytes = ByteList::empty(alloc);
    let mut left = text;
    'reading: while !left.is_empty() {
        let Some((byte, rest)) = first_byte(left) else {
            return Err(LineError::Outside);
        };
        bytes.push_slice(&[byte])?;
        left = rest;
    }
    if bytes.as_slice().len() > most {
        return Err(LineError::Outside);
    }
    Ok(bytes)
}
