//! What words mean.

ghost use Rattle.std.specs.Prelude.{◌≡◌, ◌==◌, not, ◌≤◌, IfSome, IfOk, length, take, drop};
ghost use Rattle.sd_xdr.specs.Kind.{number, bytes};
ghost use Rattle.sd_text.specs.Kind.{digits, pairs, run, has, all_pass};
ghost use Rattle.sd_text.specs.Reading.{Finds, FindsIn, front, behind};

use crate::class::Class;
use crate::error::LineError;
use crate::runs::read_runs_within;
use crate::values::{read_mac, read_number};
use sd_outside::{ByteList, Mac};
use std::alloc::Global;

/// How many bytes of a class stand at the front.
pub fn front_len(text: &[u8], class: Class) -> usize
    ensures fits { result ≤ length text.now }
    ensures front { take result text.now ≡ front (has class) text.now }
    ensures behind { drop result text.now ≡ behind (has class) text.now }
{
    let mut len = 0;
    'counting: while len < text.len() && class.has(text[len]) {
        len += 1;
    }
    len
}

/// The number of a text.
#[tactic(auto, using(crate::proofs::Meanings::number_found))]
pub fn number_of(text: &[u8], low: u64, high: u64) -> Option<u64>
    ensures finds { Finds (digits low high) number text.now result }
    ensures range { IfSome result (λ n. (low ≤ n) × (n ≤ high)) }
{
    read_number(text, low, high)
}

/// The hardware address of a text.
#[tactic(auto, using(crate::proofs::Meanings::mac_found))]
pub fn mac_of(text: &[u8]) -> Option<Mac>
    ensures { Finds (pairs 6) (λ m. bytes m.0) text.now result }
{
    read_mac(text)
}

/// The bytes of a byte run, at least and at most so many.
#[tactic(auto, using(crate::proofs::RunWords::run_read, crate::proofs::RunWords::run_short, crate::proofs::RunWords::run_outside))]
pub fn run_of(alloc: Global, text: &[u8], least: usize, most: usize) -> Result<ByteList, LineError>
    ensures finds { FindsIn (run least most) bytes text.now result }
    ensures range { IfOk result (λ b. (least ≤ length b) × (length b ≤ most)) }
{
    match read_runs_within(alloc, text, most) {
        Ok(bytes) => {
            if bytes.as_slice().len() < least {
                return Err(LineError::Outside);
            }
            Ok(bytes)
        }
        Err(LineError::Outside) => Err(LineError::Outside),
        Err(LineError::NoMemory) => Err(LineError::NoMemory),
    }
}

/// Whether no byte is this one.
pub fn all_but(text: &[u8], byte: u8) -> bool
    ensures { result ≡ all_pass (λ b. not (b == byte)) text.now }
{
    let mut all = true;
    'looking: for b in text {
        if *b == byte {
            all = false;
        }
    }
    all
}
