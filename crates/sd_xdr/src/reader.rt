//! Reading from left to right. A call that refuses leaves the reader as it was.

ghost use Rattle.std.specs.Prelude.{◌≡◌, ℕ, ◌+◌, ◌*◌, ◌^◌, ◌≤◌, ◌<◌, List, [], length, drop, OnOk, IfOk, IfErr, Result, Ok, Err, Option, Some, None};
ghost use Rattle.sd_xdr.specs.Kind.{Word, any, flag, between, char, count, rpcvers, filling, fixed, upto, auth_body, word, opaque, rest, number, bytes, truth, signed};
ghost use Rattle.sd_xdr.specs.declared.error.MsgError.TheVariants.{Xdr};
ghost use Rattle.sd_xdr.specs.Grammar.{front_word, filling_refusal};
ghost use Rattle.sd_xdr.specs.Reading.{Cursor, start, skip, Shows, ShowsBody, TakesItem, TakesOwn, Ends, rest_reading};

use crate::error::{MsgError, XdrError};
use std::marker::Model;

/// Bytes, and how many of them were taken.
#[derive(Debug, Drop)]
pub struct XdrReader<'a> {
    bytes: &'a [u8],
    at: usize,
}

impl<'a> Model for XdrReader<'a> {
    ghost use Rattle.std.specs.Prelude.{◌≤◌, length, drop};
    ghost use Rattle.sd_xdr.specs.Reading.{Cursor};

    ghost Value = { Cursor };

    ghost view = { λ a. record { at = a.at; rest = drop a.at a.bytes.now } };

    ghost invariant = { λ a. a.at ≤ length a.bytes.now };
}

impl<'a> XdrReader<'a> {
    /// A reader of these bytes, which are borrowed, from their front.
    pub fn new(bytes: &'a [u8]) -> XdrReader<'a>
        ensures { result ≡ start bytes.now }
    {
        XdrReader { bytes, at: 0 }
    }

    /// How many bytes were taken, which is the place of the next item.
    pub fn at(&self) -> usize
        ensures at { result ≡ self.now.at }
        ensures bound { self.now.at + length self.now.rest < 2 ^ 64 }
    {
        self.at
    }

    /// The bytes that are left.
    fn left(&self) -> &'a [u8]
        ensures { result.now ≡ self.now.rest }
    {
        &self.bytes[self.at..]
    }

    /// Takes so many bytes.
    fn skip(&mut self, count: usize)
        requires { count ≤ length self.old.rest }
        ensures { self.new ≡ skip count self.old }
    {
        self.at += count;
    }

    /// The word at the front, which stays there.
    #[tactic(auto, using(crate::proofs::OneItem::word_short, crate::proofs::OneItem::word_whole))]
    fn peek(&self) -> Result<u32, XdrError>
        ensures shows { (w : Word) → Shows self.now w result }
        ensures whole { IfOk result (λ n. (4 ≤ length self.now.rest) × (front_word self.now.rest ≡ n)) }
        ensures short { IfErr result (λ e. (length self.now.rest < 4) × (e ≡ XdrError.Short self.now.at)) }
    {
        let at = self.at();
        let left = self.left();
        if left.len() < 4 {
            return Err(XdrError::Short { at });
        }
        let (front, _) = left.split_at(4);
        Ok(u32::from_be_bytes([front[0], front[1], front[2], front[3]]))
    }

    /// An unsigned integer (RFC 1014, section 3.2).
    #[tactic(auto, unfolding(crate::specs::Reading::reading))]
    pub fn u32(&mut self) -> Result<u32, XdrError>
        ensures { TakesItem (word any) number self.old self.new result }
    {
        let word = self.peek()?;
        self.skip(4);
        Ok(word)
    }

    /// A bool, with `NotBool` for a word above 1 (RFC 1014, section 3.4).
    #[tactic(auto, unfolding(crate::specs::Reading::reading))]
    pub fn bool(&mut self) -> Result<bool, XdrError>
        ensures { TakesItem (word flag) truth self.old self.new result }
    {
        match self.peek()? {
            0 => {
                self.skip(4);
                Ok(false)
            }
            1 => {
                self.skip(4);
                Ok(true)
            }
            word => Err(XdrError::NotBool {
                at: self.at(),
                word,
            }),
        }
    }

    /// An enumeration or a discriminant from `low` to `high`, with `Kind` for another word (RFC 1014, sections 3.3 and 3.14).
    #[tactic(auto, unfolding(crate::specs::Reading::reading))]
    pub fn word_between(&mut self, low: u32, high: u32) -> Result<u32, XdrError>
        ensures takes { TakesItem (word (between low high)) number self.old self.new result }
        ensures range { IfOk result (λ n. (low ≤ n) × (n ≤ high)) }
    {
        let word = self.peek()?;
        if word < low || word > high {
            return Err(XdrError::Kind {
                at: self.at(),
                word,
            });
        }
        self.skip(4);
        Ok(word)
    }

    /// A char of C in an integer from -128 to 255, of which the lowest eight bits are kept, with `Kind` for another word.
    #[tactic(auto, unfolding(crate::specs::Reading::reading))]
    pub fn char(&mut self) -> Result<u8, XdrError>
        ensures { TakesItem (word char) number self.old self.new result }
    {
        let word = self.peek()?;
        if word >= 256 && word < 0xffff_ff80 {
            return Err(XdrError::Kind {
                at: self.at(),
                word,
            });
        }
        self.skip(4);
        Ok((word % 256) as u8)
    }

    /// How many elements an array has, with `TooLong` above `most` (RFC 1014, section 3.12).
    #[tactic(auto, unfolding(crate::specs::Reading::reading))]
    pub fn count(&mut self, most: u32) -> Result<u32, XdrError>
        ensures takes { TakesItem (word (count most)) number self.old self.new result }
        ensures range { IfOk result (λ n. n ≤ most) }
    {
        let len = self.peek()?;
        if len > most {
            return Err(XdrError::TooLong { at: self.at(), len });
        }
        self.skip(4);
        Ok(len)
    }

    /// The version of the RPC protocol in the call `xid`, with `RpcVersion` where it isn't 2 (RFC 1057, section 8).
    #[tactic(auto, unfolding(crate::specs::Reading::reading))]
    pub fn rpc_version(&mut self, xid: u32) -> Result<(), MsgError>
        ensures { TakesOwn (word (rpcvers xid)) (λ _. number 2) self.old self.new result }
    {
        let got = self.peek()?;
        if got != 2 {
            return Err(MsgError::RpcVersion { xid, got });
        }
        self.skip(4);
        Ok(())
    }

    /// A signed integer (RFC 1014, section 3.1).
    #[tactic(auto, using(crate::proofs::OneItem::signed_word), unfolding(crate::specs::Reading::reading))]
    pub fn i32(&mut self) -> Result<i32, XdrError>
        ensures { TakesItem (word any) signed self.old self.new result }
    {
        let word = self.u32()?;
        Ok(word.cast_signed())
    }

    /// `n` bytes, and zeros up to a multiple of four (RFC 1014, section 3.8): `Short`, then `Filling`.
    #[tactic(auto, unfolding(crate::specs::Reading::reading, crate::specs::Reading::opaque_reading))]
    pub fn opaque_fixed(&mut self, n: usize) -> Result<&'a [u8], XdrError>
        ensures takes { TakesItem (opaque (fixed n)) (λ b. bytes b.now) self.old self.new result }
        ensures len { IfOk result (λ b. length b.now ≡ n) }
    {
        let at = self.at();
        let body = body_of(self.left(), at, at, n)?;
        self.skip(n + filling_of(n));
        Ok(body)
    }

    /// A length, that many bytes, and zeros up to a multiple of four (RFC 1014, sections 3.9 and 3.10): the length's `Short`,
    /// `TooLong` above `max`, the body's `Short`, then `Filling`.
    #[tactic(auto, unfolding(crate::specs::Reading::reading, crate::specs::Reading::opaque_reading))]
    pub fn opaque_var(&mut self, max: u32) -> Result<&'a [u8], XdrError>
        ensures takes { TakesItem (opaque (upto max)) (λ b. bytes b.now) self.old self.new result }
        ensures len { IfOk result (λ b. length b.now ≤ max) }
    {
        let at = self.at();
        let len = self.peek()?;
        if len > max {
            return Err(XdrError::TooLong { at, len });
        }
        let n = len as usize;
        let body = body_of(&self.left()[4..], at, at + 4, n)?;
        self.skip(4 + (n + filling_of(n)));
        Ok(body)
    }

    /// The body of an authentication (RFC 1057, section 7.2), as `opaque_var(400)` with `AuthLong` in place of `TooLong`.
    #[tactic(auto, unfolding(crate::specs::Reading::reading, crate::specs::Reading::opaque_reading))]
    pub fn auth_body(&mut self) -> Result<&'a [u8], MsgError>
        ensures takes { TakesOwn (opaque auth_body) (λ b. bytes b.now) self.old self.new result }
        ensures len { IfOk result (λ b. length b.now ≤ 400) }
    {
        let at = self.at();
        let len = self.peek()?;
        if len > 400 {
            return Err(MsgError::AuthLong { at, len });
        }
        let n = len as usize;
        let body = body_of(&self.left()[4..], at, at + 4, n)?;
        self.skip(4 + (n + filling_of(n)));
        Ok(body)
    }

    /// All the bytes that are left.
    #[tactic(auto, unfolding(crate::specs::Reading::rest_reading))]
    pub fn rest(&mut self) -> &'a [u8]
        ensures { rest_reading self.old ≡ Ok (bytes result.now, self.new) }
    {
        let left = self.left();
        self.skip(left.len());
        left
    }

    /// Refuses bytes that are left, with `Tail`.
    #[tactic(auto, using(crate::proofs::OneItem::ends, crate::proofs::OneItem::goes_on))]
    pub fn end(&self) -> Result<(), XdrError>
        ensures ends { Ends self.now result }
        ensures ok { OnOk result (self.now.rest ≡ []) }
        ensures tail { IfErr result (λ e. (0 < length self.now.rest) × (e ≡ XdrError.Tail self.now.at)) }
    {
        if self.left().is_empty() {
            return Ok(());
        }
        Err(XdrError::Tail { at: self.at() })
    }

    /// Refuses bytes that are left, with `Tail`.
    pub fn finish(self) -> Result<(), XdrError>
        ensures ok { OnOk result (self.entry.rest ≡ []) }
        ensures tail { IfErr result (λ e. (0 < length self.entry.rest) × (e ≡ XdrError.Tail self.entry.at)) }
    {
        self.end()
    }
}

/// How many zero bytes fill up to a multiple of four.
fn filling_of(n: usize) -> usize
    ensures { result ≡ filling n }
{
    (4 - n % 4) % 4
}

/// Refuses a byte that isn't zero.
fn all_zero(bytes: &[u8], place: usize) -> Result<(), XdrError>
    requires { place + length bytes.now < 2 ^ 64 }
    ensures ok { OnOk result (filling_refusal place bytes.now ≡ None) }
    ensures filling { IfErr result (λ e. filling_refusal place bytes.now ≡ Some (Xdr e)) }
{
    for (i, byte) in bytes.iter().enumerate() {
        if *byte != 0 {
            return Err(XdrError::Filling { at: place + i });
        }
    }
    Ok(())
}

/// So many bytes at the front, with what fills them up. They belong to the item at `at`, and stand from `place` on.
fn body_of(bytes: &[u8], at: usize, place: usize, n: usize) -> Result<&[u8], XdrError>
    requires { place + length bytes.now < 2 ^ 64 }
    ensures { ShowsBody at place n bytes.now result }
{
    let fill = filling_of(n);
    if bytes.len() < n || bytes.len() - n < fill {
        return Err(XdrError::Short { at });
    }
    all_zero(&bytes[n..n + fill], place + n)?;
    Ok(&bytes[..n])
}
