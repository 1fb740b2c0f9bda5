//! Writing from left to right. A call that finds no memory leaves the writer as it was.

ghost use Rattle.std.specs.Prelude.{◌≡◌, ℕ, ◌^◌, ◌≤◌, ◌<◌, List, [], ◌++◌, length, take, OnOk, OnErr};
ghost use Rattle.sd_xdr.specs.Kind.{any, flag, char, filling, fixed, upto, word, opaque, rest, number, bytes, truth, signed};
ghost use Rattle.sd_xdr.specs.Grammar.{writes, word_bytes, joined, filled, counted};

use sd_outside::{ByteList, NoMemory};
use std::alloc::Global;
use std::marker::Model;

/// The bytes that were written so far.
#[derive(Debug, Drop)]
pub struct XdrWriter {
    bytes: ByteList,
}

impl Model for XdrWriter {
    ghost use Rattle.std.specs.Prelude.{ℕ, List};

    ghost Value = { List ℕ };

    ghost view = { λ a. a.bytes };
}

impl XdrWriter {
    /// A writer of no bytes yet.
    pub fn new(alloc: Global) -> XdrWriter
        ensures { result ≡ [] }
    {
        XdrWriter {
            bytes: ByteList::empty(alloc),
        }
    }

    /// An unsigned integer, an enumeration, a discriminant or a count (RFC 1014, sections 3.2 and 3.3).
    #[tactic(auto, unfolding(crate::specs::Grammar::word_bytes))]
    pub fn u32(&mut self, v: u32) -> Result<(), NoMemory>
        ensures ok { OnOk result (self.new ≡ self.old ++ word_bytes v) }
        ensures err { OnErr result (self.new ≡ self.old) }
    {
        self.bytes.push_slice(&v.to_be_bytes())
    }

    /// Words in a row.
    pub fn words(&mut self, words: &[u32]) -> Result<(), NoMemory>
        ensures ok { OnOk result (self.new ≡ self.old ++ joined words.now) }
        ensures err { OnErr result (self.new ≡ self.old) }
    {
        let before = self.bytes.as_slice().len();
        match self.push_words(words) {
            Ok(()) => Ok(()),
            Err(e) => {
                self.bytes.shorten(before);
                Err(e)
            }
        }
    }

    /// A signed integer (RFC 1014, section 3.1).
    pub fn i32(&mut self, v: i32) -> Result<(), NoMemory>
        ensures ok { OnOk result (self.new ≡ self.old ++ writes (word any) (signed v)) }
        ensures err { OnErr result (self.new ≡ self.old) }
    {
        self.u32(v.cast_unsigned())
    }

    /// A bool (RFC 1014, section 3.4).
    pub fn bool(&mut self, v: bool) -> Result<(), NoMemory>
        ensures ok { OnOk result (self.new ≡ self.old ++ writes (word flag) (truth v)) }
        ensures err { OnErr result (self.new ≡ self.old) }
    {
        self.u32(if v { 1 } else { 0 })
    }

    /// A char of C with its sign, from its lowest eight bits.
    pub fn char(&mut self, v: u8) -> Result<(), NoMemory>
        ensures ok { OnOk result (self.new ≡ self.old ++ writes (word char) (number v)) }
        ensures err { OnErr result (self.new ≡ self.old) }
    {
        if v < 128 {
            return self.u32(u32::from(v));
        }
        self.u32(u32::from(v) + 0xffff_ff00)
    }

    /// Bytes, and zeros up to a multiple of four (RFC 1014, section 3.8).
    pub fn opaque_fixed(&mut self, bytes: &[u8]) -> Result<(), NoMemory>
        ensures ok { OnOk result (self.new ≡ self.old ++ filled bytes.now) }
        ensures err { OnErr result (self.new ≡ self.old) }
    {
        let before = self.bytes.as_slice().len();
        match self.push_filled(bytes) {
            Ok(()) => Ok(()),
            Err(e) => {
                self.bytes.shorten(before);
                Err(e)
            }
        }
    }

    /// The length, the bytes, and zeros up to a multiple of four (RFC 1014, sections 3.9 and 3.10).
    pub fn opaque_var(&mut self, bytes: &[u8]) -> Result<(), NoMemory>
        requires { length bytes.now < 2 ^ 32 }
        ensures ok { OnOk result (self.new ≡ self.old ++ counted bytes.now) }
        ensures err { OnErr result (self.new ≡ self.old) }
    {
        let before = self.bytes.as_slice().len();
        match self.push_counted(bytes) {
            Ok(()) => Ok(()),
            Err(e) => {
                self.bytes.shorten(before);
                Err(e)
            }
        }
    }

    /// Bytes that nothing follows.
    pub fn rest(&mut self, bytes: &[u8]) -> Result<(), NoMemory>
        ensures ok { OnOk result (self.new ≡ self.old ++ bytes.now) }
        ensures err { OnErr result (self.new ≡ self.old) }
    {
        self.bytes.push_slice(bytes)
    }

    /// All that was written.
    pub fn finish(self) -> ByteList
        ensures { result ≡ self }
    {
        self.bytes
    }

    #[tactic(auto, using(crate::proofs::Words::written, crate::proofs::Words::kept))]
    fn push_words(&mut self, words: &[u32]) -> Result<(), NoMemory>
        ensures ok { OnOk result (self.new ≡ self.old ++ joined words.now) }
        ensures kept { take (length self.old) self.new ≡ self.old }
    {
        for word in words {
            self.u32(*word)?;
        }
        Ok(())
    }

    #[tactic(auto, unfolding(crate::specs::Grammar::filled))]
    fn push_filled(&mut self, bytes: &[u8]) -> Result<(), NoMemory>
        ensures ok { OnOk result (self.new ≡ self.old ++ filled bytes.now) }
        ensures kept { take (length self.old) self.new ≡ self.old }
    {
        self.bytes.push_slice(bytes)?;
        let fill = (4 - bytes.len() % 4) % 4;
        self.bytes.push_slice(&[0u8; 3][..fill])
    }

    #[tactic(auto, unfolding(crate::specs::Grammar::counted))]
    fn push_counted(&mut self, bytes: &[u8]) -> Result<(), NoMemory>
        requires { length bytes.now < 2 ^ 32 }
        ensures ok { OnOk result (self.new ≡ self.old ++ counted bytes.now) }
        ensures kept { take (length self.old) self.new ≡ self.old }
    {
        self.u32(bytes.len() as u32)?;
        self.push_filled(bytes)
    }
}
