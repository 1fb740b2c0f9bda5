//! Reading from left to right.

ghost use Rattle.sd_bootparams.specs.Layout.{ip_value};
ghost use Rattle.std.specs.Prelude.{codes, not, ◌≡◌, ◌==◌, ◌<◌, ◌≤◌, IfOk, ◌^◌, [], length, true};
ghost use Rattle.sd_xdr.specs.Kind.{number, bytes};
ghost use Rattle.sd_text.specs.Kind.{digits, run, inner, quoted, octet, named, shown, all, word, mac, ip, addr, addr_value, said, has, is_digit, same, begins};
ghost use Rattle.sd_text.specs.Reading.{Takes, TakesSaid, TakesEnd, front, behind};

use crate::class::Class;
use crate::error::LineError;
use crate::quoting::inner_of;
use crate::values::same_text;
use crate::words::{front_len, mac_of, number_of, run_of};
use sd_outside::{Addr, ByteList, Mac};
use std::alloc::Global;
use std::marker::Model;

/// The text that is left.
#[derive(Debug, Drop)]
pub struct TextReader<'a> {
    left: &'a [u8],
}

impl<'a> Model for TextReader<'a> {
    ghost use Rattle.std.specs.Prelude.{List, ℕ};

    ghost Value = { List ℕ };

    ghost view = { λ a. a.left.now };
}

impl<'a> TextReader<'a> {
    /// A reader of this text from its front.
    pub fn new(text: &'a [u8]) -> TextReader<'a>
        ensures { result ≡ text.now }
    {
        TextReader { left: text }
    }

    fn left(&self) -> &'a [u8]
        ensures { result.now ≡ self.now }
    {
        self.left
    }

    fn set(&mut self, left: &'a [u8])
        ensures { self.new ≡ left.now }
    {
        self.left = left;
    }

    /// Takes the longest front of such bytes.
    pub fn front(&mut self, class: Class) -> &'a [u8]
        ensures front { result.now ≡ front (has class) self.old }
        ensures behind { self.new ≡ behind (has class) self.old }
    {
        let left = self.left();
        let len = front_len(left, class);
        self.set(&left[len..]);
        &left[..len]
    }

    /// A number in decimal.
    #[tactic(auto, unfolding(crate::specs::Reading::reading, crate::specs::Reading::word_reading))]
    pub fn number(&mut self, low: u64, high: u64) -> Result<u64, LineError>
        ensures takes { Takes (word (digits low high)) number self.old self.new result }
        ensures range { IfOk result (λ n. (low ≤ n) × (n ≤ high)) }
    {
        match number_of(self.front(Class::Digits), low, high) {
            Some(number) => Ok(number),
            None => Err(LineError::Outside),
        }
    }

    /// A hardware address.
    #[tactic(auto, unfolding(crate::specs::Reading::reading, crate::specs::Reading::word_reading))]
    pub fn mac(&mut self) -> Result<Mac, LineError>
        ensures { Takes mac (λ m. bytes m.0) self.old self.new result }
    {
        match mac_of(self.front(Class::LowHex)) {
            Some(mac) => Ok(mac),
            None => Err(LineError::Outside),
        }
    }

    /// A name.
    #[tactic(auto, unfolding(crate::specs::Reading::reading, crate::specs::Reading::word_reading))]
    pub fn named(&mut self, least: usize, most: usize) -> Result<&'a [u8], LineError>
        ensures { Takes (word (named least most)) (λ t. bytes t.now) self.old self.new result }
    {
        let text = self.front(Class::Name);
        if least <= text.len() && text.len() <= most {
            Ok(text)
        } else {
            Err(LineError::Outside)
        }
    }

    /// All that is left of the line.
    #[tactic(auto, unfolding(crate::specs::Reading::reading, crate::specs::Reading::word_reading))]
    pub fn line(&mut self) -> Result<&'a [u8], LineError>
        ensures { Takes (word all) (λ t. bytes t.now) self.old self.new result }
    {
        Ok(self.front(Class::Line))
    }

    /// The bytes of a byte run, at least and at most so many.
    #[tactic(auto, unfolding(crate::specs::Reading::reading, crate::specs::Reading::word_reading))]
    pub fn run(&mut self, alloc: Global, least: usize, most: usize) -> Result<ByteList, LineError>
        ensures takes { Takes (word (run least most)) bytes self.old self.new result }
        ensures range { IfOk result (λ b. (least ≤ length b) × (length b ≤ most)) }
    {
        run_of(alloc, self.front(Class::Run), least, most)
    }

    #[tactic(auto, unfolding(crate::specs::Reading::reading, crate::specs::Reading::word_reading))]
    fn inner(&mut self, alloc: Global, most: usize) -> Result<ByteList, LineError>
        ensures takes { Takes (word (inner most)) bytes self.old self.new result }
        ensures range { IfOk result (λ b. length b ≤ most) }
    {
        inner_of(alloc, self.front(Class::Inner), most)
    }

    /// A text of at most so many bytes between quotation marks.
    #[tactic(auto, unfolding(crate::specs::Reading::reading))]
    pub fn quoted(&mut self, alloc: Global, most: usize) -> Result<ByteList, LineError>
        ensures takes { Takes (quoted most) bytes self.old self.new result }
        ensures range { IfOk result (λ b. length b ≤ most) }
    {
        self.said(b"\"")?;
        let bytes = self.inner(alloc, most)?;
        self.said(b"\"")?;
        Ok(bytes)
    }

    #[tactic(auto, unfolding(crate::specs::Reading::reading))]
    fn octet(&mut self) -> Result<u8, LineError>
        ensures { Takes octet number self.old self.new result }
    {
        Ok(self.number(0, 255)? as u8)
    }

    #[tactic(auto, unfolding(crate::specs::Reading::reading))]
    fn dotted(&mut self) -> Result<u8, LineError>
        ensures { Takes (said (codes ".") octet) number self.old self.new result }
    {
        self.said(b".")?;
        self.octet()
    }

    /// An address: four numbers joined by dots.
    #[tactic(auto, unfolding(crate::specs::Reading::reading))]
    pub fn ip(&mut self) -> Result<u32, LineError>
        ensures { Takes ip ip_value self.old self.new result }
    {
        let a = self.octet()?;
        let b = self.dotted()?;
        let c = self.dotted()?;
        let d = self.dotted()?;
        Ok(u32::from_be_bytes([a, b, c, d]))
    }

    /// An address, a colon and a port.
    #[tactic(auto, unfolding(crate::specs::Reading::reading))]
    pub fn addr(&mut self) -> Result<Addr, LineError>
        ensures { Takes addr addr_value self.old self.new result }
    {
        let ip = self.ip()?;
        self.said(b":")?;
        let port = self.number(0, 65_535)? as u16;
        Ok(Addr { ip, port })
    }

    /// A fixed text.
    #[tactic(auto, using(crate::proofs::Meanings::strip_short, crate::proofs::Meanings::strip_same, crate::proofs::Meanings::strip_other))]
    pub fn said(&mut self, text: &[u8]) -> Result<(), LineError>
        ensures { TakesSaid text.now self.old self.new result }
    {
        let left = self.left();
        let len = text.len();
        if left.len() < len {
            return Err(LineError::Outside);
        }
        let (front, behind) = left.split_at(len);
        if is_word(front, text) {
            self.set(behind);
            Ok(())
        } else {
            Err(LineError::Outside)
        }
    }

    /// Nothing is left.
    pub fn end(&self) -> Result<(), LineError>
        ensures { TakesEnd self.now result }
    {
        if self.left().is_empty() {
            Ok(())
        } else {
            Err(LineError::Outside)
        }
    }

    /// Whether a digit is next.
    pub fn begins_digit(&self) -> bool
        ensures { result ≡ begins is_digit self.now }
    {
        match self.left().first() {
            Some(first) => Class::Digits.has(*first),
            None => false,
        }
    }

    /// Whether another byte than this is next.
    pub fn begins_other(&self, byte: u8) -> bool
        ensures { result ≡ begins (λ b. not (b == byte)) self.now }
    {
        match self.left().first() {
            Some(first) => *first != byte,
            None => false,
        }
    }

    /// Whether this byte is next.
    pub fn begins(&self, byte: u8) -> bool
        ensures { result ≡ begins (λ b. b == byte) self.now }
    {
        match self.left().first() {
            Some(first) => *first == byte,
            None => false,
        }
    }
}

/// Whether a word is this one.
#[tactic(auto)]
pub fn is_word(word: &[u8], name: &[u8]) -> bool
    ensures { result ≡ same name.now word.now }
{
    same_text(word, name)
}
