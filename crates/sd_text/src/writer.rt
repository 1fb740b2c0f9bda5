//! Writing from left to right.

ghost use Rattle.std.specs.Prelude.{◌≡◌, ◌++◌, ◌∷◌, [], map, OnOk};
ghost use Rattle.std.specs.List.{concat};
ghost use Rattle.std.specs.Fmt.{decimal};
ghost use Rattle.hex.specs.Hex.{encode_lower};
ghost use Rattle.sd_text.specs.Runs.{runs_text};
ghost use Rattle.sd_xdr.specs.Kind.{number, bytes};
ghost use Rattle.sd_bootparams.specs.Layout.{ip_value};
ghost use Rattle.sd_text.specs.Kind as kinds;
ghost use Rattle.sd_text.specs.Kind.{ip, addr_value};
ghost use Rattle.sd_text.specs.Grammar.{writes, escaped};

use crate::quoting::is_plain;
use crate::runs::write_runs;
use crate::writing::push_number;
use sd_outside::{Addr, ByteList, Mac, NoMemory};
use std::alloc::Global;
use std::marker::Model;

/// The text that was written so far.
#[derive(Debug, Drop)]
pub struct TextWriter {
    text: ByteList,
    alloc: Global,
}

impl Model for TextWriter {
    ghost use Rattle.std.specs.Prelude.{ℕ, List};

    ghost Value = { List ℕ };

    ghost view = { λ a. a.text };
}

impl TextWriter {
    /// A writer of no text yet.
    pub fn new(alloc: Global) -> TextWriter
        ensures { result ≡ [] }
    {
        TextWriter {
            text: ByteList::empty(alloc),
            alloc,
        }
    }

    /// A fixed text.
    pub fn said(&mut self, text: &[u8]) -> Result<(), NoMemory>
        ensures { OnOk result (self.new ≡ self.old ++ text.now) }
    {
        self.text.push_slice(text)
    }

    /// A number in decimal.
    pub fn number(&mut self, n: u64) -> Result<(), NoMemory>
        ensures { OnOk result (self.new ≡ self.old ++ decimal n) }
    {
        push_number(self.alloc, &mut self.text, n)
    }

    /// A hardware address.
    pub fn mac(&mut self, mac: &Mac) -> Result<(), NoMemory>
        ensures { OnOk result (self.new ≡ self.old ++ encode_lower mac.now.0) }
    {
        self.text
            .push_slice(hex::encode(self.alloc, mac.0)?.as_bytes())
    }

    /// A byte run.
    pub fn run(&mut self, bytes: &[u8]) -> Result<(), NoMemory>
        ensures { OnOk result (self.new ≡ self.old ++ runs_text bytes.now) }
    {
        write_runs(self.alloc, bytes, &mut self.text)
    }

    fn octet(&mut self, n: u8) -> Result<(), NoMemory>
        ensures { OnOk result (self.new ≡ self.old ++ decimal n) }
    {
        self.number(u64::from(n))
    }

    fn dotted(&mut self, n: u8) -> Result<(), NoMemory>
        ensures { OnOk result (self.new ≡ self.old ++ 46 ∷ decimal n) }
    {
        self.said(b".")?;
        self.octet(n)?;
        Ok(())
    }

    /// An address.
    #[tactic(auto, unfolding(crate::specs::Grammar::writes))]
    pub fn ip(&mut self, address: u32) -> Result<(), NoMemory>
        ensures { OnOk result (self.new ≡ self.old ++ writes ip (ip_value address)) }
    {
        let [a, b, c, d] = address.to_be_bytes();
        self.octet(a)?;
        self.dotted(b)?;
        self.dotted(c)?;
        self.dotted(d)?;
        Ok(())
    }

    /// A byte between quotation marks: itself, or a backslash and its two digits.
    fn escaped(&mut self, byte: u8) -> Result<(), NoMemory>
        ensures { OnOk result (self.new ≡ self.old ++ escaped byte) }
    {
        if is_plain(byte) {
            return self.said(&[byte]);
        }
        self.said(b"\\")?;
        self.text
            .push_slice(hex::encode(self.alloc, [byte])?.as_bytes())
    }

    /// A text between quotation marks.
    pub fn quoted(&mut self, bytes: &[u8]) -> Result<(), NoMemory>
        ensures { OnOk result (self.new ≡ self.old ++ 34 ∷ (concat (map escaped bytes.now) ++ 34 ∷ [])) }
    {
        self.said(b"\"")?;
        for byte in bytes {
            self.escaped(*byte)?;
        }
        self.said(b"\"")
    }

    /// An address, a colon and a port.
    #[tactic(auto, unfolding(crate::specs::Grammar::writes))]
    pub fn addr(&mut self, addr: Addr) -> Result<(), NoMemory>
        ensures { OnOk result (self.new ≡ self.old ++ writes kinds.addr (addr_value addr)) }
    {
        self.ip(addr.ip)?;
        self.said(b":")?;
        self.number(u64::from(addr.port))
    }

    /// All that was written.
    pub fn finish(self) -> ByteList
        ensures { result ≡ self }
    {
        self.text
    }
}
