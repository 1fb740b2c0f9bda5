//! The parts of a text, one after another.

ghost use Rattle.std.specs.Prelude.{◌≡◌, ◌∷◌, [], MatchOption};
ghost use Rattle.sd_text.specs.Texts.{cut};

use sd_outside::place_of;
use std::marker::Model;

/// The parts that are left of a text that a byte separates.
#[derive(Drop)]
pub struct Parts<'a> {
    rest: &'a [u8],
    separator: u8,
    more: bool,
}

impl<'a> Model for Parts<'a> {
    ghost use Rattle.std.specs.Prelude.{List, ℕ, [], if◌then◌else◌};
    ghost use Rattle.sd_text.specs.Texts.{cut};

    ghost Value = { List (List ℕ) };

    ghost view = { λ p. if p.more then cut p.separator p.rest.now else [] };
}

impl<'a> Parts<'a> {
    pub fn new(text: &'a [u8], separator: u8) -> Parts<'a>
        ensures { result ≡ cut separator text.now }
    {
        Parts {
            rest: text,
            separator,
            more: true,
        }
    }

    /// The next part, where one is left.
    pub fn next(&mut self) -> Option<&'a [u8]>
        ensures { MatchOption result ((self.old ≡ []) × (self.new ≡ [])) (λ part. self.old ≡ part.now ∷ self.new) }
    {
        if !self.more {
            return None;
        }
        let rest = self.rest;
        let separator = self.separator;
        match place_of(rest, separator) {
            Some(at) => {
                self.rest = &rest[at + 1..];
                Some(&rest[..at])
            }
            None => {
                self.more = false;
                Some(rest)
            }
        }
    }
}
