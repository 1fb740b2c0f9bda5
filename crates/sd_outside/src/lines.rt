//! The lines of a text.
ghost use Rattle.std.specs.Prelude.{◌≡◌, ◌<◌, ◌++◌, ◌∷◌, length, ◌==◌, position};
ghost use Rattle.sd_outside.specs.Lines.{lines, without_feed};

use memchr::memchr;

/// Where a byte stands first in a text.
pub fn place_of(text: &[u8], byte: u8) -> Option<usize>
    ensures { result ≡ position (λ b. b == byte) text.now }
{
    memchr(byte, text)
}

/// The first line, with its line feed where it has one, and what follows it.
pub fn split_line(text: &[u8]) -> (&[u8], &[u8])
    requires { 0 < length text.now }
    ensures lines { lines text.now ≡ result.0.now ∷ lines result.1.now }
    ensures whole { text.now ≡ result.0.now ++ result.1.now }
    ensures some { 0 < length result.0.now }
{
    match place_of(text, b'\n') {
        Some(at) => text.split_at(at + 1),
        None => text.split_at(text.len()),
    }
}

/// A line without its line feed.
pub fn without_feed(line: &[u8]) -> &[u8]
    ensures { result.now ≡ without_feed line.now }
{
    match place_of(line, b'\n') {
        Some(at) => &line[..at],
        None => line,
    }
}
