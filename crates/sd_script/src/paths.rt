//! Paths.

ghost use Rattle.std.specs.Prelude.{◌≡◌, ℕ, List, ◌∷◌, IsTrue, ◌↔◌, MatchOption};
ghost use Rattle.std.specs.List.{All, AllPass};
ghost use Rattle.sd_config.specs.Config.{IsPath, IsTarget, IsComponent, IsDirectoryOf, AreApart, is_visible};

use sd_text::{Parts, same_text};

/// Whether a text may stand between two slashes.
fn is_component(text: &[u8]) -> bool
    ensures { IsTrue result ↔ IsComponent text.now }
{
    1 <= text.len() && text.len() <= 255 && !same_text(text, b".") && !same_text(text, b"..")
}

/// Whether each part may stand between two slashes.
fn are_components(mut parts: Parts<'_>) -> bool
    ensures { IsTrue result ↔ All IsComponent parts.entry }
{
    while let Some(part) = parts.next() {
        if !is_component(part) {
            return false;
        }
    }
    true
}

/// Whether each byte is visible.
fn is_visible_text(text: &[u8]) -> bool
    ensures { IsTrue result ↔ AllPass is_visible text.now }
{
    text.iter().all(|b| 33 <= *b && *b <= 126)
}

/// Whether a text may be what a link names: 1 to 1,024 visible bytes.
pub fn is_target(text: &[u8]) -> bool
    ensures { IsTrue result ↔ IsTarget text.now }
{
    1 <= text.len() && text.len() <= 1024 && is_visible_text(text)
}

/// What follows the slash with which a text begins.
fn after_slash(text: &[u8]) -> Option<&[u8]>
    ensures { MatchOption result ((rest : List ℕ) → text.now ≡ 47 ∷ rest → ⊥) (λ rest. text.now ≡ 47 ∷ rest.now) }
{
    let (first, rest) = text.split_first()?;
    if *first == b'/' { Some(rest) } else { None }
}

/// Whether a text is a path. A path has the bytes of a link's text.
pub fn is_path(text: &[u8]) -> bool
    ensures { IsTrue result ↔ IsPath text.now }
{
    match after_slash(text) {
        Some(rest) => is_target(text) && are_components(Parts::new(rest, b'/')),
        None => false,
    }
}

/// Whether the first path names a directory on the way to the second.
fn is_directory_of(path: &[u8], other: &[u8]) -> bool
    ensures { IsTrue result ↔ IsDirectoryOf path.now other.now }
{
    if other.len() <= path.len() || !same_text(&other[..path.len()], path) {
        return false;
    }
    other[path.len()] == b'/'
}

/// Whether two paths differ, and neither names a directory on the way to the other.
pub fn are_apart(path: &[u8], other: &[u8]) -> bool
    ensures { IsTrue result ↔ AreApart path.now other.now }
{
    !same_text(path, other) && !is_directory_of(path, other) && !is_directory_of(other, path)
}
