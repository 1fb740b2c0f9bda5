//! Texts of a given width.
ghost use Rattle.std.specs.Prelude.{◌≡◌, ◌≤◌, ◌∷◌, ◌++◌, length, flat_map, IfOk, OnOk};
ghost use Rattle.sd_view.specs.Brief.{fit, cut_words, brief, spaces, at_left, at_right};

use sd_outside::{ByteList, NoMemory};
use sd_text::Parts;
use std::alloc::Global;

/// Adds a text of at most so many columns.
pub(crate) fn push_fit(out: &mut ByteList, most: usize, text: &[u8]) -> Result<(), NoMemory>
    requires { 2 ≤ most }
    ensures { OnOk result (out.new ≡ out.old ++ fit most text.now) }
{
    if text.len() <= most {
        out.push_slice(text)
    } else {
        out.push_slice(&text[..most - 2])?;
        out.push_slice(b"..")
    }
}

/// Adds further words of a text, each of at most 40 columns and behind a space.
fn push_words(out: &mut ByteList, words: &mut Parts<'_>) -> Result<(), NoMemory>
    ensures { OnOk result (out.new ≡ out.old ++ flat_map (λ word. 32 ∷ fit 40 word) words.old) }
{
    while let Some(word) = words.next() {
        out.push_slice(b" ")?;
        push_fit(out, 40, word)?;
    }
    Ok(())
}

/// The words of a text, each of at most 40 columns.
fn cut_words(alloc: Global, text: &[u8]) -> Result<ByteList, NoMemory>
    ensures { IfOk result (λ out. out ≡ cut_words text.now) }
{
    let mut out = ByteList::empty(alloc);
    let mut words = Parts::new(text, b' ');
    match words.next() {
        Some(word) => {
            push_fit(&mut out, 40, word)?;
            push_words(&mut out, &mut words)?;
            Ok(out)
        }
        None => Ok(out),
    }
}

/// A text of at most 120 columns, in which long words are cut.
pub(crate) fn brief(alloc: Global, text: &[u8]) -> Result<ByteList, NoMemory>
    ensures { IfOk result (λ out. out ≡ brief text.now) }
{
    let words = cut_words(alloc, text)?;
    let mut out = ByteList::empty(alloc);
    push_fit(&mut out, 120, words.as_slice())?;
    Ok(out)
}

/// So many spaces.
pub(crate) fn spaces(alloc: Global, n: usize) -> Result<ByteList, NoMemory>
    ensures { IfOk result (λ out. out ≡ spaces n) }
{
    Ok(ByteList::from_vec(vec![in alloc; b' '; n]?))
}

/// Adds a text at the left of at least so many columns.
pub(crate) fn push_left(
    alloc: Global,
    out: &mut ByteList,
    least: usize,
    text: &[u8],
) -> Result<(), NoMemory>
    ensures { OnOk result (out.new ≡ out.old ++ at_left least text.now) }
{
    out.push_slice(text)?;
    out.push_slice(spaces(alloc, least.saturating_sub(text.len()))?.as_slice())
}

/// Adds a text at the right of at least so many columns.
pub(crate) fn push_right(
    alloc: Global,
    out: &mut ByteList,
    least: usize,
    text: &[u8],
) -> Result<(), NoMemory>
    ensures { OnOk result (out.new ≡ out.old ++ at_right least text.now) }
{
    out.push_slice(spaces(alloc, least.saturating_sub(text.len()))?.as_slice())?;
    out.push_slice(text)
}
