//! Elements of a document of SVG.
ghost use Rattle.std.specs.Prelude.{◌≡◌, ◌++◌, OnOk};
ghost use Rattle.std.specs.Fmt.{decimal};
ghost use Rattle.sd_view.specs.Picture.{escaped, escape, text_element, line_element, cross_element};

use sd_outside::{ByteList, NoMemory};
use sd_text::push_number;
use std::alloc::Global;

/// Adds a character of a text.
fn push_escaped(out: &mut ByteList, byte: u8) -> Result<(), NoMemory>
    ensures { OnOk result (out.new ≡ out.old ++ escaped byte) }
{
    match byte {
        b'&' => out.push_slice(b"&amp;"),
        b'<' => out.push_slice(b"&lt;"),
        b'>' => out.push_slice(b"&gt;"),
        _ => out.push_slice(&[byte]),
    }
}

/// Adds the characters of a text.
#[tactic(auto, unfolding(crate::specs::Picture::escape))]
fn push_text(out: &mut ByteList, text: &[u8]) -> Result<(), NoMemory>
    ensures { OnOk result (out.new ≡ out.old ++ escape text.now) }
{
    for byte in text {
        push_escaped(out, *byte)?;
    }
    Ok(())
}

/// Adds a text with the number behind it.
pub(crate) fn push_numbered(
    alloc: Global,
    out: &mut ByteList,
    text: &[u8],
    number: u64,
) -> Result<(), NoMemory>
    ensures { OnOk result (out.new ≡ out.old ++ text.now ++ decimal number) }
{
    out.push_slice(text)?;
    push_number(alloc, out, number)
}

/// Adds a text at a place.
#[tactic(auto, unfolding(crate::specs::Picture::text_element))]
pub(crate) fn push_text_element(
    alloc: Global,
    out: &mut ByteList,
    class: &[u8],
    x: u64,
    y: u64,
    text: &[u8],
) -> Result<(), NoMemory>
    ensures { OnOk result (out.new ≡ out.old ++ text_element class.now x y text.now) }
{
    out.push_slice(b"<text class='")?;
    out.push_slice(class)?;
    push_numbered(alloc, out, b"' x='", x)?;
    push_numbered(alloc, out, b"' y='", y)?;
    out.push_slice(b"'>")?;
    push_text(out, text)?;
    out.push_slice(b"</text>\n")
}

/// Adds a line from one place to another.
#[tactic(auto, unfolding(crate::specs::Picture::line_element))]
pub(crate) fn push_line_element(
    alloc: Global,
    out: &mut ByteList,
    class: &[u8],
    start: (u64, u64),
    end: (u64, u64),
) -> Result<(), NoMemory>
    ensures { OnOk result (out.new ≡ out.old ++ line_element class.now start.0 start.1 end.0 end.1) }
{
    out.push_slice(b"<line class='")?;
    out.push_slice(class)?;
    push_numbered(alloc, out, b"' x1='", start.0)?;
    push_numbered(alloc, out, b"' y1='", start.1)?;
    push_numbered(alloc, out, b"' x2='", end.0)?;
    push_numbered(alloc, out, b"' y2='", end.1)?;
    out.push_slice(b"'/>\n")
}

/// Adds a cross.
#[tactic(auto, unfolding(crate::specs::Picture::cross_element))]
pub(crate) fn push_cross_element(
    alloc: Global,
    out: &mut ByteList,
    class: &[u8],
    x: u64,
    y: u64,
) -> Result<(), NoMemory>
    ensures { OnOk result (out.new ≡ out.old ++ cross_element class.now x y) }
{
    out.push_slice(b"<path class='")?;
    out.push_slice(class)?;
    push_numbered(alloc, out, b"' d='M", x)?;
    push_numbered(alloc, out, b" ", y)?;
    out.push_slice(b" m-5 -5 l10 10 m0 -10 l-10 10'/>\n")
}
