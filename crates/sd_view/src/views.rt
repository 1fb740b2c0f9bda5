//! The views of a run, by their words.
ghost use Rattle.std.specs.Prelude.{◌≡◌, IsTrue, ◌↔◌, IfOk, MatchOption};
ghost use Rattle.std.specs.List.{All};
ghost use Rattle.sd_text.specs.Answers.{Finds};
ghost use Rattle.sd_view.specs.Capture.{HasShort};
ghost use Rattle.sd_view.specs.Views.{name, HasWords, IsDrawing};

use crate::capture::capture;
use crate::journeys::journeys;
use crate::ladder::ladder;
use crate::lines::Line;
use crate::picture::picture;
use sd_outside::{ByteList, NoMemory};
use std::alloc::Global;

/// What the program makes of a run.
#[derive(Clone, Copy, Debug, PartialEq, Eq)]
pub(crate) enum View {
    /// A text with lifelines.
    Ladder,
    /// A capture file.
    Pcap,
    /// A picture with lifelines, a document of SVG.
    Svg,
}

/// The view with this word, if there is one.
fn view_named(word: &[u8]) -> Option<View>
    ensures { Finds (λ view. word.now ≡ name view) result }
{
    match word {
        b"ladder" => Some(View::Ladder),
        b"pcap" => Some(View::Pcap),
        b"svg" => Some(View::Svg),
        _ => None,
    }
}

/// The view with these words, if there is one.
pub(crate) fn view_of(words: &[ByteList]) -> Option<View>
    ensures { Finds (λ view. HasWords view words.now) result }
{
    match words {
        [word] => view_named(word.as_slice()),
        _ => None,
    }
}

/// The ladder of a run.
fn draw_ladder(alloc: Global, run: &[Line]) -> Result<ByteList, NoMemory>
    ensures { IfOk result (IsDrawing View.Ladder run.now) }
{
    let journeys = journeys(alloc, run)?;
    ladder(alloc, journeys.as_slice(), run)
}

/// The picture of a run.
fn draw_picture(alloc: Global, run: &[Line]) -> Result<ByteList, NoMemory>
    ensures { IfOk result (IsDrawing View.Svg run.now) }
{
    let journeys = journeys(alloc, run)?;
    picture(alloc, journeys.as_slice(), run)
}

/// What a view makes of a run.
pub(crate) fn drawing(alloc: Global, view: View, run: &[Line]) -> Result<ByteList, NoMemory>
    requires { All HasShort run.now }
    ensures { IfOk result (IsDrawing view run.now) }
{
    match view {
        View::Ladder => draw_ladder(alloc, run),
        View::Pcap => capture(alloc, run),
        View::Svg => draw_picture(alloc, run),
    }
}
