//! What holds of all transcripts and of what is made of them, each on a function that does nothing: the contract is the law.
ghost use Rattle.std.specs.Prelude.{◌≡◌, ◌⊎◌, ◌≤◌, Bool, List, ℕ, length};
ghost use Rattle.sd_view.specs.declared.journeys.Journey.{Journey};
ghost use Rattle.sd_view.specs.declared.lines.Line.{Line};
ghost use Rattle.sd_view.specs.declared.views.View.{View};
ghost use Rattle.sd_view.specs.Ladder.{line_row};
ghost use Rattle.sd_view.specs.Transcript.{IsTranscript, IsFirstOutside};
ghost use Rattle.sd_view.specs.Views.{IsDrawing};

/// A text is the transcript of one run, or has one first line outside the grammar, and never both or neither.
pub fn one_reading()
    ensures one { (text : List ℕ) (a b : List Line) → IsTranscript text a → IsTranscript text b → a ≡ b }
    ensures never_both { (text : List ℕ) (run : List Line) (n : ℕ) → IsTranscript text run → IsFirstOutside text n → ⊥ }
    ensures either { (text : List ℕ) → ((run : List Line) × IsTranscript text run) ⊎ ((n : ℕ) × IsFirstOutside text n) }
    ensures one_line { (text : List ℕ) (n m : ℕ) → IsFirstOutside text n → IsFirstOutside text m → n ≡ m }
{}

/// What a view makes of a run is one thing.
pub fn one_drawing()
    ensures { (view : View) (run : List Line) (a b : List ℕ) → IsDrawing view run a → IsDrawing view run b → a ≡ b }
{}

/// No row of a ladder is wider than 120 columns, without its line feed.
pub fn narrow_rows()
    ensures { (strangers : Bool) (journeys : List Journey) (line : Line) → length (line_row strangers journeys line) ≤ 121 }
{}
