//! Ranges of a list: written over, copied, marked.
ghost use Rattle.std.specs.Prelude.{◌≡◌, ◌+◌, ◌-◌, ◌≤◌, length, replicate, true, false, IsTrue};
ghost use Rattle.sd_outside.specs.Ranges.{part, put};
ghost use Rattle.sd_outside.specs.Kept.{Outside, Refreshed};

/// The places from `start` on and before `end`.
#[derive(Clone, Copy)]
pub(crate) struct Span {
    pub start: usize,
    pub end: usize,
}

/// No places.
pub(crate) const NOWHERE: Span = Span { start: 0, end: 0 };

impl Span {
    /// The smallest span with the places of both.
    pub(crate) fn joined(self, other: Span) -> Span
        requires one { self.start ≤ self.end }
        requires other { other.start ≤ other.end }
        ensures covers { (place : _) → Outside result place → Outside self place × Outside other place }
        ensures ordered { result.start ≤ result.end }
        ensures inside { (size : _) → self.end ≤ size → other.end ≤ size → result.end ≤ size }
    {
        if self.start == self.end {
            return other;
        }
        Span {
            start: self.start.min(other.start),
            end: self.end.max(other.end),
        }
    }
}

/// Writes over the bytes from `at`.
pub(crate) fn overwrite(bytes: &mut Vec<u8>, at: usize, with: &[u8])
    requires { at + length with.now ≤ length bytes.old.items }
    ensures { bytes.new.items ≡ put at with.now bytes.old.items }
{
    bytes[at..at + with.len()].copy_from_slice(with);
}

/// Copies the bytes from `at`.
pub(crate) fn copy_out(bytes: &[u8], at: usize, into: &mut [u8])
    requires { at + length into.old ≤ length bytes.now }
    ensures { into.new ≡ part at (length into.old) bytes.now }
{
    into.copy_from_slice(&bytes[at..at + into.len()]);
}

/// Marks so many places from `at` on.
pub(crate) fn mark(marks: &mut Vec<bool>, at: usize, count: usize)
    requires { at + count ≤ length marks.old.items }
    ensures { marks.new.items ≡ put at (replicate count true) marks.old.items }
{
    marks[at..at + count].fill(true);
}

/// Takes the marks of these places away.
pub(crate) fn unmark(marks: &mut Vec<bool>, span: Span)
    requires ordered { span.start ≤ span.end }
    requires inside { span.end ≤ length marks.old.items }
    ensures { marks.new.items ≡ put span.start (replicate (span.end - span.start) false) marks.old.items }
{
    marks[span.start..span.end].fill(false);
}

/// Makes these places equal to those of the other list.
pub(crate) fn refresh<T: Copy + Drop>(items: &mut Vec<T>, from: &[T], span: Span)
    requires ordered { span.start ≤ span.end }
    requires inside { span.end ≤ length items.old.items }
    requires size { length items.old.items ≡ length from.now }
    ensures { Refreshed (Outside span) from.now items.old.items items.new.items }
{
    items[span.start..span.end].copy_from_slice(&from[span.start..span.end]);
}
