//! What can stand in a turnstile, and what is told of a turn.

/// An object whose changes are told as entries, each of one caller.
pub trait Held: Send {
    ghost use Rattle.std.specs.Prelude.{ℕ, List, [], ◌++◌};

    type Entry;

    /// The number of the caller that an entry is of.
    ghost caller: { Self.Entry → ℕ };

    /// The entries lead, in order, from one value of the object to another.
    ghost leads: { Self → List Self.Entry → Self → Type 0 };

    /// No entry leads from a value to itself.
    ghost stays: { (x : Self) → leads x [] x };

    /// Where one list leads on from where another ends, both together lead there.
    ghost joins: { (x y z : Self) (es fs : List Self.Entry) → leads x es y → leads y fs z → leads x (es ++ fs) z };
}

/// What is told of a turn.
pub trait Account<O: Held> {
    ghost use Rattle.std.specs.Prelude.{ℕ, Option};

    /// The entry of the turn, if it has one, by the number of the seat whose turn it is.
    ghost entry: { Self → ℕ → Option O.Entry };
}

/// A turn that has no entry.
pub struct Nothing;

impl<O: Held> Account<O> for Nothing {
    ghost use Rattle.std.specs.Prelude.{None};

    ghost entry = { λ _ _. None };
}
