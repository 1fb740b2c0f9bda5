//! Where a program's input comes from, and where its output goes.
//!
//! An object that can't tell its bytes, as one over a real file, tells none, and the clauses on bytes then say nothing.
ghost use Rattle.std.specs.Prelude.{ℕ, ◌<◌, ◌≤◌, List, length, Option, IfOk};
ghost use Rattle.sd_outside.specs.Causes.{HasCause};
ghost use Rattle.sd_outside.specs.Streams.{Takes, Adds};

use crate::Failed;

/// Bytes, taken from the front.
pub trait Source {
    /// The bytes that are left, where they are told.
    ghost left: { Self → Option (List ℕ) };

    /// How often a call failed. It never falls.
    ghost faults: { Self → ℕ };

    /// Takes the next bytes that are left, as many as the answer says, into the front of `into`. `Ok(0)` is the end.
    /// `Failed` leaves the source as it was, and comes only where the count of faults rose.
    fn read(&mut self, into: &mut [u8]) -> Result<usize, Failed>
        requires { 0 < length into.old }
        ensures bound { IfOk result (λ n. n ≤ length into.old) }
        ensures bytes { Takes (left self.old) (left self.new) result into.new }
        ensures cause { HasCause (faults self.old) (faults self.new) result };
}

/// Takes bytes, and adds them at the end.
pub trait Sink {
    /// The bytes that were written, where they are told.
    ghost written: { Self → Option (List ℕ) };

    /// How often a call failed. It never falls.
    ghost faults: { Self → ℕ };

    /// Adds the first of these bytes, as many as the answer says, at least one where there is one.
    /// `Failed` leaves the bytes written as they were, and comes only where the count of faults rose.
    fn write(&mut self, bytes: &[u8]) -> Result<usize, Failed>
        ensures bound { IfOk result (λ n. n ≤ length bytes.now) }
        ensures bytes { Adds (written self.old) (written self.new) result bytes.now }
        ensures cause { HasCause (faults self.old) (faults self.new) result };
}
