//! What holds between any two steps, on a function that does nothing: the contract is the law.
ghost use Rattle.std.specs.Prelude.{ℕ};
ghost use Rattle.sd_turnstile.specs.Kinds.{EachStepKeeps};

use crate::held::Held;
use crate::seat::Turnstile;

impl<O: Held> Turnstile<O> {
    /// At any moment the object at home is where one history from the opening leaves it: the rule says so of the opening, and each kind of step keeps the rule.
    pub fn order_is_kept()
        ensures { (start : O) (seats : ℕ) → EachStepKeeps O.caller O.leads start seats }
    {}
}
