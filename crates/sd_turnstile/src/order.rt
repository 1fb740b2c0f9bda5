//! The rule of the table.
use crate::held::Held;
use crate::view::View;
use atomic_table::TableRule;
use std::snapshot::Snapshot;

/// What the table is told when it is made: the object as it is then, and how many seats there may be.
pub struct Opening<O> {
    pub object: Snapshot<O>,
    pub seats: u32,
}

/// The rule: who waits is served in turn, and the object at home is where one history leaves it.
pub struct TakesTurns;

impl<O: Held> TableRule<Option<O>, View<O::Entry>, Opening<O>> for TakesTurns {
    ghost use Rattle.sd_turnstile.specs.Order.{first_view, InOrder};

    ghost holds = { λ key. InOrder O.caller O.leads key.object.value key.seats };

    ghost first = { λ key. first_view key.seats };
}

impl<O> Drop for Opening<O> {
    fn drop(self) {
        let Opening {
            object: _,
            seats: _,
        } = self;
    }
}
