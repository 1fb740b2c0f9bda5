//! The counter, and what is told of a count.
use sd_turnstile::{Account, Held};

/// It counts up.
#[derive(Drop)]
pub struct Counter {
    pub value: u64,
}

/// Who counted, and the number that was reached. No value of it is made.
pub struct Added {
    pub by: u64,
    pub reply: u64,
}

impl Held for Counter {
    ghost use Rattle.sd_turnstile_rows.specs.Counting.{leads, leads_nowhere, leads_on};

    type Entry = Added;

    ghost caller = { λ e. e.by };

    ghost leads = { leads };

    ghost stays = { leads_nowhere };

    ghost joins = { leads_on };
}

/// A count that reached this number.
#[derive(Drop)]
pub struct Counted {
    pub reply: u64,
}

impl Account<Counter> for Counted {
    ghost use Rattle.std.specs.Prelude.{Some};
    ghost use Rattle.sd_turnstile_rows.specs.Counting.{added};

    ghost entry = { λ a by. Some (added by a.reply) };
}
