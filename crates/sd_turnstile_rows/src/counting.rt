//! Counting in turns.
ghost use Rattle.std.specs.Prelude.{◌≡◌, ℕ, ◌+◌, List, [], ◌∷◌, ◌++◌, IfSome, IfNone};
ghost use Rattle.sd_turnstile.specs.History.{StartsWith, calls_by};
ghost use Rattle.sd_turnstile.specs.Seats.{opening_of, number_of, parts_of, seen_by, own_of, IsSeatOf, IsIdle, IsSameSeat};
ghost use Rattle.sd_turnstile_rows.specs.Counting.{leads, added, counter};
ghost use Rattle.sd_turnstile_rows.specs.declared.counter.Added.{Added};
ghost use Rattle.sd_turnstile_rows.specs.declared.counter.Counter.{Counter};

use crate::counter::{Counted, Counter};
use sd_turnstile::{Nothing, Seat, Turnstile};
use std::alloc::Global;
use std::sync::Wait;
use std::thread::{Threads, join};

/// Counts once, and answers the number reached. `None` where the counter is full: nothing was added.
pub fn count<R: Wait>(
    rt: &R,
    turnstile: &Turnstile<Counter>,
    seat: &mut Seat<Counter>,
) -> Option<u64>
    requires seat { IsSeatOf turnstile.now seat.old × IsIdle seat.old }
    ensures same { IsSameSeat seat.old seat.new × IsIdle seat.new × (parts_of seat.new ≡ parts_of seat.old) }
    ensures counted { IfSome result (λ r. (before : List Added) × StartsWith before (seen_by seat.old) × (seen_by seat.new ≡ before ++ added (number_of seat.old) r ∷ []) × (own_of seat.new ≡ own_of seat.old ++ added (number_of seat.old) r ∷ [])) }
    ensures full { IfNone result (StartsWith (seen_by seat.new) (seen_by seat.old) × (own_of seat.new ≡ own_of seat.old)) }
    ensures legal { (x : Counter) × leads (opening_of turnstile.now) (seen_by seat.new) x }
    ensures mine { calls_by (λ e. e.by) (number_of seat.new) (seen_by seat.new) ≡ own_of seat.new }
{
    let mut counter = turnstile.enter(rt, seat);
    if counter.value == u64::MAX {
        turnstile.leave(seat, counter, &Nothing);
        return None;
    }
    counter.value += 1;
    let reply = counter.value;
    turnstile.leave(seat, counter, &Counted { reply });
    Some(reply)
}

/// Counts so many times.
fn count_all<R: Wait>(
    rt: &R,
    turnstile: &Turnstile<Counter>,
    mut seat: Seat<Counter>,
    times: u64,
) -> Seat<Counter>
    requires { IsSeatOf turnstile.now seat × IsIdle seat }
    ensures seat { IsSeatOf turnstile.now result × IsIdle result × (number_of result ≡ number_of seat) × (parts_of result ≡ parts_of seat) }
    ensures seen { StartsWith (seen_by result) (seen_by seat) × StartsWith (own_of result) (own_of seat) }
{
    for _ in 0..times {
        count(rt, turnstile, &mut seat);
    }
    seat
}

/// Two threads count so many times each, from a number. The number that was reached, where there was memory.
pub fn count_both<R: Threads + Wait + Sync>(
    rt: &R,
    alloc: Global,
    from: u64,
    times: u64,
) -> Option<u64>
    ensures { IfSome result (λ n. (history : List Added) × leads (counter from) history (counter n)) }
{
    let Ok((turnstile, mut first)) = Turnstile::new(alloc, 2, Counter { value: from }) else {
        return None;
    };
    let second = turnstile.split(&mut first)?;
    let (mut first, second) = join(
        rt,
        || -> Seat<Counter>
            requires { IsSeatOf turnstile first × IsIdle first }
            ensures { IsSeatOf turnstile result × IsIdle result }
        { count_all(rt, &turnstile, first, times) },
        || -> Seat<Counter>
            requires { IsSeatOf turnstile second × IsIdle second }
            ensures { IsSeatOf turnstile result × IsIdle result }
        { count_all(rt, &turnstile, second, times) },
    );
    turnstile.join(&mut first, second);
    match turnstile.close(first) {
        Ok(counter) => Some(counter.value),
        Err(_) => None,
    }
}
