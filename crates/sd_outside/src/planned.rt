//! Faults that are planned.
ghost use Rattle.std.specs.Prelude.{◌≡◌, ◌^◌, ◌<◌, ◌↔◌, ℕ, length, IfOk, IsTrue, nat_eq, slice_index};
ghost use Rattle.std.specs.List.{list_any};
ghost use Rattle.sd_outside.specs.Plan.{FailsNext, later};

use crate::NoMemory;
use std::alloc::Global;
use std::marker::Model;

/// The numbers of the calls that are to fail, seen as counted from the next call.
#[derive(Drop)]
pub(crate) struct Planned {
    numbers: Vec<u64>,
    made: u64,
}

impl Model for Planned {
    ghost use Rattle.std.specs.Prelude.{List, ℕ};
    ghost use Rattle.sd_outside.specs.Plan.{later};

    ghost Value = { List ℕ };

    ghost view = { λ planned. later planned.made planned.numbers.items };
}

impl Planned {
    /// The calls with these numbers are to fail, the next being number 0.
    pub(crate) fn new(alloc: Global, numbers: &[u64]) -> Result<Planned, NoMemory>
        ensures { IfOk result (λ planned. planned ≡ numbers.now) }
    {
        Ok(Planned {
            numbers: Vec::from_slice(alloc, numbers)?,
            made: 0,
        })
    }

    /// A call is made: whether it is to fail.
    pub(crate) fn next(&mut self) -> bool
        ensures fails { IsTrue result ↔ FailsNext self.old }
        ensures left { self.new ≡ later 1 self.old }
        ensures taken { IsTrue result ↔ (length self.new < length self.old) }
    {
        let fails = is_among(&self.numbers, self.made);
        if self.made == u64::MAX {
            self.numbers.clear();
        } else {
            self.made += 1;
        }
        fails
    }
}

fn is_among(numbers: &[u64], number: u64) -> bool
    ensures value { result ≡ list_any (λ other. nat_eq other number) numbers.now }
    ensures small { (k : ℕ) → slice_index numbers.now k < 2 ^ 64 }
{
    numbers.contains(&number)
}
