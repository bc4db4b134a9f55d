//! The numbered calls of a device in memory.

ghost use Rattle.std.specs.Prelude.{◌≡◌, ◌↔◌, ◌+◌, min, IsTrue, Contains};
ghost use Rattle.outside_io.specs.Faults.{last_count};
ghost use Rattle.outside_io.specs.Code.Calls.{CallsData};

use std::marker::Model;

/// The calls made so far, numbered from 0, and the numbers of those that are to fail. At `u64::MAX` the
/// number stays.
#[derive(Drop)]
pub(crate) struct Calls {
    failing: Vec<u32>,
    next: u64,
}

impl Model for Calls {
    ghost Value = { CallsData };

    ghost view = { λ c. record { failing = c.failing.items; next = c.next } };
}

impl Calls {
    pub(crate) fn new(failing: Vec<u32>) -> Calls
        ensures { result ≡ record { failing = failing.items; next = 0 } }
    {
        Calls { failing, next: 0 }
    }

    /// Counts a call, and tells whether it is to fail.
    pub(crate) fn next_fails(&mut self) -> bool
        ensures fails { IsTrue result ↔ Contains self.old.failing self.old.next }
        ensures counted { self.new ≡ record self.old { next = min (self.old.next + 1) last_count } }
    {
        let fails = is_listed(&self.failing, self.next);
        self.next = self.next.saturating_add(1);
        fails
    }
}

fn is_listed(numbers: &[u32], number: u64) -> bool
    ensures { IsTrue result ↔ Contains numbers.now number }
{
    numbers.iter().any(|listed| u64::from(*listed) == number)
}
