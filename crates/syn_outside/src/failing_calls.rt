//! Which calls of a device in memory fail.
ghost use Rattle.std.specs.Prelude.{◌≡◌, ◌+◌, ◌-◌, ◌^◌, ◌<◌, ◌≤◌, true, IfOk};
ghost use Rattle.std.specs.List.{All};
ghost use Rattle.syn_outside.specs.Calls.{Calls, fails, next, failed};

use std::alloc::Global;
use std::marker::Model;
use syn_words::Memory;

/// The numbers, from 0, of the calls that fail, and how many calls were made.
#[derive(Drop)]
pub struct FailingCalls {
    failing: Vec<u64>,
    made: u64,
}

impl Model for FailingCalls {
    ghost use Rattle.std.specs.Prelude.{◌-◌, ◌^◌, ◌<◌};
    ghost use Rattle.std.specs.List.{All};
    ghost use Rattle.syn_outside.specs.Calls.{Calls};

    ghost Value = { Calls };

    ghost view = { λ c. record { failing = c.failing.items; made = c.made } };

    ghost invariant = { λ c. All (λ n. n < 2 ^ 64 - 1) c.failing.items };
}

impl FailingCalls {
    /// No call was made yet.
    pub fn new(alloc: Global, failing: &[u64]) -> Result<FailingCalls, Memory>
        requires { All (λ n. n < 2 ^ 64 - 1) failing.now }
        ensures made { IfOk result (λ calls. calls ≡ record { failing = failing.now; made = 0 }) }
        ensures count { IfOk result (λ calls. failed calls ≡ 0) }
    {
        let failing = Vec::from_slice(alloc, failing)?;
        Ok(FailingCalls { failing, made: 0 })
    }

    /// Makes a call, and says whether it fails.
    pub fn call_fails(&mut self) -> bool
        ensures answer { result ≡ fails self.old }
        ensures after { self.new ≡ next self.old }
        ensures count { failed self.old ≤ failed self.new }
        ensures more { result ≡ true → failed self.old + 1 ≤ failed self.new }
    {
        let number = self.made;
        self.made = number.saturating_add(1);
        self.failing.contains(&number)
    }
}
