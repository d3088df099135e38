//! Calls by number, some of which are to fail.

ghost use Rattle.std.specs.Prelude.{◌≡◌, ◌+◌, min, IsTrue, IfOk};
ghost use Rattle.call_files.specs.FaultCounts.{last_count};
ghost use Rattle.call_files.specs.CallNumbers.{is_listed, next_number};

use std::alloc::{AllocError, Global};

/// The number of the last call, and the numbers of the calls that fail.
#[derive(Drop)]
pub struct Calls {
    made: u64,
    failing: Vec<u64>,
}

impl Calls {
    /// No call yet.
    pub fn new(alloc: Global, failing: &[u64]) -> Result<Calls, AllocError>
        ensures made { IfOk result (λ calls. calls.made ≡ 0) }
        ensures failing { IfOk result (λ calls. calls.failing.items ≡ failing.now) }
    {
        Ok(Calls {
            made: 0,
            failing: Vec::from_slice(alloc, failing)?,
        })
    }

    /// Numbers one more call, and answers whether it is listed.
    pub fn next_fails(&mut self) -> bool
        ensures made { self.new.made ≡ next_number self.old.made }
        ensures failing { self.new.failing ≡ self.old.failing }
        ensures listed { result ≡ is_listed self.old.failing.items (next_number self.old.made) }
    {
        self.made = self.made.saturating_add(1);
        self.failing.contains(&self.made)
    }
}
