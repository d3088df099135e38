//! Counts of faults.

ghost use Rattle.std.specs.Prelude.{◌≡◌, ◌≤◌};
ghost use Rattle.call_files.specs.FaultCounts.{last_count, Rose, GoesOn};

/// A count of faults, which stays at its last value once it is there.
#[derive(Drop)]
pub struct Count {
    value: u64,
    ghost within: { value ≤ last_count },
}

impl Count {
    /// No fault yet.
    pub fn new() -> Count
        ensures { result.value ≡ 0 }
    {
        Count { value: 0 }
    }

    /// Another count that goes on from where this one stands.
    pub fn copy(&self) -> Count
        ensures { result.value ≡ self.now.value }
    {
        Count { value: self.value }
    }

    /// Counts one fault.
    pub fn raise(&mut self)
        ensures rose { Rose self.old.value self.new.value }
        ensures goes_on { GoesOn self.old.value self.new.value }
    {
        self.value = self.value.saturating_add(1);
    }
}
