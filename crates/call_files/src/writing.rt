//! What an output does.

ghost use Rattle.std.specs.Prelude.{◌≡◌, ℕ, ◌<◌, ◌≤◌, List, Option};
ghost use Rattle.std.specs.Prelude.{OnOk, OnErr, IfOk, length, take};
ghost use Rattle.call_files.specs.FaultCounts.{last_count, Rose, GoesOn};
ghost use Rattle.call_files.specs.Pieces.{appended};

use crate::shelf::Failed;

/// An output that takes bytes.
pub trait Sink {
    /// The bytes written so far, or `None` where they are untold.
    ghost written: { Self → Option (List ℕ) };

    /// How many faults there were.
    ghost faults: { Self → ℕ };

    /// Appends a front part of the bytes and answers its length.
    fn put(&mut self, part: &[u8]) -> Result<usize, Failed>
        requires { 0 < length part.now }
        ensures count { GoesOn (faults self.old) (faults self.new) }

        ensures quiet { OnOk result (faults self.new ≡ faults self.old) }
        ensures some { IfOk result (λ n. 0 < n) }
        ensures within { IfOk result (λ n. n ≤ length part.now) }
        ensures piece { IfOk result
            (λ n. written self.new ≡ appended (written self.old) (take n part.now)) }

        ensures err { OnErr result (written self.new ≡ written self.old) }
        ensures failed { OnErr result (Rose (faults self.old) (faults self.new)) };

    /// The count is a number of 64 bits.
    ghost counted: { (sink : Self) → faults sink ≤ last_count };
}
