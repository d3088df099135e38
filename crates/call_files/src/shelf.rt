//! What a shelf of files does.

ghost use Rattle.std.specs.Prelude.{◌≡◌, ℕ, ◌+◌, ◌<◌, ◌≤◌, ◌↔◌, ◌||◌, ◌==◌, List};
ghost use Rattle.std.specs.Prelude.{[], ◌∷◌, ◌++◌, Bool, false, Option, IfSome};
ghost use Rattle.std.specs.Prelude.{OnOk, OnErr, IfOk, Ok, length, take, min};
ghost use Rattle.call_files.specs.FaultCounts.{last_count, Rose, AllGoOn, AllStay};
ghost use Rattle.call_files.specs.Pieces.{SameTold, TakesOff};

/// A fault of the outside.
#[derive(Debug, Clone, Copy, PartialEq, Eq)]
pub struct Failed;

/// Files by name, of which one at a time is read from its front to its end.
pub trait Shelf {
    /// The bytes that it holds under each name, or `None` where they are untold.
    ghost told: { Self → List ℕ → Option (List ℕ) };

    /// What is left of the started file, or `None` where it is untold.
    ghost left: { Self → Option (List ℕ) };

    /// Whether it reads a name now.
    ghost reads: { Self → List ℕ → Type 0 };

    /// How many bytes were taken since the last `start` that answered `Ok`.
    ghost taken: { Self → ℕ };

    /// Whether a `more` has answered 0 since then.
    ghost ended: { Self → Bool };

    /// How many faults there were for each name.
    ghost faults: { Self → List ℕ → ℕ };

    /// The names that `start` was called with so far, in order.
    ghost started: { Self → List (List ℕ) };

    /// How often `more` was called since the last `start`.
    ghost asked: { Self → ℕ };

    /// Opens the file of this name at its front, and leaves the one that was read before. After an
    /// `Err` nothing is said of what is read and what is left.
    fn start(&mut self, name: &str) -> Result<(), Failed>
        ensures told { SameTold (told self.old) (told self.new) }
        ensures counts { AllGoOn (faults self.old) (faults self.new) }
        ensures started { started self.new ≡ started self.old ++ name.now ∷ [] }
        ensures asked { asked self.new ≡ 0 }

        ensures quiet { OnOk result (AllStay (faults self.old) (faults self.new)) }
        ensures reads { OnOk result (reads self.new name.now) }
        ensures left { OnOk result
            (IfSome (told self.old name.now) (λ bytes. left self.new ≡ Some bytes)) }
        ensures begun { OnOk result ((taken self.new ≡ 0) × (ended self.new ≡ false)) }

        ensures err { OnErr result
            ((taken self.new ≡ taken self.old) × (ended self.new ≡ ended self.old)) }
        ensures failed { OnErr result
            (Rose (faults self.old name.now) (faults self.new name.now)) };

    /// Takes the next bytes, as many as the answer says, into the front of the buffer. An answer of
    /// 0 is the end.
    fn more(&mut self, into: &mut [u8]) -> Result<usize, Failed>
        requires { 0 < length into.old }
        ensures told { SameTold (told self.old) (told self.new) }
        ensures counts { AllGoOn (faults self.old) (faults self.new) }
        ensures started { started self.new ≡ started self.old }
        ensures asked { asked self.new ≡ asked self.old + 1 }
        ensures reads { (name : List ℕ) → reads self.old name → reads self.new name }

        ensures quiet { OnOk result (AllStay (faults self.old) (faults self.new)) }
        ensures fits { IfOk result (λ n. n ≤ length into.new) }
        ensures piece { IfOk result
            (λ n. TakesOff (left self.old) (take n into.new) (left self.new)) }
        ensures end { IfOk result (λ n. IfSome (left self.old) (λ rest. (n ≡ 0) ↔ (rest ≡ []))) }
        ensures taken { IfOk result (λ n. taken self.new ≡ min (taken self.old + n) last_count) }
        ensures ended { IfOk result (λ n. ended self.new ≡ (ended self.old || (n == 0))) }

        ensures err { OnErr result
            ((left self.new ≡ left self.old) × (taken self.new ≡ taken self.old)
            × (ended self.new ≡ ended self.old)) }
        ensures failed { OnErr result
            ((name : List ℕ) → reads self.old name
            → Rose (faults self.old name) (faults self.new name)) }
        ensures idle { ((name : List ℕ) → reads self.old name → ⊥) → result ≡ Ok 0 };

    /// Each count is a number of 64 bits.
    ghost counted: { (shelf : Self) (name : List ℕ) → faults shelf name ≤ last_count };
}
