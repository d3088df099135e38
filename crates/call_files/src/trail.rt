//! What was called, as clauses see it.

ghost use Rattle.std.specs.Prelude.{◌≡◌, ℕ, ◌+◌, List, [], ◌∷◌, ◌++◌};
ghost use Rattle.std.specs.Borrow.{ftrue};

use std::marker::Model;

/// The names of the files that were started, in the order of their starts, and how often bytes were
/// asked for since the last start. It takes no memory: only clauses read it.
#[derive(Drop)]
pub struct Trail {
    pub ghost names: { List (List ℕ) },
    pub ghost asked: { ℕ },
}

impl Model for Trail {
    ghost also_owns = { λ _. ftrue };
}

impl Trail {
    /// Nothing was started.
    pub fn new() -> Trail
        ensures { (result.names ≡ []) × (result.asked ≡ 0) }
    {
        Trail {}
    }

    /// The file of this name was started.
    pub fn start(&self, _name: &str) -> Trail
        ensures { (result.names ≡ self.now.names ++ _name.now ∷ []) × (result.asked ≡ 0) }
    {
        Trail {}
    }

    /// Bytes were asked for once more.
    pub fn ask(&self) -> Trail
        ensures { (result.names ≡ self.now.names) × (result.asked ≡ self.now.asked + 1) }
    {
        Trail {}
    }
}
