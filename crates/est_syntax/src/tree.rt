//! The syntax tree of a specification, as crates above own it.
ghost use Rattle.std.specs.Prelude.{◌≡◌, IfOk};

use crate::specification::Spec;
use est_items::Boxed;
use std::alloc::{AllocError, Global};
use std::marker::Model;

/// A specification with an owner that moves as one pointer and is let go of here. Contracts see
/// the specification.
pub struct SyntaxTree {
    spec: Boxed<Spec>,
}

impl Model for SyntaxTree {
    ghost use Rattle.est_syntax.specs.declared.specification.Spec.{Spec};
    ghost use Rattle.est_syntax.specs.contracts.specification.Spec as whole;

    ghost Value = { Spec };

    ghost coded = { whole.the_row.coded };

    ghost view = { λ tree. tree.spec };
}

// A call of `drop` in words keeps the prover from following the tree down to its last list.
impl Drop for SyntaxTree {
    fn drop(self) {
        let SyntaxTree { spec } = self;
        drop(spec);
    }
}

impl SyntaxTree {
    /// Errs when memory runs out; the specification is then dropped.
    pub fn new(alloc: Global, spec: Spec) -> Result<SyntaxTree, AllocError>
        ensures { IfOk result (λ tree. tree ≡ spec) }
    {
        Ok(SyntaxTree {
            spec: Boxed::new(alloc, spec)?,
        })
    }

    /// The specification.
    pub fn spec(&self) -> &Spec
        ensures { result.now ≡ self.now }
    {
        self.spec.get()
    }
}
