//! Checked specifications.

ghost use Rattle.std.specs.Prelude.{◌≡◌, IfOk};
ghost use Rattle.rule_declares.specs.Bodies.{outline_of};
ghost use Rattle.est_check.specs.LeastFault.{IsGood};
ghost use Rattle.rule_ports.specs.Counts.{counts_of};
ghost use Rattle.rule_declares.specs.PortList.{ports_of};
ghost use Rattle.est_check.specs.SentenceOf.{IsSentence};
ghost use Rattle.est_check.specs.Small.{IsSmall};
ghost use Rattle.est_check.specs.Checked.{IsChecked};

use est_syntax::est_items::Boxed;
use est_syntax::specification::Spec;
use est_syntax::tree::SyntaxTree;
use est_types::table::Table;
use rule_ports::counts::Counts;
use rule_ports::ports::Ports;
use std::alloc::{AllocError, Global};
use std::marker::Model;

// A tree with what it declares, its ports and its numbers.
#[derive(Drop)]
struct Whole {
    tree: SyntaxTree,
    table: Table,
    ports: Ports,
    counts: Counts,
}

/// A specification that breaks no rule, with all that was found of it. Contracts see its tree.
pub struct Checked {
    kept: Boxed<Whole>,
}

impl Model for Checked {
    ghost use Rattle.est_syntax.specs.declared.specification.Spec.{Spec};
    ghost use Rattle.est_syntax.specs.contracts.specification.Spec as whole;
    ghost use Rattle.est_check.specs.Checked.{IsChecked};

    ghost Value = { Spec };

    ghost coded = { whole.the_row.coded };

    ghost view = { λ c. c.kept.tree };

    ghost invariant = { λ c. IsChecked c.kept.tree c.kept.table c.kept.ports c.kept.counts };
}

// In words, so that no crate above follows the tree and the table down to their last list.
impl Drop for Checked {
    fn drop(self) {
        let Checked { kept } = self;
        drop(kept);
    }
}

impl Checked {
    // Keeps a tree. Where memory runs out it is dropped.
    pub(crate) fn new(
        alloc: Global,
        tree: SyntaxTree,
        table: Table,
        ports: Ports,
        counts: Counts,
    ) -> Result<Checked, AllocError>
        requires { IsChecked tree table ports counts }
        ensures { IfOk result (λ checked. checked ≡ tree) }
    {
        Ok(Checked {
            kept: Boxed::new(
                alloc,
                Whole {
                    tree,
                    table,
                    ports,
                    counts,
                },
            )?,
        })
    }

    /// The tree.
    pub fn spec(&self) -> &Spec
        ensures same { result.now ≡ self.now }
        ensures sentence { IsSentence self.now }
        ensures small { IsSmall self.now }
        ensures good { IsGood self.now }
    {
        self.kept.get().tree.spec()
    }

    /// What it declares.
    pub fn table(&self) -> &Table
        ensures { result.now.outline ≡ outline_of self.now }
    {
        &self.kept.get().table
    }

    /// The ports, in order of declaration.
    pub fn ports(&self) -> &Ports
        ensures { result.now ≡ ports_of self.now }
    {
        &self.kept.get().ports
    }

    /// How many bodies, transitions and ports there are.
    pub fn counts(&self) -> Counts
        ensures { result ≡ counts_of self.now }
    {
        self.kept.get().counts
    }
}
