//! The check of a specification.
#![tactic(auto)]

ghost use Rattle.std.specs.Prelude.{◌≡◌, IfOk, IfErr, None};
ghost use Rattle.rule_scope.specs.LeastSoFar.{least_with};
ghost use Rattle.rule_declares.specs.Bodies.{outline_of};
ghost use Rattle.est_check.specs.LeastFault.{IsGood};
ghost use Rattle.rule_ports.specs.Counts.{counts_of};
ghost use Rattle.est_types.specs.DeclarationFaults.{declaration_faults};
ghost use Rattle.est_check.specs.SentenceOf.{IsSentence};
ghost use Rattle.est_check.specs.Small.{IsSmall};
ghost use Rattle.est_check.specs.Found.{IsFound, IsRefused};
ghost use Rattle.est_check.specs.inside.Kept.{IsKept};

use crate::checked::Checked;
use crate::error::CheckError;
use crate::rules::judge;
use est_syntax::rule::Fault;
use est_syntax::specification::Spec;
use est_syntax::tree::SyntaxTree;
use est_types::table::{Table, declare};
use rule_ports::counts::{Counts, numbers};
use rule_ports::making::ports;
use rule_ports::ports::Ports;
use std::alloc::Global;

// What is kept of a specification that breaks no rule, beside its tree.
#[derive(Drop)]
pub(crate) struct Kept {
    table: Table,
    ports: Ports,
    counts: Counts,
}

// What is kept of a specification with this table, which breaks no rule.
fn kept_of(alloc: Global, table: Table, spec: &Spec) -> Result<Kept, CheckError>
    requires outline { table.outline ≡ outline_of spec.now }
    requires good { IsGood spec.now }
    ensures good { IfOk result (IsKept spec.now) }
    ensures fault { IfErr result (IsRefused spec.now) }
{
    let counts = numbers(table.outline(), spec);
    match ports(alloc, table.outline(), spec) {
        Err(error) => {
            drop(table);
            Err(CheckError::Memory(error))
        }
        Ok(ports) => Ok(Kept {
            table,
            ports,
            counts,
        }),
    }
}

// What is kept of a specification with this table, or why it is refused.
fn judged_by(alloc: Global, table: Table, spec: &Spec) -> Result<Kept, CheckError>
    requires outline { table.outline ≡ outline_of spec.now }
    requires fault { table.fault ≡ least_with None (declaration_faults spec.now) }
    ensures good { IfOk result (IsKept spec.now) }
    ensures fault { IfErr result (IsRefused spec.now) }
{
    match judge(alloc, &table, spec) {
        Err(error) => {
            drop(table);
            Err(CheckError::Memory(error))
        }
        Ok(Some(Fault { place, rule })) => {
            drop(table);
            Err(CheckError::Fault { place, rule })
        }
        Ok(None) => kept_of(alloc, table, spec),
    }
}

// The same of a specification.
fn judged(alloc: Global, spec: &Spec) -> Result<Kept, CheckError>
    ensures good { IfOk result (IsKept spec.now) }
    ensures fault { IfErr result (IsRefused spec.now) }
{
    match declare(alloc, spec) {
        Err(error) => Err(CheckError::Memory(error)),
        Ok(table) => judged_by(alloc, table, spec),
    }
}

// A checked specification of which this is kept.
fn with_tree(alloc: Global, tree: SyntaxTree, kept: Kept) -> Result<Checked, CheckError>
    requires sentence { IsSentence tree }
    requires small { IsSmall tree }
    requires kept { IsKept tree kept }
    ensures good { IfOk result (IsFound tree) }
    ensures fault { IfErr result (IsRefused tree) }
{
    let Kept {
        table,
        ports,
        counts,
    } = kept;
    match Checked::new(alloc, tree, table, ports, counts) {
        Err(error) => Err(CheckError::Memory(error)),
        Ok(checked) => Ok(checked),
    }
}

/// Checks the specification of a sentence. Where it breaks a rule the tree is dropped.
pub fn check(alloc: Global, tree: SyntaxTree) -> Result<Checked, CheckError>
    requires sentence { IsSentence tree }
    requires small { IsSmall tree }
    ensures good { IfOk result (IsFound tree) }
    ensures fault { IfErr result (IsRefused tree) }
{
    match judged(alloc, tree.spec()) {
        Err(error) => {
            drop(tree);
            Err(error)
        }
        Ok(kept) => with_tree(alloc, tree, kept),
    }
}
