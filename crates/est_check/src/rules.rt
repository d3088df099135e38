//! All rules, over a whole specification.
#![tactic(auto, using(rule_scope::proofs::LeastLaws::least_append))]

ghost use Rattle.std.specs.Prelude.{◌≡◌, ◌++◌, IfOk, None, []};
ghost use Rattle.rule_scope.specs.LeastSoFar.{least_with};
ghost use Rattle.rule_declares.specs.Bodies.{outline_of};
ghost use Rattle.est_types.specs.DeclarationFaults.{declaration_faults};
ghost use Rattle.est_check.specs.LeastFault.{specification_faults};
ghost use Rattle.est_check.specs.LeastFault.{IsLeastFault};

use crate::blocks::check_parts;
use est_syntax::rule::Fault;
use est_syntax::specification::Spec;
use est_types::table::Table;
use rule_scope::least::Least;
use rule_statements::statements::check_statement;
use std::alloc::{AllocError, Global};

// The least rule that a specification with this table breaks.
fn least_fault(alloc: Global, table: &Table, spec: &Spec) -> Result<Option<Fault>, AllocError>
    requires outline { table.now.outline ≡ outline_of spec.now }
    requires fault { table.now.fault ≡ least_with None (declaration_faults spec.now) }
    ensures { IfOk result (λ fault. fault ≡ least_with None (specification_faults spec.now)) }
{
    let mut least = Least {
        at: table.first_fault(),
    };
    let outline = table.outline();
    check_parts(alloc, outline, spec.parts.as_slice(), &mut least)?;
    check_statement(alloc, outline, None, &[], &spec.first, &mut least)?;
    Ok(least.at)
}

/// The least rule that a specification with this table breaks, by place and then by its number.
pub fn judge(alloc: Global, table: &Table, spec: &Spec) -> Result<Option<Fault>, AllocError>
    requires outline { table.now.outline ≡ outline_of spec.now }
    requires fault { table.now.fault ≡ least_with None (declaration_faults spec.now) }
    ensures { IfOk result (IsLeastFault spec.now) }
{
    let fault = least_fault(alloc, table, spec)?;
    Ok(fault)
}
