//! What is provided.
ghost use Rattle.std.specs.Prelude.{IfOk};
ghost use Rattle.plain_clauses.specs.plain_transitions.WrittenTransitions.{provided_of, referred};
ghost use Rattle.est_meaning.specs.ClauseContexts.{Otherwise};
ghost use Rattle.plain_blocks.specs.plain_operands.ExecutionSites.{view_of};
ghost use Rattle.plain_clauses.specs.JudgedClauses.{IsMet};

use crate::parts::part_of;
use est_syntax::expression::Expr;
use plain_blocks::plain_operands::site::Site;
use plain_clauses::evaluated::{is_met, is_past};
use plain_clauses::met::{Met, with_unmet};
use plain_clauses::plain_systems::system::Working;
use plain_clauses::plain_transitions::written::Provision;
use std::alloc::{AllocError, Global};

// Whether each of these conditions is false or has a fault.
fn all_unmet(
    alloc: Global,
    site: &Site,
    limit: u32,
    conditions: &[&Expr],
    working: &Working,
) -> Result<Met, AllocError>
    ensures { IfOk result (λ met. IsMet limit (Otherwise (referred conditions.now))
        (view_of site.now working.now) met) }
{
    let mut met = Met {
        holds: true,
        passes: false,
    };
    for i in 0..conditions.len() {
        let part = part_of(alloc, site, limit, conditions[i], working)?;
        met = with_unmet(met, part);
    }
    Ok(met)
}

/// Whether what is provided holds. Of an `otherwise` all conditions are evaluated.
pub fn is_provided(
    alloc: Global,
    site: &Site,
    limit: u32,
    condition: &Provision,
    working: &Working,
) -> Result<Met, AllocError>
    ensures { IfOk result (λ met. IsMet limit (provided_of condition.now)
        (view_of site.now working.now) met) }
{
    match condition {
        Provision::Always => Ok(Met {
            holds: true,
            passes: false,
        }),
        Provision::Provided(e) => {
            let part = part_of(alloc, site, limit, e, working)?;
            Ok(Met {
                holds: is_met(part),
                passes: is_past(part),
            })
        }
        Provision::Otherwise(conditions) => {
            all_unmet(alloc, site, limit, conditions.as_slice(), working)
        }
    }
}
