//! The clauses that a transition has, with those before it in its group.
#![tactic(auto, using(rule_scope::proofs::LeastLaws::least_append))]

ghost use Rattle.std.specs.Prelude.{◌≡◌, OnOk};
ghost use Rattle.rule_scope.specs.LeastSoFar.{least_with};
ghost use Rattle.rule_ports.specs.GivenClauses.{with_clause, with_clauses};
ghost use Rattle.est_syntax.specs.Clauses.{clause_place};
ghost use Rattle.rule_declares.specs.Contexts.{kind_of};
ghost use Rattle.rule_ports.specs.GivenClauses.{has, delay_faults};

use est_syntax::rule::Rule;
use est_syntax::transition::Clause;
use rule_declares::context::{ClauseKind, Context, Given, give};
use rule_scope::least::Least;
use std::alloc::AllocError;

// Gives a clause.
fn give_clause(clause: &Clause, context: &mut Context) -> Result<(), AllocError>
    ensures { OnOk result (context.new ≡ with_clause context.old clause.now) }
{
    let kind = ClauseKind::of(clause);
    kind.renew(context);
    give(context, kind, Some(clause.place()))
}

/// Gives the clauses of a transition, each with the place of its first token.
pub fn give_clauses(clauses: &[Clause], context: &mut Context) -> Result<(), AllocError>
    ensures { OnOk result (context.new ≡ with_clauses context.old clauses.now) }
{
    for clause in clauses {
        give_clause(clause, context)?;
    }
    Ok(())
}

// Whether a transition has a clause of a kind.
fn has(kind: ClauseKind, context: &[Given]) -> bool
    ensures { result ≡ has kind context.now }
{
    kind.region(context).is_some()
}

/// Notes a delay beside a `when` or an `any`.
pub fn check_delay(context: &[Given], least: &mut Least)
    ensures { least.new.at ≡ least_with least.old.at (delay_faults context.now) }
{
    match ClauseKind::Delay.region(context) {
        None => (),
        Some(place) => {
            let others = has(ClauseKind::When, context) || has(ClauseKind::Any, context);
            least.note_if(others, place, Rule::DelayNotAlone);
        },
    }
}
