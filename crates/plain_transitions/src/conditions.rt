//! Conditions to which a `provided otherwise` refers.

ghost use Rattle.std.specs.Prelude.{◌≡◌, ◌++◌, [], ◌∷◌, map, IfOk, OnOk};
ghost use Rattle.std.specs.List.{flat_map};
ghost use Rattle.est_syntax.specs.Clauses.{clause_place};
ghost use Rattle.est_meaning.specs.ClauseContexts.{context_after, given_after, before, clauses_of};
ghost use Rattle.plain_transitions.specs.WrittenTransitions.{referred};
ghost use Rattle.plain_transitions.specs.inside.HeldClauses.{held, places_before, conditions_of};
ghost use Rattle.plain_transitions.specs.inside.HeldClauses.{condition_of, given_conditions};
ghost use Rattle.plain_transitions.specs.inside.HeldClauses.{is_before, conditions_before};
ghost use Rattle.plain_transitions.specs.inside.HeldClauses.{referred_by};

use crate::clauses::condition_in;
use crate::contexts::{count_before, give};
use est_syntax::expression::Expr;
use est_syntax::transition::{Clause, Transition};
use std::alloc::{AllocError, Global};

/// A condition where it is given, with the places of the clauses of the context before it.
#[derive(Drop)]
pub(crate) struct Given<'t> {
    pub(crate) under: Vec<u32>,
    pub(crate) place: u32,
    pub(crate) condition: &'t Expr,
}

// The places of clauses.
fn places(alloc: Global, clauses: &[&Clause]) -> Result<Vec<u32>, AllocError>
    ensures { IfOk result (λ places. places.items
        ≡ map (λ clause. clause_place clause.now) clauses.now) }
{
    clauses.iter().map(|clause| clause.place()).collect(alloc)
}

// The places of the clauses of a context before the one that is of the kind of this clause.
fn places_before(
    alloc: Global,
    clause: &Clause,
    context: &[&Clause],
) -> Result<Vec<u32>, AllocError>
    ensures { IfOk result (λ places. places.items
        ≡ places_before clause.now (held context.now)) }
{
    let count = count_before(clause, context);
    let list = places(alloc, &context[..count])?;
    Ok(list)
}

// Notes the condition of a clause that is given in a context, if it has one.
fn note<'t>(
    alloc: Global,
    clause: &'t Clause,
    context: &[&'t Clause],
    given: &mut Vec<Given<'t>>,
) -> Result<(), AllocError>
    ensures { OnOk result (conditions_of given.new.items ≡ conditions_of given.old.items
        ++ given_conditions (record {
          under = before clause.now (held context.now);
          clause = clause.now;
        } ∷ [])) }
{
    let Some(condition) = condition_in(clause) else {
        return Ok(());
    };
    let under = places_before(alloc, clause, context)?;
    given.push(Given {
        under,
        place: clause.place(),
        condition,
    })?;
    Ok(())
}

// Gives clauses in order, and notes their conditions.
fn note_all<'t>(
    alloc: Global,
    clauses: &'t [Clause],
    context: &mut Vec<&'t Clause>,
    given: &mut Vec<Given<'t>>,
) -> Result<(), AllocError>
    ensures context { OnOk result
        (held context.new.items ≡ context_after (held context.old.items) clauses.now) }
    ensures given { OnOk result (conditions_of given.new.items ≡ conditions_of given.old.items
        ++ given_conditions (given_after (held context.old.items) clauses.now)) }
{
    for clause in clauses {
        note(alloc, clause, context.as_slice(), given)?;
        give(context, clause)?;
    }
    Ok(())
}

// Notes the conditions of the clauses of transitions.
fn note_group<'t>(
    alloc: Global,
    transitions: &'t [Transition],
    context: &mut Vec<&'t Clause>,
    given: &mut Vec<Given<'t>>,
) -> Result<(), AllocError>
    ensures { OnOk result (conditions_of given.new.items ≡ conditions_of given.old.items
        ++ given_conditions (given_after (held context.old.items) (clauses_of transitions.now))) }
{
    for transition in transitions {
        note_all(alloc, transition.clauses.as_slice(), context, given)?;
    }
    Ok(())
}

/// The conditions that are given in the transitions after one `trans`.
pub(crate) fn given_in<'t>(
    alloc: Global,
    transitions: &'t [Transition],
) -> Result<Vec<Given<'t>>, AllocError>
    ensures { IfOk result (λ given. conditions_of given.items
        ≡ given_conditions (given_after [] (clauses_of transitions.now))) }
{
    let mut context = Vec::new(alloc);
    let mut given = Vec::new(alloc);
    note_group(alloc, transitions, &mut context, &mut given)?;
    Ok(given)
}

// Whether a condition is given before a place, under the clauses at these places.
fn is_before(under: &[u32], place: u32, given: &Given<'_>) -> bool
    ensures { result ≡ is_before under.now place (condition_of given.now) }
{
    given.place < place && under == given.under.as_slice()
}

// Adds the conditions that are given before a place, under the clauses at these places.
fn add_before<'t>(
    under: &[u32],
    place: u32,
    given: &[Given<'t>],
    into: &mut Vec<&'t Expr>,
) -> Result<(), AllocError>
    ensures { OnOk result (referred into.new.items ≡ referred into.old.items
        ++ conditions_before under.now place (conditions_of given.now)) }
{
    for given in given {
        if is_before(under, place, given) {
            into.push(given.condition)?;
        }
    }
    Ok(())
}

// Adds the conditions to which a clause of a context refers.
fn add_referred<'t>(
    alloc: Global,
    clause: &Clause,
    context: &[&Clause],
    given: &[Given<'t>],
    into: &mut Vec<&'t Expr>,
) -> Result<(), AllocError>
    ensures { OnOk result (referred into.new.items ≡ referred into.old.items
        ++ referred_by (conditions_of given.now) (held context.now) clause.now) }
{
    let Clause::Otherwise { place } = clause else {
        return Ok(());
    };
    let under = places_before(alloc, clause, context)?;
    add_before(under.as_slice(), *place, given, into)
}

/// The conditions to which the clauses of a context refer.
pub(crate) fn referred<'t>(
    alloc: Global,
    context: &[&Clause],
    given: &[Given<'t>],
) -> Result<Vec<&'t Expr>, AllocError>
    ensures { IfOk result (λ conditions. referred conditions.items
        ≡ flat_map (referred_by (conditions_of given.now) (held context.now)) (held context.now)) }
{
    let mut conditions = Vec::new(alloc);
    for clause in context {
        add_referred(alloc, clause, context, given, &mut conditions)?;
    }
    Ok(conditions)
}
