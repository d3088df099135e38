//! Clauses that have no effect.

use crate::warning::{Slip, Warning};
use est_syntax::transition::{Clause, Group, Transition};
use rule_declares::context::{Context, Given};
use rule_ports::clauses::give_clauses;
use std::alloc::{AllocError, Global};

// Whether a clause at a place is among those that were given.
fn is_given(context: &[Given], place: u32) -> bool {
    context.iter().any(|given| given.region == Some(place))
}

// Adds those of the clauses of a transition that it does not have.
fn push_dropped(
    context: &[Given],
    clauses: &[Clause],
    found: &mut Vec<Warning>,
) -> Result<(), AllocError> {
    for clause in clauses {
        let place = clause.place();
        if !is_given(context, place) {
            found.push(Warning {
                place,
                slip: Slip::Dropped,
            })?;
        }
    }
    Ok(())
}

// Adds `provided otherwise` among these clauses where no condition stands before it, and answers
// whether one stands before what follows.
fn push_lonely(
    clauses: &[Clause],
    before: bool,
    found: &mut Vec<Warning>,
) -> Result<bool, AllocError> {
    let mut conditions = before;
    for clause in clauses {
        match clause {
            Clause::Provided { .. } => conditions = true,
            Clause::Otherwise { place } => if !conditions {
                found.push(Warning {
                    place: *place,
                    slip: Slip::NoCondition,
                })?;
            },
            _ => (),
        }
    }
    Ok(conditions)
}

// Adds what is found in the clauses of a transition, after those before it in its group.
fn push_transition(
    transition: &Transition,
    context: &mut Context,
    found: &mut Vec<Warning>,
) -> Result<(), AllocError> {
    let clauses = transition.clauses.as_slice();
    give_clauses(clauses, context)?;
    push_dropped(context.as_slice(), clauses, found)
}

/// Adds what is found in the clauses of a group.
pub(crate) fn push_group(
    alloc: Global,
    group: &Group,
    found: &mut Vec<Warning>,
) -> Result<(), AllocError> {
    let mut context = Context::new(alloc);
    let mut conditions = false;
    for transition in group.transitions.as_slice() {
        push_transition(transition, &mut context, found)?;
        conditions = push_lonely(transition.clauses.as_slice(), conditions, found)?;
    }
    Ok(())
}
