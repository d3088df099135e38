//! States that nothing enters.

use crate::warning::{Slip, Warning};
use est_syntax::body::{Body, Part};
use est_syntax::name::Used;
use est_syntax::transition::{Clause, Transition};
use indexmap::IndexMap;
use rule_scope::declaration::{SharedPlaces, Sort};
use rule_scope::outline::Outline;
use std::alloc::{AllocError, Global};

// The places of the declarations of states, each with a place where it is entered.
type Entered = IndexMap<u32, u32>;

// Notes that a state is entered, where one is named.
fn enter(outline: &Outline, state: &Option<Used>, entered: &mut Entered) -> Result<(), AllocError> {
    let Some(used) = state else {
        return Ok(());
    };
    if let Some(declared) = outline.declaration_of(Sort::State, used) {
        entered.insert(declared, used.place)?;
    }
    Ok(())
}

// Notes the states that the clauses of a transition enter.
fn enter_clauses(
    outline: &Outline,
    clauses: &[Clause],
    entered: &mut Entered,
) -> Result<(), AllocError> {
    for clause in clauses {
        if let Clause::To { state, .. } = clause {
            enter(outline, state, entered)?;
        }
    }
    Ok(())
}

// Notes the states that transitions enter.
fn enter_transitions(
    outline: &Outline,
    transitions: &[Transition],
    entered: &mut Entered,
) -> Result<(), AllocError> {
    for transition in transitions {
        enter_clauses(outline, transition.clauses.as_slice(), entered)?;
    }
    Ok(())
}

// The states that a body enters.
fn entered_by(alloc: Global, outline: &Outline, body: &Body) -> Result<Entered, AllocError> {
    let mut entered = IndexMap::new(alloc);
    if let Some(first) = &body.first {
        enter(outline, &first.to, &mut entered)?;
    }
    for group in body.groups.as_slice() {
        enter_transitions(outline, group.transitions.as_slice(), &mut entered)?;
    }
    Ok(entered)
}

// Whether one of the states at these places is entered, or none is known.
fn is_set_entered(states: &Option<SharedPlaces>, entered: &Entered) -> bool {
    match states {
        None => true,
        Some(states) => states
            .get()
            .as_slice()
            .iter()
            .any(|state| entered.get(state).is_some()),
    }
}

// Whether a state, or one of a state set, is entered. Nothing is said of another name.
fn is_entered(outline: &Outline, used: &Used, entered: &Entered) -> bool {
    if let Some(declared) = outline.declaration_of(Sort::State, used) {
        return entered.get(&declared).is_some();
    }
    let Some(declared) = outline.declaration_of(Sort::StateSet, used) else {
        return true;
    };
    match outline.entry(declared) {
        None => true,
        Some(entry) => is_set_entered(&entry.states, entered),
    }
}

// Adds the `from` clauses of which no state is entered.
fn push_unreached(
    outline: &Outline,
    clauses: &[Clause],
    entered: &Entered,
    found: &mut Vec<Warning>,
) -> Result<(), AllocError> {
    for clause in clauses {
        if let Clause::From { states, place } = clause {
            let mut names = states.as_slice().iter();
            if !names.any(|used| is_entered(outline, used, entered)) {
                found.push(Warning {
                    place: *place,
                    slip: Slip::NotReached,
                })?;
            }
        }
    }
    Ok(())
}

// The same of transitions.
fn push_unreachable(
    outline: &Outline,
    transitions: &[Transition],
    entered: &Entered,
    found: &mut Vec<Warning>,
) -> Result<(), AllocError> {
    for transition in transitions {
        push_unreached(outline, transition.clauses.as_slice(), entered, found)?;
    }
    Ok(())
}

// Adds the states of these names that are not entered.
fn push_names(
    names: &[Used],
    entered: &Entered,
    found: &mut Vec<Warning>,
) -> Result<(), AllocError> {
    for name in names {
        if entered.get(&name.place).is_none() {
            found.push(Warning {
                place: name.place,
                slip: Slip::NotEntered,
            })?;
        }
    }
    Ok(())
}

// Adds the states of these parts that are not entered.
fn push_parts(
    parts: &[Part],
    entered: &Entered,
    found: &mut Vec<Warning>,
) -> Result<(), AllocError> {
    for part in parts {
        if let Part::States(names) = part {
            push_names(names.as_slice(), entered, found)?;
        }
    }
    Ok(())
}

/// Adds the states of a body that are not entered, and the `from` clauses of none that is.
pub(crate) fn push_states(
    alloc: Global,
    outline: &Outline,
    body: &Body,
    found: &mut Vec<Warning>,
) -> Result<(), AllocError> {
    let entered = entered_by(alloc, outline, body)?;
    push_parts(body.parts.as_slice(), &entered, found)?;
    for group in body.groups.as_slice() {
        push_unreachable(outline, group.transitions.as_slice(), &entered, found)?;
    }
    Ok(())
}
