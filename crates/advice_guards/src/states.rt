//! The states of instances and of transitions.

use crate::names::name_at;
use crate::scene::Scene;
use advice_tokens::note::{append_note, printed};
use advice_tokens::place::spot_of;
use est_lexer::tokens::Tokens;
use plain_clauses::candidate::Candidate;
use plain_transitions::written::Written;
use std::alloc::{AllocError, Global};

// Adds the name that stands at a place.
fn push_name(
    alloc: Global,
    text: &mut String,
    tokens: &Tokens,
    place: u32,
) -> Result<(), AllocError> {
    let name = printed(alloc, name_at(tokens, place))?;
    text.push_str(&name)
}

// Adds the state of an instance.
fn push_state(
    alloc: Global,
    text: &mut String,
    tokens: &Tokens,
    state: Option<u32>,
) -> Result<(), AllocError> {
    match state {
        None => text.push_str("in no state"),
        Some(place) => {
            text.push_str("in state ")?;
            push_name(alloc, text, tokens, place)
        }
    }
}

// Adds the names of states, each after a blank.
fn push_states(
    alloc: Global,
    text: &mut String,
    tokens: &Tokens,
    states: &[u32],
) -> Result<(), AllocError> {
    for state in states {
        text.push_str(" ")?;
        push_name(alloc, text, tokens, *state)?;
    }
    Ok(())
}

// Adds from which states a transition goes, if it has a `from`.
fn push_from(
    alloc: Global,
    text: &mut String,
    tokens: &Tokens,
    transition: &Written,
) -> Result<(), AllocError> {
    match &transition.states {
        None => Ok(()),
        Some(states) => {
            text.push_str(", and it goes from")?;
            push_states(alloc, text, tokens, states.as_slice())
        }
    }
}

/// Adds in which state an instance is, and from which a transition of it goes.
pub fn append_states(
    alloc: Global,
    scene: &Scene,
    candidate: &Candidate,
    notes: &mut String,
) -> Result<(), AllocError> {
    let number = candidate.number;
    let instance = candidate.instance;
    let transition = candidate.transition;
    let mut text = format!(in alloc; "this is transition {number}: instance {instance} is ")?;
    push_state(alloc, &mut text, scene.tokens, candidate.state)?;
    text.push_str(" before it")?;
    push_from(alloc, &mut text, scene.tokens, transition)?;
    append_note(
        alloc,
        notes,
        spot_of("specification", scene.tokens, transition.block.place),
        &text,
    )
}
