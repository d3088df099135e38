//! Why a choice is not possible.

use crate::ahead::append_ahead;
use crate::awaited::append_subscripts;
use crate::guard::append_guard;
use crate::heads::append_heads;
use crate::scene::Scene;
use crate::seen::{choose, see, view_of, working_of};
use plain_clauses::candidate::Candidate;
use plain_frames::plain_systems::system::Working;
use std::alloc::{AllocError, Global};

// Adds what is awaited, if something is, and what waits.
fn append_awaited(
    alloc: Global,
    scene: &Scene,
    candidate: &Candidate,
    working: &Working,
    notes: &mut String,
) -> Result<(), AllocError> {
    let view = view_of(scene, candidate.instance, working);
    match candidate.transition.awaits {
        None => Ok(()),
        Some(awaits) => append_heads(alloc, &view, &awaits, notes),
    }
}

// Adds which subscript of what is awaited has no value, if one has none.
fn append_unseen(
    alloc: Global,
    scene: &Scene,
    candidate: &Candidate,
    working: &Working,
    notes: &mut String,
) -> Result<(), AllocError> {
    let view = view_of(scene, candidate.instance, working);
    match candidate.transition.awaits {
        None => Ok(()),
        Some(awaits) => append_subscripts(alloc, &view, &awaits, notes),
    }
}

// Adds what the guard of a choice says whose `from` and `when` hold, and answers whether it fails.
fn append_failing(
    alloc: Global,
    scene: &Scene,
    candidate: &Candidate,
    working: &Working,
    notes: &mut String,
) -> Result<bool, AllocError> {
    let view = view_of(scene, candidate.instance, working);
    append_guard(alloc, &view, candidate.number, candidate.transition, notes)
}

// Adds the first of what keeps a choice from firing, beside a state or an interaction that is not
// there.
fn append_first(
    alloc: Global,
    scene: &Scene,
    candidate: &Candidate,
    choice: u32,
    working: &mut Working,
    notes: &mut String,
) -> Result<(), AllocError> {
    if !see(alloc, scene, candidate, choice, working)? {
        return append_unseen(alloc, scene, candidate, working, notes);
    }
    if append_failing(alloc, scene, candidate, working, notes)? {
        return Ok(());
    }
    append_ahead(alloc, scene, candidate, working, notes)
}

// The same with what is awaited, and answers whether there is such a choice.
fn append_choice(
    alloc: Global,
    scene: &Scene,
    candidate: &Candidate,
    choice: u32,
    working: &mut Working,
    notes: &mut String,
) -> Result<bool, AllocError> {
    let found = choose(alloc, scene, candidate, choice, working)?;
    append_awaited(alloc, scene, candidate, working, notes)?;
    if found {
        append_first(alloc, scene, candidate, choice, working, notes)?;
    }
    Ok(found)
}

/// Adds what the choice of a number awaits and what waits, and the first of what keeps it from
/// firing: a subscript without a value, its condition, its delay, or what goes before it. Answers
/// whether there is a choice of this number.
pub fn append_cause(
    alloc: Global,
    scene: &Scene,
    candidate: &Candidate,
    choice: u32,
    notes: &mut String,
) -> Result<bool, AllocError> {
    let mut working = working_of(alloc, scene)?;
    let found = append_choice(alloc, scene, candidate, choice, &mut working, notes);
    drop(working);
    found
}
