//! What passes the limit of statements.

use crate::passing::{passing_place, passing_subscript};
use crate::scan::{Sought, first_sought};
use crate::scene::Scene;
use crate::seen::{see, view_of, working_of};
use advice_tokens::note::append_note;
use advice_tokens::place::spot_of;
use est_meaning::firing::Firing;
use est_meaning::mean_blocks::situation::Row;
use plain_clauses::candidate::Candidate;
use plain_frames::plain_systems::system::Working;
use plain_transitions::written::Written;
use std::alloc::{AllocError, Global};

// The place of what passes the limit, if something does, in the guard of a choice of which it is
// known whether its `from` and `when` hold.
fn place_in_guard(
    alloc: Global,
    scene: &Scene,
    candidate: &Candidate,
    seen: bool,
    working: &Working,
) -> Result<Option<u32>, AllocError> {
    let view = view_of(scene, candidate.instance, working);
    if seen {
        passing_place(alloc, &view, candidate.transition)
    } else {
        passing_subscript(alloc, &view, candidate.transition)
    }
}

// The place of what passes the limit in the guard of a choice, or of the block of its transition.
fn guard_place(
    alloc: Global,
    scene: &Scene,
    candidate: &Candidate,
    choice: u32,
    working: &mut Working,
) -> Result<u32, AllocError> {
    let seen = see(alloc, scene, candidate, choice, working)?;
    let place = place_in_guard(alloc, scene, candidate, seen, working)?;
    Ok(place.unwrap_or(candidate.transition.block.place))
}

// Adds the guard of a choice of an instance, which passes the limit.
fn append_guard_of(
    alloc: Global,
    scene: &Scene,
    row: &Row,
    firing: &Firing,
    working: &mut Working,
    notes: &mut String,
) -> Result<(), AllocError> {
    let number = firing.transition;
    let Some(transition) = scene.behaviour.transition(row.body, number) else {
        return Ok(());
    };
    let instance = row.number;
    let candidate = Candidate {
        instance,
        state: row.state,
        number,
        transition,
    };
    let place = guard_place(alloc, scene, &candidate, firing.choice, working)?;
    let text = format!(in alloc;
        "the guard of transition {number} of instance {instance} passes the limit of statements"
    )?;
    let spot = spot_of("specification", scene.tokens, place);
    append_note(alloc, notes, spot, &text)
}

/// Adds the first guard that passes the limit, if one does, and answers whether that is so.
pub(crate) fn append_guards(
    alloc: Global,
    scene: &Scene,
    working: &mut Working,
    notes: &mut String,
) -> Result<bool, AllocError> {
    for row in scene.system.rows.get().as_slice() {
        let row = row.get();
        if let Some(firing) = first_sought(alloc, scene, row, Sought::Passing, working)? {
            append_guard_of(alloc, scene, row, &firing, working, notes)?;
            return Ok(true);
        }
    }
    Ok(false)
}

// Adds the guard that passes the limit, or that the block of this transition does.
fn append_passing(
    alloc: Global,
    scene: &Scene,
    transition: &Written,
    working: &mut Working,
    notes: &mut String,
) -> Result<(), AllocError> {
    if append_guards(alloc, scene, working, notes)? {
        return Ok(());
    }
    append_note(
        alloc,
        notes,
        spot_of("specification", scene.tokens, transition.block.place),
        "its block passes the limit of statements",
    )
}

/// Adds what passes the limit where this transition is to fire: a guard, or its block.
pub fn append_limit(
    alloc: Global,
    scene: &Scene,
    transition: &Written,
    notes: &mut String,
) -> Result<(), AllocError> {
    let mut working = working_of(alloc, scene)?;
    let done = append_passing(alloc, scene, transition, &mut working, notes);
    drop(working);
    done
}
