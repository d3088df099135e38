//! What goes before a firing that is offered.

use crate::scan::{Sought, first_sought};
use crate::scene::Scene;
use advice_tokens::note::append_note;
use advice_tokens::place::spot_of;
use est_meaning::firing::Firing;
use est_meaning::mean_blocks::situation::Row;
use plain_clauses::candidate::Candidate;
use plain_frames::plain_systems::rows::row_of;
use plain_frames::plain_systems::system::Working;
use std::alloc::{AllocError, Global};

// Adds a note on a choice of an instance, at the block of its transition.
fn append_firing(
    alloc: Global,
    scene: &Scene,
    row: &Row,
    firing: &Firing,
    more: &str,
    notes: &mut String,
) -> Result<(), AllocError> {
    let number = firing.transition;
    let Some(transition) = scene.behaviour.transition(row.body, number) else {
        return Ok(());
    };
    let instance = firing.instance;
    let text = format!(in alloc; "transition {number} of instance {instance} is due{more}")?;
    append_note(
        alloc,
        notes,
        spot_of("specification", scene.tokens, transition.block.place),
        &text,
    )
}

// Adds a due choice of the instance with a higher priority, if there is one, and answers whether
// there is.
fn append_beside(
    alloc: Global,
    scene: &Scene,
    row: &Row,
    priority: Option<i32>,
    working: &mut Working,
    notes: &mut String,
) -> Result<bool, AllocError> {
    let sought = Sought::Before(priority);
    let Some(firing) = first_sought(alloc, scene, row, sought, working)? else {
        return Ok(false);
    };
    let more = " and has a higher priority";
    append_firing(alloc, scene, row, &firing, more, notes)?;
    Ok(true)
}

// Adds a due choice of an instance above another one, if it has one, and answers whether it has.
fn append_above(
    alloc: Global,
    scene: &Scene,
    row: &Row,
    below: u32,
    working: &mut Working,
    notes: &mut String,
) -> Result<bool, AllocError> {
    let Some(firing) = first_sought(alloc, scene, row, Sought::Due, working)? else {
        return Ok(false);
    };
    let more = format!(in alloc; ", and its instance is above instance {below}")?;
    append_firing(alloc, scene, row, &firing, &more, notes)?;
    Ok(true)
}

// Adds a due choice of the nearest instance above this one that has one.
fn append_parents(
    alloc: Global,
    scene: &Scene,
    child: &Row,
    working: &mut Working,
    notes: &mut String,
) -> Result<(), AllocError> {
    let mut parent = child.parent;
    for _ in 0..scene.system.rows.get().len() {
        let Some(row) = row_of(scene.system, parent) else {
            return Ok(());
        };
        if append_above(alloc, scene, row, child.number, working, notes)? {
            return Ok(());
        }
        parent = row.parent;
    }
    Ok(())
}

/// Adds the due choice that goes before those of a transition, if there is one.
pub(crate) fn append_ahead(
    alloc: Global,
    scene: &Scene,
    candidate: &Candidate,
    working: &mut Working,
    notes: &mut String,
) -> Result<(), AllocError> {
    let Some(row) = row_of(scene.system, candidate.instance) else {
        return Ok(());
    };
    let priority = candidate.transition.priority;
    if append_beside(alloc, scene, row, priority, working, notes)? {
        return Ok(());
    }
    append_parents(alloc, scene, row, working, notes)
}
