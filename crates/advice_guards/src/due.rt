//! Why a situation is not quiet.

use crate::limit::append_guards;
use crate::scan::verdict_of;
use crate::scene::Scene;
use crate::seen::working_of;
use advice_tokens::note::append_note;
use advice_tokens::place::spot_of;
use est_meaning::firing::Firing;
use plain_clauses::candidate::Candidate;
use plain_frames::plain_systems::rows::row_of;
use plain_frames::plain_systems::system::Working;
use std::alloc::{AllocError, Global};

// So many transitions are told at most.
const MOST_TOLD: u32 = 4;

// Adds that a transition of an instance is due.
fn append_candidate(
    alloc: Global,
    scene: &Scene,
    candidate: &Candidate,
    notes: &mut String,
) -> Result<(), AllocError> {
    let (instance, number) = (candidate.instance, candidate.number);
    let place = candidate.transition.block.place;
    let text = format!(in alloc;
        "then instance {instance} has to go on: transition {number} is due"
    )?;
    append_note(
        alloc,
        notes,
        spot_of("specification", scene.tokens, place),
        &text,
    )
}

// Adds the choice of a number, if it is due, and answers whether it is.
fn append_choice(
    alloc: Global,
    scene: &Scene,
    candidate: &Candidate,
    choice: u32,
    working: &mut Working,
    notes: &mut String,
) -> Result<bool, AllocError> {
    match verdict_of(alloc, scene, candidate, choice, working)? {
        Some(verdict) if verdict.due => {
            append_candidate(alloc, scene, candidate, notes)?;
            Ok(true)
        }
        _ => Ok(false),
    }
}

// Adds a firing, if it is due, and answers whether it is.
fn append_firing(
    alloc: Global,
    scene: &Scene,
    firing: &Firing,
    working: &mut Working,
    notes: &mut String,
) -> Result<bool, AllocError> {
    let Some(row) = row_of(scene.system, firing.instance) else {
        return Ok(false);
    };
    let Some(transition) = scene.behaviour.transition(row.body, firing.transition) else {
        return Ok(false);
    };
    let candidate = Candidate {
        instance: firing.instance,
        state: row.state,
        number: firing.transition,
        transition,
    };
    append_choice(alloc, scene, &candidate, firing.choice, working, notes)
}

// Whether a firing is another choice of the transition that was told last.
fn is_told(last: Option<Firing>, firing: &Firing) -> bool {
    match last {
        None => false,
        Some(last) => last.instance == firing.instance && last.transition == firing.transition,
    }
}

// Adds the first transitions of these firings that are due.
fn append_firings(
    alloc: Global,
    scene: &Scene,
    firings: &[Firing],
    working: &mut Working,
    notes: &mut String,
) -> Result<(), AllocError> {
    let mut told: u32 = 0;
    let mut last: Option<Firing> = None;
    for firing in firings {
        if told < MOST_TOLD
            && !is_told(last, firing)
            && append_firing(alloc, scene, firing, working, notes)?
        {
            told = told.saturating_add(1);
            last = Some(*firing);
        }
    }
    Ok(())
}

// Adds the guard that passes the limit, or what is due of these firings.
fn append_reason(
    alloc: Global,
    scene: &Scene,
    firings: &[Firing],
    working: &mut Working,
    notes: &mut String,
) -> Result<(), AllocError> {
    if append_guards(alloc, scene, working, notes)? {
        return Ok(());
    }
    append_firings(alloc, scene, firings, working, notes)
}

/// Adds why a situation is not quiet in which these firings are possible, in order: a guard that
/// passes the limit, or the first few transitions that are due.
pub fn append_due(
    alloc: Global,
    scene: &Scene,
    firings: &[Firing],
    notes: &mut String,
) -> Result<(), AllocError> {
    let mut working = working_of(alloc, scene)?;
    let done = append_reason(alloc, scene, firings, &mut working, notes);
    drop(working);
    done
}
