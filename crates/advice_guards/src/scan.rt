//! Transitions of which some choice is looked for.

use crate::scene::Scene;
use est_meaning::firing::Firing;
use est_meaning::mean_blocks::situation::Row;
use plain_clauses::candidate::Candidate;
use plain_clauses::verdict::Verdict;
use plain_frames::plain_systems::system::Working;
use plain_guards::judging::judge;
use std::alloc::{AllocError, Global};

/// What is looked for in the choices of an instance: a guard that passes the limit, one that is
/// due, or one that is due and goes before a priority.
#[derive(Clone, Copy)]
pub(crate) enum Sought {
    Passing,
    Due,
    Before(Option<i32>),
}

// Whether a priority goes before another one.
fn outranks(priority: Option<i32>, other: Option<i32>) -> bool {
    match (priority, other) {
        (None, _) => false,
        (Some(_), None) => true,
        (Some(own), Some(other)) => own < other,
    }
}

// Whether a choice with this verdict and priority is looked for.
fn is_sought(sought: Sought, verdict: Verdict, priority: Option<i32>) -> bool {
    match sought {
        Sought::Passing => verdict.passes,
        Sought::Due => verdict.due,
        Sought::Before(other) => verdict.due && outranks(priority, other),
    }
}

/// What the guard of the choice of a number says, if there is such a choice.
pub(crate) fn verdict_of(
    alloc: Global,
    scene: &Scene,
    candidate: &Candidate,
    choice: u32,
    working: &mut Working,
) -> Result<Option<Verdict>, AllocError> {
    let Some(chosen) = scene.behaviour.chosen(alloc, candidate.transition, choice)? else {
        return Ok(None);
    };
    let text = scene.behaviour.text();
    let verdict = judge(alloc, text, scene.limit, candidate, chosen, working)?;
    Ok(Some(verdict))
}

// The number of the first choice of a transition that is looked for.
fn choice_sought(
    alloc: Global,
    scene: &Scene,
    candidate: &Candidate,
    sought: Sought,
    working: &mut Working,
) -> Result<Option<u32>, AllocError> {
    for choice in 1..u32::MAX {
        let Some(verdict) = verdict_of(alloc, scene, candidate, choice, working)? else {
            return Ok(None);
        };
        if is_sought(sought, verdict, candidate.transition.priority) {
            return Ok(Some(choice));
        }
    }
    Ok(None)
}

// The first choice that is looked for of the transition of a number.
fn firing_sought(
    alloc: Global,
    scene: &Scene,
    row: &Row,
    number: u32,
    sought: Sought,
    working: &mut Working,
) -> Result<Option<Firing>, AllocError> {
    let Some(transition) = scene.behaviour.transition(row.body, number) else {
        return Ok(None);
    };
    let candidate = Candidate {
        instance: row.number,
        state: row.state,
        number,
        transition,
    };
    match choice_sought(alloc, scene, &candidate, sought, working)? {
        None => Ok(None),
        Some(choice) => Ok(Some(Firing {
            instance: row.number,
            transition: number,
            choice,
        })),
    }
}

/// The first choice of an instance that is looked for.
pub(crate) fn first_sought(
    alloc: Global,
    scene: &Scene,
    row: &Row,
    sought: Sought,
    working: &mut Working,
) -> Result<Option<Firing>, AllocError> {
    let fits = scene.behaviour.fits(row.body, row.state);
    let mut after: u32 = 0;
    for _ in 0..u32::MAX {
        let Some(number) = fits.next(after) else {
            return Ok(None);
        };
        if let Some(firing) = firing_sought(alloc, scene, row, number, sought, working)? {
            return Ok(Some(firing));
        }
        after = number;
    }
    Ok(None)
}
