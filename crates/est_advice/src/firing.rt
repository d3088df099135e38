//! Firings that are rejected.

use crate::place::place_of;
use crate::rejected::Rejected;
use advice_guards::cause::append_cause;
use advice_guards::limit::append_limit;
use advice_guards::scene::Scene;
use advice_guards::states::append_states;
use advice_tokens::note::append_note;
use advice_tokens::place::spot_of;
use call_files::est_explanation::verdict::Why;
use est_meaning::firing::Firing;
use plain_clauses::candidate::Candidate;
use plain_systems::rows::row_of;
use std::alloc::{AllocError, Global};

// Adds a note on one of the numbers of a firing, by how many tokens it stands after the first.
fn append_number(
    alloc: Global,
    rejected: &Rejected,
    after: u32,
    text: &str,
    notes: &mut String,
) -> Result<(), AllocError> {
    let place = place_of(rejected).saturating_add(after);
    let spot = spot_of("explanation", rejected.texts.explanation, place);
    append_note(alloc, notes, spot, text)
}

// Adds why a choice is not possible, or that there is none of its number.
fn append_impossible(
    alloc: Global,
    scene: &Scene,
    rejected: &Rejected,
    candidate: &Candidate,
    choice: u32,
    notes: &mut String,
) -> Result<(), AllocError> {
    if append_cause(alloc, scene, candidate, choice, notes)? {
        return Ok(());
    }
    let text = "the transition has no such choice";
    append_number(alloc, rejected, 3, text, notes)
}

// Adds what is known of a choice that is rejected.
fn append_choice(
    alloc: Global,
    scene: &Scene,
    rejected: &Rejected,
    candidate: &Candidate,
    choice: u32,
    notes: &mut String,
) -> Result<(), AllocError> {
    append_states(alloc, scene, candidate, notes)?;
    match rejected.why {
        Why::NotOffered => append_impossible(alloc, scene, rejected, candidate, choice, notes),
        Why::Limit => append_limit(alloc, scene, candidate.transition, notes),
        _ => Ok(()),
    }
}

/// Adds what is known of a firing that is rejected, in the situation before it.
pub(crate) fn append_firing(
    alloc: Global,
    scene: &Scene,
    rejected: &Rejected,
    firing: &Firing,
    notes: &mut String,
) -> Result<(), AllocError> {
    let Some(row) = row_of(scene.system, firing.instance) else {
        let text = "no instance of this number lives then";
        return append_number(alloc, rejected, 1, text, notes);
    };
    let Some(transition) = scene.behaviour.transition(row.body, firing.transition) else {
        let text = "its body has no such transition";
        return append_number(alloc, rejected, 2, text, notes);
    };
    let candidate = Candidate {
        instance: firing.instance,
        state: row.state,
        number: firing.transition,
        transition,
    };
    append_choice(alloc, scene, rejected, &candidate, firing.choice, notes)
}
