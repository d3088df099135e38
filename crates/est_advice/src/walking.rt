//! The moves before the one that is rejected, or before the end.

use crate::firing::append_firing;
use crate::place::{append_move, append_start};
use crate::rejected::Rejected;
use advice_guards::due::append_due;
use advice_guards::scene::Scene;
use call_files::est_check::Checked;
use call_files::est_lexer::tokens::Tokens;
use est_meaning::answers::Started;
use est_meaning::event::Event;
use est_meaning::firing::Firing;
use est_meaning::run::Move;
use est_meaning::trace::Expected;
use plain_walk::walk::Walk;
use std::alloc::{AllocError, Global};

// Lets the event happen that is expected first, if it may be taken, and answers how many happened.
fn take(alloc: Global, walk: &mut Walk, rest: &[Expected]) -> Result<Option<usize>, AllocError> {
    match rest.first() {
        None => Ok(None),
        Some(Expected::Partly { .. }) => Ok(None),
        Some(Expected::Known(Event::Leaves(_))) => Ok(None),
        Some(Expected::Known(event)) => {
            walk.happen(alloc, event)?;
            Ok(Some(1))
        }
    }
}

// Fires a transition, if it can be fired, and answers how many events it sends.
fn fire(alloc: Global, walk: &mut Walk, firing: &Firing) -> Result<Option<usize>, AllocError> {
    let Some(made) = walk.fire(alloc, firing)? else {
        return Ok(None);
    };
    let count = made.sent.outs.len();
    drop(made);
    Ok(Some(count))
}

// Makes a move, if it can be made, where this is left of the trace, and answers how many events
// happen.
fn make(
    alloc: Global,
    walk: &mut Walk,
    rest: &[Expected],
    next: &Move,
) -> Result<Option<usize>, AllocError> {
    match next {
        Move::Take => take(alloc, walk, rest),
        Move::Fire(firing) => fire(alloc, walk, firing),
    }
}

/// Makes moves along a trace of which so many events have happened, and answers how many have
/// happened then.
pub(crate) fn make_all(
    alloc: Global,
    walk: &mut Walk,
    trace: &[Expected],
    happened: usize,
    moves: &[Move],
) -> Result<usize, AllocError> {
    let mut at = happened;
    for next in moves {
        let rest = &trace[at.min(trace.len())..];
        match make(alloc, walk, rest, next)? {
            None => return Ok(at),
            Some(count) => at = at.saturating_add(count),
        }
    }
    Ok(at)
}

// Where guards are looked at after the moves of a walk.
fn scene_of<'s, 'c>(walk: &'s Walk<'c>, specification: &'s Tokens<'s>) -> Scene<'s, 'c> {
    Scene {
        behaviour: &walk.behaviour,
        system: &walk.system,
        limit: walk.limit,
        tokens: specification,
    }
}

/// Adds why the situation after the moves of a walk is not quiet, if that is so.
pub(crate) fn append_dues(
    alloc: Global,
    walk: &Walk,
    specification: &Tokens,
    notes: &mut String,
) -> Result<(), AllocError> {
    let firings = walk.firings(alloc)?;
    let scene = scene_of(walk, specification);
    append_due(alloc, &scene, &firings, notes)
}

// Adds what is known of a firing in the situation before it, if that is what is rejected, or of a
// quiet end, where so many events have happened.
fn append_next(
    alloc: Global,
    walk: &Walk,
    rejected: &Rejected,
    happened: usize,
    notes: &mut String,
) -> Result<(), AllocError> {
    let specification = rejected.texts.specification;
    let Some(index) = (rejected.at as usize).checked_sub(1) else {
        return Ok(());
    };
    match rejected.moves.get(index) {
        Some(Move::Fire(firing)) => {
            let scene = scene_of(walk, specification);
            append_firing(alloc, &scene, rejected, firing, notes)
        }
        None if rejected.is_at_quiet_end(happened) => {
            append_dues(alloc, walk, specification, notes)
        }
        _ => Ok(()),
    }
}

// Adds what is known of a rejection after a start with so many events.
fn append_begun(
    alloc: Global,
    walk: &mut Walk,
    rejected: &Rejected,
    begun: usize,
    notes: &mut String,
) -> Result<(), AllocError> {
    let count = (rejected.at as usize)
        .saturating_sub(1)
        .min(rejected.moves.len());
    let happened = make_all(alloc, walk, rejected.trace, begun, &rejected.moves[..count])?;
    append_move(alloc, rejected, happened, notes)?;
    append_next(alloc, walk, rejected, happened, notes)
}

/// Adds what is known of a rejection under a limit of statements.
pub(crate) fn append_rejection(
    alloc: Global,
    checked: &Checked,
    rejected: &Rejected,
    statements: u32,
    notes: &mut String,
) -> Result<(), AllocError> {
    match Walk::start(alloc, checked, statements)? {
        Started::Fault(_) => append_start(alloc, rejected, notes),
        Started::Limit => append_start(alloc, rejected, notes),
        Started::Ready { world, outs } => {
            let mut walk = world;
            let begun = outs.len();
            drop(outs);
            let done = append_begun(alloc, &mut walk, rejected, begun, notes);
            drop(walk);
            done
        }
    }
}
