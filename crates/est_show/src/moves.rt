//! The moves of an explanation, as they are shown.

use crate::effects::{push_arrivals, push_departures};
use crate::lives::{push_begun, push_births, push_ends};
use crate::source::{Source, ascii};
use crate::texts::{event_text, item_text, label, place_in, transition_in};
use advice_lines::sheet::{Effect, Life, MoveKind, Sheet, ShownMove};
use call_files::est_check::Checked;
use est_meaning::answers::Started;
use est_meaning::event::Event;
use est_meaning::firing::Firing;
use est_meaning::run::Move;
use est_meaning::trace::Expected;
use plain_frames::plain_systems::rows::row_of;
use plain_frames::plain_systems::system::System;
use plain_walk::made::Made;
use plain_walk::walk::Walk;
use std::alloc::{AllocError, Global};

// Adds which instances began and ended in the move of a number.
fn push_changes(
    alloc: Global,
    source: &Source,
    number: usize,
    before: &System,
    after: &System,
    lives: &mut Vec<Life>,
    effects: &mut Vec<Effect>,
) -> Result<(), AllocError> {
    if before.next == after.next && before.rows.get().len() == after.rows.get().len() {
        return Ok(());
    }
    let known = lives.len();
    push_begun(alloc, source, number, before.next, after, lives)?;
    push_births(alloc, &lives[known.min(lives.len())..], effects)?;
    push_ends(alloc, number, before, after, lives, effects)
}

// The name of the state of an instance, if it has one.
fn state_of(
    alloc: Global,
    source: &Source,
    system: &System,
    instance: u32,
) -> Result<String, AllocError> {
    let Some(row) = row_of(system, instance) else {
        return Ok(String::new(alloc));
    };
    match row.state {
        None => Ok(String::new(alloc)),
        Some(place) => ascii(alloc, source.name(place)),
    }
}

// Tells which transition fires, of an instance of which module.
fn tell_transition(
    alloc: Global,
    source: &Source,
    walk: &Walk,
    firing: &Firing,
    before: &System,
    shown: &mut ShownMove,
) -> Result<(), AllocError> {
    shown.instance = firing.instance;
    let Some(row) = row_of(before, firing.instance) else {
        return Ok(());
    };
    shown.module = ascii(alloc, source.name(row.body))?;
    let Some(body) = walk.behaviour.text().body(row.body) else {
        return Ok(());
    };
    let Some(transition) = transition_in(body, firing.transition) else {
        return Ok(());
    };
    shown.line = source.line(place_in(transition));
    shown.transition = label(alloc, source, firing.transition, transition)?;
    Ok(())
}

// Tells of a firing that was made, as the move of a number, but for the events that it sends.
fn tell_firing(
    alloc: Global,
    source: &Source,
    walk: &Walk,
    number: usize,
    firing: &Firing,
    made: &Made,
    lives: &mut Vec<Life>,
    shown: &mut ShownMove,
) -> Result<(), AllocError> {
    let before = &made.taken.system;
    let after = &walk.system;
    tell_transition(alloc, source, walk, firing, before, shown)?;
    shown.clock = after.clock;
    shown.before = state_of(alloc, source, before, firing.instance)?;
    shown.after = state_of(alloc, source, after, firing.instance)?;
    if let Some(item) = &made.taken.item {
        shown.taken = item_text(alloc, source, item)?;
    }
    let inside = made.sent.inside.get().as_slice();
    push_arrivals(alloc, source, inside, &mut shown.effects)?;
    push_changes(
        alloc,
        source,
        number,
        before,
        after,
        lives,
        &mut shown.effects,
    )
}

// Makes a firing, if it can be made, where this is left of the trace, and answers how many events
// it sends.
fn show_firing(
    alloc: Global,
    source: &Source,
    walk: &mut Walk,
    rest: &[Expected],
    number: usize,
    firing: &Firing,
    lives: &mut Vec<Life>,
    shown: &mut ShownMove,
) -> Result<Option<usize>, AllocError> {
    let Some(made) = walk.fire(alloc, firing)? else {
        return Ok(None);
    };
    let count = made.sent.outs.len();
    let outs = made.sent.outs.as_slice();
    let told = match push_departures(alloc, source, outs, rest, &mut shown.effects) {
        Ok(()) => tell_firing(alloc, source, walk, number, firing, &made, lives, shown),
        Err(error) => Err(error),
    };
    drop(made);
    told?;
    Ok(Some(count))
}

// Tells what an event puts into queues.
fn tell_arrivals(
    alloc: Global,
    source: &Source,
    walk: &Walk,
    event: &Event,
    effects: &mut Vec<Effect>,
) -> Result<(), AllocError> {
    let queues = walk.arrivals(alloc, event)?;
    let told = push_arrivals(alloc, source, queues.get().as_slice(), effects);
    drop(queues);
    told
}

// Lets an event happen.
fn show_event(
    alloc: Global,
    source: &Source,
    walk: &mut Walk,
    event: &Event,
    shown: &mut ShownMove,
) -> Result<(), AllocError> {
    shown.taken = event_text(alloc, source.ports, event)?;
    tell_arrivals(alloc, source, walk, event, &mut shown.effects)?;
    walk.happen(alloc, event)?;
    shown.clock = walk.system.clock;
    Ok(())
}

// Makes a move, if it can be made, where this is left of the trace, and answers how many events
// happen.
fn show_move(
    alloc: Global,
    source: &Source,
    walk: &mut Walk,
    rest: &[Expected],
    number: usize,
    next: &Move,
    lives: &mut Vec<Life>,
    shown: &mut ShownMove,
) -> Result<Option<usize>, AllocError> {
    match next {
        Move::Take => match rest.first() {
            Some(Expected::Known(event)) => {
                show_event(alloc, source, walk, event, shown)?;
                Ok(Some(1))
            }
            _ => Ok(None),
        },
        Move::Fire(firing) => show_firing(alloc, source, walk, rest, number, firing, lives, shown),
    }
}

// What kind of move it is, where this is left of the trace.
fn kind_of(next: &Move, rest: &[Expected]) -> MoveKind {
    match next {
        Move::Fire(_) => MoveKind::Firing,
        Move::Take => match rest.first() {
            Some(Expected::Known(Event::Passes(_))) => MoveKind::Time,
            _ => MoveKind::Arrival,
        },
    }
}

// Adds a move, if it can be made.
fn push_move(
    alloc: Global,
    source: &Source,
    walk: &mut Walk,
    rest: &[Expected],
    number: usize,
    next: &Move,
    sheet: &mut Sheet,
) -> Result<Option<usize>, AllocError> {
    let mut shown = ShownMove::new(alloc, kind_of(next, rest));
    let lives = &mut sheet.lives;
    match show_move(alloc, source, walk, rest, number, next, lives, &mut shown) {
        Ok(Some(count)) => {
            sheet.moves.push(shown)?;
            Ok(Some(count))
        }
        other => {
            drop(shown);
            other
        }
    }
}

// Adds moves up to the first that cannot be made, after so many events.
fn push_moves(
    alloc: Global,
    source: &Source,
    walk: &mut Walk,
    trace: &[Expected],
    happened: usize,
    moves: &[Move],
    sheet: &mut Sheet,
) -> Result<(), AllocError> {
    let mut at = happened;
    for (index, next) in moves.iter().enumerate() {
        let rest = &trace[at.min(trace.len())..];
        let number = index.saturating_add(1);
        match push_move(alloc, source, walk, rest, number, next, sheet)? {
            None => return Ok(()),
            Some(count) => at = at.saturating_add(count),
        }
    }
    Ok(())
}

// Tells of the start along a trace.
fn tell_start(
    alloc: Global,
    source: &Source,
    system: &System,
    outs: &[Event],
    trace: &[Expected],
    lives: &mut Vec<Life>,
    shown: &mut ShownMove,
) -> Result<(), AllocError> {
    push_departures(alloc, source, outs, trace, &mut shown.effects)?;
    let waiting = system.queues.get().as_slice();
    push_arrivals(alloc, source, waiting, &mut shown.effects)?;
    push_begun(alloc, source, 0, 0, system, lives)?;
    push_births(alloc, lives, &mut shown.effects)
}

// Adds the start along a trace.
fn push_start(
    alloc: Global,
    source: &Source,
    system: &System,
    outs: &[Event],
    trace: &[Expected],
    sheet: &mut Sheet,
) -> Result<(), AllocError> {
    let mut shown = ShownMove::new(alloc, MoveKind::Start);
    let lives = &mut sheet.lives;
    match tell_start(alloc, source, system, outs, trace, lives, &mut shown) {
        Ok(()) => {
            sheet.moves.push(shown)?;
            Ok(())
        }
        Err(error) => {
            drop(shown);
            Err(error)
        }
    }
}

// Adds the start and the moves after it.
fn push_all(
    alloc: Global,
    source: &Source,
    walk: &mut Walk,
    outs: &[Event],
    trace: &[Expected],
    moves: &[Move],
    sheet: &mut Sheet,
) -> Result<(), AllocError> {
    push_start(alloc, source, &walk.system, outs, trace, sheet)?;
    push_moves(alloc, source, walk, trace, outs.len(), moves, sheet)
}

/// Adds the start of a specification and these moves along a trace, if it starts, up to the first
/// move that cannot be made.
pub(crate) fn push_run(
    alloc: Global,
    source: &Source,
    checked: &Checked,
    statements: u32,
    trace: &[Expected],
    moves: &[Move],
    sheet: &mut Sheet,
) -> Result<(), AllocError> {
    match Walk::start(alloc, checked, statements)? {
        Started::Fault(_) => Ok(()),
        Started::Limit => Ok(()),
        Started::Ready { world, outs } => {
            let mut walk = world;
            let done = push_all(
                alloc,
                source,
                &mut walk,
                outs.as_slice(),
                trace,
                moves,
                sheet,
            );
            drop(walk);
            drop(outs);
            done
        }
    }
}
