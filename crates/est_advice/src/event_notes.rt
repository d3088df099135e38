//! The notes on the event at which a trace is refused, or which no run reached that was tried.
ghost use Rattle.est_meaning.specs.AllowedEvents.{IsAllowedTrace};

use crate::event_texts::{expected_text, receives, text_of};
use crate::limit_notes::append_limits;
use crate::looked::Looked;
use crate::waiting::append_waiting;
use advice_tokens::note::append_note;
use est_meaning::answers::Started;
use est_replay::PlainWorld;
use run_notes::noted::Others;
use run_notes::other_events::{End, Found, next_events};
use std::alloc::{AllocError, Global};

const NOTHING: &str = "after the events before, nothing leaves within the limits until something \
    arrives or time passes";

const NOTHING_BUT_TIME: &str =
    "after the events before, nothing leaves within the limits until time passes";

/// Adds what is known of the first event of a trace that no run of a specification yields within
/// the limits, or that no run yields which is tried: what it is, what could stand in its place,
/// what is due at a quiet end, what waits before it, and which limit cut runs off. Of a trace that
/// is accepted it adds what waits at its end. It takes as long as the search for that event.
pub fn append_next(alloc: Global, looked: &Looked<'_>, notes: &mut String) -> Result<(), AllocError>
    requires { IsAllowedTrace looked.now.checked.now looked.now.trace.now }
{
    match found_of(alloc, looked)? {
        None => Ok(()),
        Some(found) => append_found(alloc, looked, &found, notes),
    }
}

// How the search for a run that explains the trace ends, and what is known of its runs, where the
// specification starts.
fn found_of(alloc: Global, looked: &Looked<'_>) -> Result<Option<Found>, AllocError>
    requires { IsAllowedTrace looked.now.checked.now looked.now.trace.now }
{
    match PlainWorld::start(alloc, looked.checked, looked.limits.statements)? {
        Started::Ready { world, outs } => {
            let found = next_events(alloc, world, outs.as_slice(), looked.trace, looked.limits);
            drop(outs);
            found
        }
        Started::Fault(_) => Ok(None),
        Started::Limit => Ok(None),
    }
}

// Adds what was found.
fn append_found(
    alloc: Global,
    looked: &Looked<'_>,
    found: &Found,
    notes: &mut String,
) -> Result<(), AllocError> {
    if found.end != End::Accepted {
        append_event(alloc, looked, found, notes)?;
        append_others(alloc, looked, found, notes)?;
    }
    append_waiting(alloc, looked, found, notes)?;
    append_limits(alloc, looked, found, notes)
}

// What is said of a trace that ends quiet, as no run does that has its events.
fn quiet_note(alloc: Global, end: End, count: usize) -> Result<String, AllocError> {
    match end {
        End::Refused => format!(in alloc;
            "no run within the limits has just these {count} events and ends quiet"
        ),
        _ => format!(in alloc;
            "no run that was tried has just these {count} events and ends quiet"
        ),
    }
}

// What is said of a trace that the best runs yield, each of which sends something more.
fn end_note(alloc: Global, end: End, count: usize) -> Result<String, AllocError> {
    match end {
        End::Refused => format!(in alloc;
            "each run within the limits that yields all {count} events sends something more"
        ),
        _ => format!(in alloc;
            "runs that were tried yield all {count} events, and send something more"
        ),
    }
}

// What is said of an event, which is this text, after so many of so many.
fn event_note(
    alloc: Global,
    end: End,
    happened: usize,
    count: usize,
    text: &str,
) -> Result<String, AllocError> {
    let number = happened.saturating_add(1);
    match end {
        End::Refused => format!(in alloc;
            "event {number} of {count} is {text}, and no run within the limits yields it"
        ),
        _ => format!(in alloc;
            "event {number} of {count} is {text}, and no run that was tried yields it"
        ),
    }
}

// What is said of the event after those that the best runs yield.
fn note_of(alloc: Global, looked: &Looked<'_>, found: &Found) -> Result<String, AllocError> {
    let happened = found.others.happened;
    let events = looked.trace.events();
    let count = events.len();
    match events.get(happened) {
        None if looked.trace.is_quiet() => quiet_note(alloc, found.end, count),
        None => end_note(alloc, found.end, count),
        Some(expected) => {
            let text = expected_text(alloc, looked.checked.ports(), expected)?;
            event_note(alloc, found.end, happened, count, &text)
        }
    }
}

// Adds what the event is after those that the best runs yield.
fn append_event(
    alloc: Global,
    looked: &Looked<'_>,
    found: &Found,
    notes: &mut String,
) -> Result<(), AllocError> {
    let text = note_of(alloc, looked, found)?;
    append_note(alloc, notes, looked.spot(found.others.happened), &text)
}

// Adds what could stand in place of this event.
fn append_others(
    alloc: Global,
    looked: &Looked<'_>,
    found: &Found,
    notes: &mut String,
) -> Result<(), AllocError> {
    let others = &found.others;
    let is_quiet = looked.trace.is_quiet();
    let text = text_of(alloc, looked.checked.ports(), others, is_quiet)?;
    append_note(alloc, notes, looked.spot(others.happened), &text)?;
    if found.end != End::Refused || others.events.len() > 0 {
        return Ok(());
    }
    append_nothing(alloc, looked, others, notes)
}

// Adds that nothing leaves there.
fn append_nothing(
    alloc: Global,
    looked: &Looked<'_>,
    others: &Others,
    notes: &mut String,
) -> Result<(), AllocError> {
    let nothing = if receives(looked.checked.ports()) {
        NOTHING
    } else {
        NOTHING_BUT_TIME
    };
    append_note(alloc, notes, looked.spot(others.happened), nothing)
}
