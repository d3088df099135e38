//! What comes after the moves of a run that yields a part of a trace.
ghost use Rattle.est_meaning.specs.AllowedEvents.{IsAllowedTrace};

use crate::texts::{event_text, expected_text};
use advice_lines::sheet::Ending;
use call_files::est_check::Checked;
use est_meaning::answers::Started;
use est_meaning::event::Event;
use est_meaning::run::Limits;
use est_meaning::trace::Trace;
use est_replay::PlainWorld;
use rule_ports::ports::Ports;
use run_notes::noted::Others;
use run_notes::other_events::{End, Found, next_events};
use std::alloc::{AllocError, Global};

// So many firings are tried at most to find what could have come.
const MOST_TRIED: u32 = 100_000;

// So many events are told at most that could have come.
const MOST_TOLD: usize = 8;

// How a search along a trace ends, where the specification starts.
fn found_of(
    alloc: Global,
    checked: &Checked,
    trace: &Trace,
    limits: &Limits,
) -> Result<Option<Found>, AllocError>
    requires { IsAllowedTrace checked.now trace.now }
{
    match PlainWorld::start(alloc, checked, limits.statements)? {
        Started::Ready { world, outs } => {
            let found = next_events(alloc, world, outs.as_slice(), trace, limits);
            drop(outs);
            found
        }
        Started::Fault(_) => Ok(None),
        Started::Limit => Ok(None),
    }
}

// Adds the events that could have come.
fn push_events(
    alloc: Global,
    ports: &Ports,
    events: &[Event],
    wanted: &mut Vec<String>,
) -> Result<(), AllocError> {
    for event in events.iter().take(MOST_TOLD) {
        let text = event_text(alloc, ports, event)?;
        let line = format!(in alloc; "could come: {text}")?;
        wanted.push(line)?;
    }
    Ok(())
}

// What could have come, along a trace that ends quiet or does not.
fn wanted_of(
    alloc: Global,
    ports: &Ports,
    others: &Others,
    is_quiet: bool,
) -> Result<Vec<String>, AllocError> {
    let mut wanted = Vec::new(alloc);
    push_events(alloc, ports, others.events.as_slice(), &mut wanted)?;
    if others.events.len() > MOST_TOLD {
        wanted.push(String::from_str(alloc, "could come: ..")?)?;
    }
    if others.is_end {
        let line = if is_quiet {
            "could come: in, time or 'end' without 'quiet'"
        } else {
            "could come: in, time or end"
        };
        wanted.push(String::from_str(alloc, line)?)?;
    }
    Ok(wanted)
}

// What is said of the event after so many, or of the end, with a word before it.
fn text_of(
    alloc: Global,
    ports: &Ports,
    trace: &Trace,
    happened: usize,
    word: &str,
) -> Result<String, AllocError> {
    let Some(expected) = trace.events().get(happened) else {
        let end = if trace.is_quiet() {
            "the quiet end"
        } else {
            "the end of the trace"
        };
        return format!(in alloc; "{word}: {end}");
    };
    let text = expected_text(alloc, ports, expected)?;
    let number = happened.saturating_add(1);
    format!(in alloc; "{word}: event {number}, {text}")
}

// What comes after so many events of a trace, where this could have come in place of the next one.
fn refused_ending(
    alloc: Global,
    ports: &Ports,
    trace: &Trace,
    others: &Others,
) -> Result<Option<Ending>, AllocError> {
    let event = text_of(alloc, ports, trace, others.happened, "refused")?;
    match wanted_of(alloc, ports, others, trace.is_quiet()) {
        Ok(wanted) => Ok(Some(Ending {
            event,
            is_refused: true,
            wanted,
        })),
        Err(error) => {
            drop(event);
            Err(error)
        }
    }
}

// The same where nothing is known of what could have come; nothing after the last event.
fn plain_ending(
    alloc: Global,
    ports: &Ports,
    trace: &Trace,
    happened: usize,
) -> Result<Option<Ending>, AllocError> {
    if happened >= trace.events().len() {
        return Ok(None);
    }
    let event = text_of(alloc, ports, trace, happened, "next")?;
    Ok(Some(Ending {
        event,
        is_refused: false,
        wanted: Vec::new(alloc),
    }))
}

// Whether a search refuses a trace after so many events.
fn is_refused(found: &Found, happened: usize) -> bool {
    found.end == End::Refused && found.others.happened == happened
}

/// What comes after so many events of a trace: the next one, which is refused where no run within
/// the limits yields it, and what could have come in its place then.
pub(crate) fn ending_of(
    alloc: Global,
    checked: &Checked,
    trace: &Trace,
    happened: usize,
    limits: &Limits,
) -> Result<Option<Ending>, AllocError>
    requires { IsAllowedTrace checked.now trace.now }
{
    let few = Limits {
        silent: limits.silent,
        budget: limits.budget.min(MOST_TRIED),
        statements: limits.statements,
    };
    let found = found_of(alloc, checked, trace, &few)?;
    let ports = checked.ports();
    match &found {
        Some(found) if is_refused(found, happened) => {
            refused_ending(alloc, ports, trace, &found.others)
        }
        _ => plain_ending(alloc, ports, trace, happened),
    }
}
