//! Traces, written.
ghost use Rattle.std.specs.Prelude.{◌≡◌, ◌++◌, OnOk, IfOk};
ghost use Rattle.std.specs.List.{list_all};
ghost use Rattle.est_trace.specs.WrittenTraces.{trace_text, head_line, end_line, event_line};
ghost use Rattle.est_trace.specs.WrittenTraces.{is_known};
ghost use Rattle.est_trace.specs.WrittenTraces.{happening, expectation};

use crate::written_ports::{append_interaction, append_seen_departure};
use est_meaning::event::Event;
use est_meaning::trace::{Expected, Trace};
use rule_ports::ports::Ports;
use std::alloc::{AllocError, Global};
use text_values::written_numbers::append_number;

/// The canonical text of a trace at these ports. Errs where memory runs out.
pub fn write_trace(alloc: Global, ports: &Ports, trace: &Trace) -> Result<Vec<u8>, AllocError>
    ensures { IfOk result (λ text. text.items ≡ trace_text ports.now trace.now) }
{
    let mut text = Vec::new(alloc);
    append_trace(
        alloc,
        &mut text,
        ports,
        trace.events().as_slice(),
        trace.is_quiet(),
    )?;
    Ok(text)
}

// Adds the canonical text of the trace of these events, which may end quiet.
fn append_trace(
    alloc: Global,
    text: &mut Vec<u8>,
    ports: &Ports,
    events: &[Expected],
    quiet: bool,
) -> Result<(), AllocError>
    ensures { OnOk result (text.new.items ≡ text.old.items
        ++ trace_text ports.now (record { events = events.now; quiet = quiet })) }
{
    append_head(text, events, quiet)?;
    for event in events {
        append_event(alloc, text, ports, event)?;
    }
    append_end(text, quiet)
}

// Adds the first line of a trace: version 3 where it ends quiet, else version 1 where all its events
// are known, else version 2.
fn append_head(text: &mut Vec<u8>, events: &[Expected], quiet: bool) -> Result<(), AllocError>
    ensures { OnOk result (text.new.items ≡ text.old.items
        ++ head_line (record { events = events.now; quiet = quiet })) }
{
    if quiet {
        text.extend_from_slice(b"trace 3\n")
    } else if are_known(events) {
        text.extend_from_slice(b"trace 1\n")
    } else {
        text.extend_from_slice(b"trace 2\n")
    }
}

// Adds the last line of a trace.
fn append_end(text: &mut Vec<u8>, quiet: bool) -> Result<(), AllocError>
    ensures { OnOk result (text.new.items ≡ text.old.items ++ end_line quiet) }
{
    if quiet {
        text.extend_from_slice(b"end quiet\n")
    } else {
        text.extend_from_slice(b"end\n")
    }
}

// Whether all of these events are known.
fn are_known(events: &[Expected]) -> bool
    ensures { result ≡ list_all is_known events.now }
{
    for event in events {
        if !is_known(event) {
            return false;
        }
    }
    true
}

// Whether an event is known.
fn is_known(event: &Expected) -> bool
    ensures { result ≡ is_known event.now }
{
    match event {
        Expected::Known(_) => true,
        Expected::Partly {
            port: _,
            signal: _,
            seen: _,
        } => false,
    }
}

// Adds the line of an event.
fn append_event(
    alloc: Global,
    text: &mut Vec<u8>,
    ports: &Ports,
    event: &Expected,
) -> Result<(), AllocError>
    ensures { OnOk result (text.new.items ≡ text.old.items ++ event_line ports.now event.now) }
{
    append_expectation(alloc, text, ports, event)?;
    text.extend_from_slice(b"\n")
}

/// Adds what an event is that is expected to a text. Where memory runs out, no clause says what the
/// text holds.
pub fn append_expectation(
    alloc: Global,
    text: &mut Vec<u8>,
    ports: &Ports,
    expected: &Expected,
) -> Result<(), AllocError>
    ensures { OnOk result (text.new.items
        ≡ text.old.items ++ expectation ports.now expected.now) }
{
    match expected {
        Expected::Known(event) => append_happening(alloc, text, ports, event),
        Expected::Partly { port, signal, seen } => {
            text.extend_from_slice(b"out ")?;
            append_seen_departure(alloc, text, ports, *port, *signal, seen)
        }
    }
}

/// Adds what an event is to a text. Where memory runs out, no clause says what the text holds.
pub fn append_happening(
    alloc: Global,
    text: &mut Vec<u8>,
    ports: &Ports,
    event: &Event,
) -> Result<(), AllocError>
    ensures { OnOk result (text.new.items ≡ text.old.items ++ happening ports.now event.now) }
{
    match event {
        Event::Arrives(interaction) => {
            text.extend_from_slice(b"in ")?;
            append_interaction(alloc, text, ports, interaction)
        }
        Event::Leaves(interaction) => {
            text.extend_from_slice(b"out ")?;
            append_interaction(alloc, text, ports, interaction)
        }
        Event::Passes(units) => {
            text.extend_from_slice(b"time ")?;
            append_number(text, *units)
        }
    }
}
