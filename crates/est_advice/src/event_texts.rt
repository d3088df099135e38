//! The events that could leave, in words.

use advice_tokens::note::printed;
use call_files::est_trace::written_trace::{append_expectation, append_happening};
use est_meaning::event::Event;
use est_meaning::trace::Expected;
use est_syntax::ports::Signals;
use rule_ports::ports::Ports;
use run_notes::noted::Others;
use std::alloc::{AllocError, Global};

// So many events are told at most, and so many characters of each.
const MOST_TOLD: usize = 8;

const MOST_CHARACTERS: usize = 160;

// So many ports are looked at for what may arrive.
const MOST_PORTS: u32 = 100_000;

const BEGIN: &str = "could stand here: ";

// Adds what could stand there, after a comma where something stands before it.
fn push_item(text: &mut String, item: &str) -> Result<(), AllocError> {
    if text.len() > BEGIN.len() {
        text.push_str(", ")?;
    }
    text.push_str(item)
}

// A line in quotes, or how it begins where it is long.
fn quoted(alloc: Global, line: &[u8]) -> Result<String, AllocError> {
    let shown = printed(alloc, &line[..line.len().min(MOST_CHARACTERS)])?;
    let dots = if line.len() > MOST_CHARACTERS {
        ".."
    } else {
        ""
    };
    format!(in alloc; "'{shown}{dots}'")
}

/// An event that is expected in quotes, as its trace has it, or how it begins where it is long.
pub(crate) fn expected_text(
    alloc: Global,
    ports: &Ports,
    expected: &Expected,
) -> Result<String, AllocError> {
    let mut text = Vec::new(alloc);
    append_expectation(alloc, &mut text, ports, expected)?;
    quoted(alloc, &text)
}

// Adds an event in quotes, as traces write it, or how it begins where it is long.
fn push_event(
    alloc: Global,
    ports: &Ports,
    event: &Event,
    text: &mut String,
) -> Result<(), AllocError> {
    let mut line = Vec::new(alloc);
    append_happening(alloc, &mut line, ports, event)?;
    let item = quoted(alloc, &line)?;
    push_item(text, &item)
}

// Adds the events, as traces write them.
fn push_events(
    alloc: Global,
    ports: &Ports,
    others: &Others,
    text: &mut String,
) -> Result<(), AllocError> {
    for event in others.events.as_slice().iter().take(MOST_TOLD) {
        push_event(alloc, ports, event, text)?;
    }
    Ok(())
}

// Adds how many events are left out, if some are.
fn push_more(alloc: Global, others: &Others, text: &mut String) -> Result<(), AllocError> {
    let left_out = others.events.len().saturating_sub(MOST_TOLD);
    if left_out == 0 {
        return Ok(());
    }
    let than = if others.are_more { "more than " } else { "" };
    let item = format!(in alloc; "{than}{left_out} other 'out'")?;
    push_item(text, &item)
}

// Whether one of these signals is received.
fn is_received(signals: &Signals) -> bool {
    for signal in signals.as_slice() {
        if signal.receives {
            return true;
        }
    }
    false
}

/// Whether something may arrive: at one of the first ports, or there are more than are looked at.
pub(crate) fn receives(ports: &Ports) -> bool {
    for number in 0..MOST_PORTS {
        match ports.signals(number) {
            None => return false,
            Some(signals) => if is_received(signals) {
                return true;
            },
        }
    }
    true
}

// Adds what may stand wherever a run ends: in a trace that ends quiet an end that does not.
fn push_end(ports: &Ports, is_quiet: bool, text: &mut String) -> Result<(), AllocError> {
    let item = if receives(ports) {
        "'in', 'time' or 'end'"
    } else {
        "'time' or 'end'"
    };
    push_item(text, item)?;
    text.push_str(if is_quiet { " without 'quiet'" } else { "" })
}

/// The events that could leave along a trace that ends quiet or does not, and what may stand
/// wherever a run ends.
pub(crate) fn text_of(
    alloc: Global,
    ports: &Ports,
    others: &Others,
    is_quiet: bool,
) -> Result<String, AllocError> {
    let mut text = String::from_str(alloc, BEGIN)?;
    push_events(alloc, ports, others, &mut text)?;
    push_more(alloc, others, &mut text)?;
    if others.is_end {
        push_end(ports, is_quiet, &mut text)?;
    }
    Ok(text)
}
