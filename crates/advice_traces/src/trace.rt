//! The notes of a trace that is refused at a token.

use crate::kinds::{push_bytes, push_kind};
use crate::ports::{
    passes, port_of, push_ports, push_signals, signal_of, signals_at, subscripts_at,
};
use crate::position::{
    Event, Position, is_word, may_be_unseen, may_end_quiet, position_of, spelled, wants_item,
};
use crate::unseen::append_unseen;
use crate::values::push_within;
use crate::wider::append_wider;
use advice_tokens::bad_bytes::text_of_bytes;
use advice_tokens::note::append_note;
use advice_tokens::place::spot_of;
use est_check::Checked;
use est_lexer::kind::TokenKind;
use est_lexer::tokens::Tokens;
use est_syntax::kind::{Kind, MAXINT};
use est_syntax::ports::{Direction, Signal};
use rule_ports::ports::Ports;
use std::alloc::{AllocError, Global};

const FIRST: &str = "a trace begins with 'trace 1', 'trace 2' or 'trace 3'";

const NEXT: &str = "could stand here: 'in', 'out', 'time' or 'end'";

/// Adds what is known of the token of a place, or of the end of the text, where a trace of this
/// specification is refused: what it is, and what could stand there.
pub fn append_refused(
    alloc: Global,
    checked: &Checked,
    text: &[u8],
    tokens: &Tokens,
    place: u32,
    notes: &mut String,
) -> Result<(), AllocError> {
    append_token(alloc, "trace", text, tokens, place, notes)?;
    append_wanted(alloc, checked.ports(), tokens, place, notes)?;
    append_wider(alloc, checked.ports(), tokens, place, notes)?;
    append_unseen(alloc, tokens, place, notes)
}

// Adds what could stand at a place, and what is wrong with what does.
fn append_wanted(
    alloc: Global,
    ports: &Ports,
    tokens: &Tokens,
    place: u32,
    notes: &mut String,
) -> Result<(), AllocError> {
    let wanted = wanted_text(alloc, ports, tokens, place)?;
    if wanted.is_empty() {
        return Ok(());
    }
    append_note(alloc, notes, spot_of("trace", tokens, place), &wanted)
}

/// Adds what is known of the token with which an event too many begins.
pub fn append_too_many(
    alloc: Global,
    tokens: &Tokens,
    place: u32,
    notes: &mut String,
) -> Result<(), AllocError> {
    let spot = spot_of("trace", tokens, place);
    append_note(alloc, notes, spot, "a trace has at most 200000 events")
}

/// Adds that the text ends at a place, or that no token begins there, where it is so.
pub(crate) fn append_token(
    alloc: Global,
    file: &'static str,
    text: &[u8],
    tokens: &Tokens,
    place: u32,
    notes: &mut String,
) -> Result<(), AllocError> {
    let spot = spot_of(file, tokens, place);
    let Some(token) = tokens.token_at(place) else {
        return append_note(alloc, notes, spot, "the text ends here");
    };
    match token.kind {
        TokenKind::Bad => {
            append_note(
                alloc,
                notes,
                spot,
                text_of_bytes(text, token.start as usize),
            )
        }
        _ => Ok(()),
    }
}

// What could stand at a place, and what is wrong with what does.
fn wanted_text(
    alloc: Global,
    ports: &Ports,
    tokens: &Tokens,
    place: u32,
) -> Result<String, AllocError> {
    match position_of(tokens, place) {
        Position::Trace => String::from_str(alloc, FIRST),
        Position::Version => String::from_str(alloc, FIRST),
        Position::Event => String::from_str(alloc, NEXT),
        Position::Time => format!(in alloc; "could stand here: a number from 0 to {MAXINT}"),
        Position::Port(direction) => port_text(alloc, ports, spelled(tokens, place), direction),
        Position::AfterPort(event) => subscripts_text(alloc, ports, tokens, event),
        Position::Subscript { event, whole } => {
            let item = wanted_item(tokens, place, whole);
            subscript_text(alloc, ports, tokens, event, item)
        }
        Position::AfterSubscripts(_) => String::from_str(alloc, "could stand here: '.'"),
        Position::Signal(event) => signal_text(alloc, ports, tokens, event, place),
        Position::AfterSignal { event, signal } => {
            values_text(alloc, ports, tokens, event, signal, place)
        }
        Position::Value {
            event,
            signal,
            whole,
            depth: 0,
        } => {
            let item = wanted_item(tokens, place, whole);
            value_text(alloc, ports, tokens, event, signal, item)
        }
        Position::Value { event, signal, .. } => {
            within_text(alloc, ports, tokens, event, signal, place)
        }
        Position::End => String::from_str(alloc, end_text(tokens, place)),
    }
}

// What may stand at a place after the end.
fn end_text(tokens: &Tokens, place: u32) -> &'static str {
    let is_next = is_word(tokens, place.saturating_sub(1), b"end");
    if is_next && may_end_quiet(tokens) {
        "only 'quiet' stands after 'end'"
    } else if is_next && is_word(tokens, place, b"quiet") {
        "a trace that ends quiet begins with 'trace 3'"
    } else if is_next {
        "nothing stands after 'end'"
    } else {
        "nothing stands after 'quiet'"
    }
}

// What a port does in a direction.
fn does(direction: Direction) -> &'static str {
    match direction {
        Direction::Sends => "send",
        Direction::Receives => "receive",
    }
}

// Whether bytes are spelled as a name.
fn is_name(bytes: &[u8]) -> bool {
    match bytes {
        [first, ..] => first.is_ascii_alphabetic(),
        [] => false,
    }
}

// Adds the bytes of a name between quotes.
fn push_quoted(alloc: Global, text: &mut String, name: &[u8]) -> Result<(), AllocError> {
    text.push_str("'")?;
    push_bytes(alloc, text, name)?;
    text.push_str("'")
}

// What could stand in place of this for a port.
fn port_text(
    alloc: Global,
    ports: &Ports,
    name: &[u8],
    direction: Direction,
) -> Result<String, AllocError> {
    let mut text = String::new(alloc);
    if is_name(name) {
        push_no_port(alloc, &mut text, ports, name, direction)?;
    }
    text.push_str("ports that ")?;
    text.push_str(does(direction))?;
    text.push_str(": ")?;
    push_ports(alloc, &mut text, ports, direction)?;
    Ok(text)
}

// Adds why a name is that of no port in this direction.
fn push_no_port(
    alloc: Global,
    text: &mut String,
    ports: &Ports,
    name: &[u8],
    direction: Direction,
) -> Result<(), AllocError> {
    match port_of(ports, name) {
        None => {
            text.push_str("no port ")?;
            push_quoted(alloc, text, name)?;
        }
        Some(_) => {
            push_quoted(alloc, text, name)?;
            text.push_str(" does not ")?;
            text.push_str(does(direction))?;
        }
    }
    text.push_str("; ")
}

// The signals of the port of an event.
fn signals_of<'p>(ports: &'p Ports, tokens: &Tokens, event: Event) -> &'p [Signal] {
    match port_of(ports, spelled(tokens, event.port)) {
        None => &[],
        Some(port) => signals_at(ports, port),
    }
}

// The kinds of the subscripts of the port of an event.
fn subscripts_of<'p>(ports: &'p Ports, tokens: &Tokens, event: Event) -> &'p [Kind] {
    match port_of(ports, spelled(tokens, event.port)) {
        None => &[],
        Some(port) => subscripts_at(ports, port),
    }
}

// What could stand after the name of a port.
fn subscripts_text(
    alloc: Global,
    ports: &Ports,
    tokens: &Tokens,
    event: Event,
) -> Result<String, AllocError> {
    if subscripts_of(ports, tokens, event).is_empty() {
        String::from_str(alloc, "could stand here: '.'")
    } else {
        String::from_str(
            alloc,
            "could stand here: '[', with the subscripts of the port",
        )
    }
}

// Which item is to stand at a place in a list, after so many: none after an item that is whole.
fn wanted_item(tokens: &Tokens, place: u32, whole: u32) -> Option<u32> {
    if wants_item(tokens, place) {
        Some(whole)
    } else {
        None
    }
}

// What could stand for an item of the subscripts.
fn subscript_text(
    alloc: Global,
    ports: &Ports,
    tokens: &Tokens,
    event: Event,
    item: Option<u32>,
) -> Result<String, AllocError> {
    let kinds = subscripts_of(ports, tokens, event);
    let mut text = String::new(alloc);
    push_quoted(alloc, &mut text, spelled(tokens, event.port))?;
    push_item(alloc, &mut text, "subscript", kinds, item)?;
    Ok(text)
}

// Adds how many items a list has, and what the item after so many is, if one is to stand there.
fn push_item(
    alloc: Global,
    text: &mut String,
    word: &str,
    kinds: &[Kind],
    item: Option<u32>,
) -> Result<(), AllocError> {
    push_count(alloc, text, word, kinds.len())?;
    let Some(whole) = item else {
        return Ok(());
    };
    match kinds.get(whole as usize) {
        None => Ok(()),
        Some(kind) => push_values(alloc, text, word, whole.saturating_add(1), kind),
    }
}

// Adds how many items a list has.
fn push_count(alloc: Global, text: &mut String, word: &str, all: usize) -> Result<(), AllocError> {
    let ending = if all == 1 { "" } else { "s" };
    let count = format!(in alloc; " has {all} {word}{ending}")?;
    text.push_str(&count)
}

// Adds what the item of a number is.
fn push_values(
    alloc: Global,
    text: &mut String,
    word: &str,
    number: u32,
    kind: &Kind,
) -> Result<(), AllocError> {
    let item = format!(in alloc; "; {word} {number} is ")?;
    text.push_str(&item)?;
    push_kind(alloc, text, kind)
}

// What could stand for a signal.
fn signal_text(
    alloc: Global,
    ports: &Ports,
    tokens: &Tokens,
    event: Event,
    place: u32,
) -> Result<String, AllocError> {
    let signals = signals_of(ports, tokens, event);
    let port = spelled(tokens, event.port);
    let name = spelled(tokens, place);
    let mut text = String::new(alloc);
    if is_name(name) {
        push_no_signal(alloc, &mut text, signals, port, name, event.direction)?;
    }
    push_passing(alloc, &mut text, signals, port, event.direction)?;
    Ok(text)
}

// Adds which signals pass a port in a direction.
fn push_passing(
    alloc: Global,
    text: &mut String,
    signals: &[Signal],
    port: &[u8],
    direction: Direction,
) -> Result<(), AllocError> {
    push_quoted(alloc, text, port)?;
    text.push_str(" ")?;
    text.push_str(does(direction))?;
    text.push_str("s: ")?;
    push_signals(alloc, text, signals, direction)
}

// Adds why a name is that of no signal of a port in this direction.
fn push_no_signal(
    alloc: Global,
    text: &mut String,
    signals: &[Signal],
    port: &[u8],
    name: &[u8],
    direction: Direction,
) -> Result<(), AllocError> {
    push_quoted(alloc, text, port)?;
    match signal_of(signals, name) {
        Some(signal) if !passes(signal, direction) => {
            text.push_str(" does not ")?;
            text.push_str(does(direction))?;
            text.push_str(" ")?;
        }
        _ => text.push_str(" has no signal ")?,
    }
    push_quoted(alloc, text, name)?;
    text.push_str("; ")
}

/// The kinds of the values of a signal.
pub(crate) fn values_of<'p>(
    ports: &'p Ports,
    tokens: &Tokens,
    event: Event,
    signal: u32,
) -> &'p [Kind] {
    match signal_of(signals_of(ports, tokens, event), spelled(tokens, signal)) {
        None => &[],
        Some(signal) => signal.kinds.as_slice(),
    }
}

// What could stand at the place after a signal.
fn values_text(
    alloc: Global,
    ports: &Ports,
    tokens: &Tokens,
    event: Event,
    signal: u32,
    place: u32,
) -> Result<String, AllocError> {
    if !values_of(ports, tokens, event, signal).is_empty() {
        return value_text(alloc, ports, tokens, event, signal, Some(0));
    }
    let mut text = String::new(alloc);
    if spelled(tokens, place).starts_with(b"(") {
        push_quoted(alloc, &mut text, spelled(tokens, signal))?;
        text.push_str(" has no values; ")?;
    }
    text.push_str(NEXT)?;
    Ok(text)
}

// Adds that `?` could stand there too, if it could.
fn push_unseen(text: &mut String, is_value: bool) -> Result<(), AllocError> {
    if is_value {
        text.push_str(" or '?'")?;
    }
    Ok(())
}

// What could stand for an item of the values.
fn value_text(
    alloc: Global,
    ports: &Ports,
    tokens: &Tokens,
    event: Event,
    signal: u32,
    item: Option<u32>,
) -> Result<String, AllocError> {
    let kinds = values_of(ports, tokens, event, signal);
    let mut text = String::new(alloc);
    push_quoted(alloc, &mut text, spelled(tokens, signal))?;
    push_item(alloc, &mut text, "value", kinds, item)?;
    let is_value = match item {
        None => false,
        Some(whole) => (whole as usize) < kinds.len(),
    };
    push_unseen(
        &mut text,
        is_value && may_be_unseen(tokens, event.direction),
    )?;
    Ok(text)
}

// What could stand at a place within a value.
fn within_text(
    alloc: Global,
    ports: &Ports,
    tokens: &Tokens,
    event: Event,
    signal: u32,
    place: u32,
) -> Result<String, AllocError> {
    let kinds = values_of(ports, tokens, event, signal);
    let mut text = String::new(alloc);
    push_quoted(alloc, &mut text, spelled(tokens, signal))?;
    push_count(alloc, &mut text, "value", kinds.len())?;
    let is_part = push_within(alloc, &mut text, tokens, kinds, signal, place)?;
    push_unseen(&mut text, is_part && may_be_unseen(tokens, event.direction))?;
    Ok(text)
}
