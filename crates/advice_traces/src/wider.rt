//! Values of a trace that their types do not take, though a device may send them.

use crate::numbers::number_of;
use crate::position::{Event, Position, position_of, spelled, wants_item};
use crate::trace::values_of;
use crate::values::kind_within;
use advice_tokens::note::append_note;
use advice_tokens::place::spot_of;
use est_lexer::kind::TokenKind;
use est_lexer::tokens::Tokens;
use est_syntax::kind::{Kind, MAXINT};
use est_syntax::ports::Direction;
use rule_ports::ports::Ports;
use std::alloc::{AllocError, Global};

const BEGIN: &str = "if a device sent this, it sent an illegal value: let the type";

const END: &str = "and the trace is refused";

// Whether the token of a place is a minus.
fn is_minus(tokens: &Tokens, place: u32) -> bool {
    matches!(spelled(tokens, place), [b'-'])
}

// The number at a place, which a minus there or before it makes negative.
fn number_at(tokens: &Tokens, place: u32) -> Option<i64> {
    if is_minus(tokens, place) {
        let number = number_of(spelled(tokens, place.saturating_add(1)))?;
        return 0i64.checked_sub(number);
    }
    let number = number_of(spelled(tokens, place))?;
    if is_minus(tokens, place.saturating_sub(1)) {
        0i64.checked_sub(number)
    } else {
        Some(number)
    }
}

// What is said of a number that a range does not take, where a wider one can.
fn range_text(
    alloc: Global,
    low: i32,
    high: i32,
    number: i64,
) -> Result<Option<String>, AllocError> {
    let (low, high) = (i64::from(low), i64::from(high));
    let most = i64::from(MAXINT);
    if number < 0i64.saturating_sub(most) || number > most || low <= number && number <= high {
        return Ok(None);
    }
    let (low, high) = (low.min(number), high.max(number));
    let text = format!(in alloc; "{BEGIN} be wider, as {low}..{high}, {END}")?;
    Ok(Some(text))
}

// What is said of a name that an enumeration does not have.
fn name_text(alloc: Global, tokens: &Tokens, place: u32) -> Result<Option<String>, AllocError> {
    match tokens.token_at(place) {
        Some(token) if token.kind == TokenKind::Identifier => {
            let text = format!(in alloc; "{BEGIN} have this constant too, {END}")?;
            Ok(Some(text))
        }
        _ => Ok(None),
    }
}

// What is said of a value at a place that is none of a kind.
fn wider_text(
    alloc: Global,
    tokens: &Tokens,
    place: u32,
    kind: &Kind,
) -> Result<Option<String>, AllocError> {
    match kind {
        Kind::Enumeration { .. } => name_text(alloc, tokens, place),
        Kind::Part { host, low, high } => match host.get() {
            Kind::Enumeration { .. } => name_text(alloc, tokens, place),
            Kind::Integer => match number_at(tokens, place) {
                None => Ok(None),
                Some(number) => range_text(alloc, *low, *high, number),
            },
            _ => Ok(None),
        },
        _ => Ok(None),
    }
}

// The same of a value of a signal of an event.
fn value_text(
    alloc: Global,
    ports: &Ports,
    tokens: &Tokens,
    event: Event,
    signal: u32,
    place: u32,
) -> Result<Option<String>, AllocError> {
    if !wants_item(tokens, place) {
        return Ok(None);
    }
    let kinds = values_of(ports, tokens, event, signal);
    match kind_within(alloc, tokens, kinds, signal, place)? {
        None => Ok(None),
        Some(kind) => wider_text(alloc, tokens, place, kind),
    }
}

// What is said of the token of a place, where a value of what is sent is to stand.
fn text_of(
    alloc: Global,
    ports: &Ports,
    tokens: &Tokens,
    place: u32,
) -> Result<Option<String>, AllocError> {
    match position_of(tokens, place) {
        Position::Value { event, signal, .. } => match event.direction {
            Direction::Sends => value_text(alloc, ports, tokens, event, signal, place),
            Direction::Receives => Ok(None),
        },
        _ => Ok(None),
    }
}

/// Adds that the value at a place is an illegal one, where it is sent and its type does not take
/// it, and how the type can take it.
pub(crate) fn append_wider(
    alloc: Global,
    ports: &Ports,
    tokens: &Tokens,
    place: u32,
    notes: &mut String,
) -> Result<(), AllocError> {
    match text_of(alloc, ports, tokens, place)? {
        None => Ok(()),
        Some(text) => append_note(alloc, notes, spot_of("trace", tokens, place), &text),
    }
}
