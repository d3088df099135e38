//! What is to stand at a place of a trace, by the tokens before it.

use crate::numbers::number_of;
use est_lexer::tokens::Tokens;
use est_syntax::ports::Direction;

/// An event that is read: its direction, and the place of the name of its port.
#[derive(Clone, Copy)]
pub(crate) struct Event {
    pub direction: Direction,
    pub port: u32,
}

/// What is to stand at a place. Of a list that is read it is known how many items are whole, and
/// how many brackets are open within it.
#[derive(Clone, Copy)]
pub(crate) enum Position {
    Trace,
    Version,
    Event,
    Time,
    Port(Direction),
    AfterPort(Event),
    Subscript {
        event: Event,
        whole: u32,
    },
    AfterSubscripts(Event),
    Signal(Event),
    AfterSignal {
        event: Event,
        signal: u32,
    },
    Value {
        event: Event,
        signal: u32,
        whole: u32,
        depth: u32,
    },
    End,
}

/// The bytes of the token of a place, and none after the last one.
pub(crate) fn spelled<'t>(tokens: &'t Tokens, place: u32) -> &'t [u8] {
    if place < tokens.count() {
        tokens.spelled(place)
    } else {
        &[]
    }
}

/// Whether an item of a list is to stand at a place, or the rest of one: none after a whole one.
pub(crate) fn wants_item(tokens: &Tokens, place: u32) -> bool {
    match spelled(tokens, place.saturating_sub(1)) {
        [b'(' | b'[' | b',' | b'+' | b'-'] => true,
        _ => false,
    }
}

/// Whether the token of a place is this word or symbol.
pub(crate) fn is_word(tokens: &Tokens, place: u32, word: &[u8]) -> bool {
    word.eq_ignore_ascii_case(spelled(tokens, place))
}

// What comes after the first token of an event, or after the end.
fn after_first(tokens: &Tokens, place: u32) -> Position {
    if is_word(tokens, place, b"in") {
        Position::Port(Direction::Receives)
    } else if is_word(tokens, place, b"out") {
        Position::Port(Direction::Sends)
    } else if is_word(tokens, place, b"time") {
        Position::Time
    } else {
        Position::End
    }
}

// What comes after a token within subscripts.
fn after_subscript(tokens: &Tokens, place: u32, event: Event, whole: u32) -> Position {
    if is_word(tokens, place, b"]") {
        Position::AfterSubscripts(event)
    } else if is_word(tokens, place, b",") {
        Position::Subscript {
            event,
            whole: whole.saturating_add(1),
        }
    } else {
        Position::Subscript { event, whole }
    }
}

// How many brackets are open after a token.
fn depth_after(tokens: &Tokens, place: u32, depth: u32) -> u32 {
    if is_word(tokens, place, b"(") || is_word(tokens, place, b"[") {
        depth.saturating_add(1)
    } else if is_word(tokens, place, b")") || is_word(tokens, place, b"]") {
        depth.saturating_sub(1)
    } else {
        depth
    }
}

// What comes after a token within values.
fn after_value(
    tokens: &Tokens,
    place: u32,
    event: Event,
    signal: u32,
    whole: u32,
    depth: u32,
) -> Position {
    if depth == 0 && is_word(tokens, place, b")") {
        return Position::Event;
    }
    let is_next = depth == 0 && is_word(tokens, place, b",");
    Position::Value {
        event,
        signal,
        whole: if is_next {
            whole.saturating_add(1)
        } else {
            whole
        },
        depth: depth_after(tokens, place, depth),
    }
}

// What comes after the token of a place that stands where this is to stand.
fn after(tokens: &Tokens, place: u32, position: Position) -> Position {
    match position {
        Position::Trace => Position::Version,
        Position::Version => Position::Event,
        Position::Event => after_first(tokens, place),
        Position::Time => Position::Event,
        Position::Port(direction) => Position::AfterPort(Event {
            direction,
            port: place,
        }),
        Position::AfterPort(event) if is_word(tokens, place, b"[") => {
            Position::Subscript { event, whole: 0 }
        }
        Position::AfterPort(event) => Position::Signal(event),
        Position::Subscript { event, whole } => after_subscript(tokens, place, event, whole),
        Position::AfterSubscripts(event) => Position::Signal(event),
        Position::Signal(event) => Position::AfterSignal {
            event,
            signal: place,
        },
        Position::AfterSignal { event, signal } if is_word(tokens, place, b"(") => {
            Position::Value {
                event,
                signal,
                whole: 0,
                depth: 0,
            }
        }
        Position::AfterSignal {
            event: _,
            signal: _,
        } => after_first(tokens, place),
        Position::Value {
            event,
            signal,
            whole,
            depth,
        } => after_value(tokens, place, event, signal, whole, depth),
        Position::End => Position::End,
    }
}

/// What is to stand at a place of a trace before which no token is refused.
pub(crate) fn position_of(tokens: &Tokens, place: u32) -> Position {
    let mut position = Position::Trace;
    for at in 0..place {
        position = after(tokens, at, position);
    }
    position
}

// Whether an event begins with the token after which this is to stand.
fn is_begun(position: Position) -> bool {
    match position {
        Position::Port(_) => true,
        Position::Time => true,
        _ => false,
    }
}

// The version of a trace, if it has a number.
fn version_of(tokens: &Tokens) -> Option<i64> {
    number_of(spelled(tokens, 1))
}

/// Whether `?` may stand for a value in the events of a trace that go this way: what leaves may be
/// seen in part in a trace of version 2 or 3.
pub(crate) fn may_be_unseen(tokens: &Tokens, direction: Direction) -> bool {
    match direction {
        Direction::Sends => matches!(version_of(tokens), Some(2 | 3)),
        Direction::Receives => false,
    }
}

/// Whether `quiet` may stand after the end of a trace: it may in version 3.
pub(crate) fn may_end_quiet(tokens: &Tokens) -> bool {
    matches!(version_of(tokens), Some(3))
}

/// The place of the first token of an event, by its number from 0, of a trace that is read well; or
/// that of the last token, where there are fewer events.
pub fn place_of_event(tokens: &Tokens, number: usize) -> u32 {
    let mut position = Position::Trace;
    let mut begun: usize = 0;
    for at in 0..tokens.count() {
        position = after(tokens, at, position);
        if is_begun(position) {
            if begun == number {
                return at;
            }
            begun = begun.saturating_add(1);
        }
    }
    tokens.count().saturating_sub(1)
}
