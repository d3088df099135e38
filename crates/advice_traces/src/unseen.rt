//! What `?` stands for in a trace, where it is refused.

use crate::position::{Position, is_word, may_be_unseen, position_of, spelled};
use advice_tokens::note::append_note;
use advice_tokens::place::spot_of;
use est_lexer::tokens::Tokens;
use est_syntax::ports::Direction;
use std::alloc::{AllocError, Global};

const RECEIVED: &str = "'?' stands for no value of an 'in': what arrives is known";

const SUBSCRIPT: &str = "'?' stands for no subscript of a port";

const MEMBER: &str = "'?' stands for a whole set, and for no member of one";

const VERSION: &str = "in a trace that begins with 'trace 2' a '?' stands for a value that was not \
    seen";

// Whether an item of a list begins at a place.
fn begins_item(tokens: &Tokens, place: u32) -> bool {
    matches!(
        spelled(tokens, place.saturating_sub(1)),
        [b'(' | b'[' | b',']
    )
}

// Whether the innermost bracket that is open at a place within the values of a signal is that of a
// set.
fn is_in_set(tokens: &Tokens, place: u32) -> bool {
    let mut closed: u32 = 0;
    for back in 1..place {
        match spelled(tokens, place.saturating_sub(back)) {
            [b')' | b']'] => closed = closed.saturating_add(1),
            [b'(' | b'['] if closed > 0 => closed = closed.saturating_sub(1),
            [b'['] => return true,
            [b'('] => return false,
            _ => {}
        }
    }
    false
}

// What is said of `?` at a place where a value of an event of this direction is to stand.
fn value_text(tokens: &Tokens, place: u32, direction: Direction) -> Option<&'static str> {
    if !begins_item(tokens, place) {
        return None;
    }
    match direction {
        Direction::Receives => Some(RECEIVED),
        Direction::Sends if !may_be_unseen(tokens, direction) => Some(VERSION),
        Direction::Sends if is_in_set(tokens, place) => Some(MEMBER),
        Direction::Sends => None,
    }
}

// What is said of `?` at a place.
fn text_of(tokens: &Tokens, place: u32) -> Option<&'static str> {
    match position_of(tokens, place) {
        Position::Value { event, .. } => value_text(tokens, place, event.direction),
        Position::Subscript { .. } => Some(SUBSCRIPT),
        _ => None,
    }
}

/// Adds why `?` is refused at a place, if it stands there and that is known.
pub(crate) fn append_unseen(
    alloc: Global,
    tokens: &Tokens,
    place: u32,
    notes: &mut String,
) -> Result<(), AllocError> {
    if !is_word(tokens, place, b"?") {
        return Ok(());
    }
    match text_of(tokens, place) {
        None => Ok(()),
        Some(text) => append_note(alloc, notes, spot_of("trace", tokens, place), text),
    }
}
