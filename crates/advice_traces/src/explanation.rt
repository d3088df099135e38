//! The notes of an explanation that is refused at a token, or claims less than it could.

use crate::position::spelled;
use crate::trace::append_token;
use advice_tokens::note::append_note;
use advice_tokens::place::spot_of;
use est_explanation::explanation::Explanation;
use est_lexer::tokens::Tokens;
use std::alloc::{AllocError, Global};

// What is to stand at a place of an explanation: of a firing it is known how many numbers are
// missing.
#[derive(Clone, Copy)]
enum Position {
    Explanation,
    Version,
    Move,
    Firing { missing: u32 },
    Claim,
    End,
}

// What comes after the first word of a move, or after `yields`.
fn after_move(word: &[u8]) -> Position {
    if word.eq_ignore_ascii_case(b"fire") {
        Position::Firing { missing: 3 }
    } else if word.eq_ignore_ascii_case(b"take") {
        Position::Move
    } else {
        Position::Claim
    }
}

// What comes after a token that stands where this is to stand.
fn after(word: &[u8], position: Position) -> Position {
    match position {
        Position::Explanation => Position::Version,
        Position::Version => Position::Move,
        Position::Move => after_move(word),
        Position::Firing { missing } if missing > 1 => Position::Firing {
            missing: missing - 1,
        },
        Position::Firing { missing: _ } => Position::Move,
        Position::Claim => Position::End,
        Position::End => Position::End,
    }
}

// What is to stand at a place of an explanation before which no token is refused.
fn position_of(tokens: &Tokens, place: u32) -> Position {
    let mut position = Position::Explanation;
    for at in 0..place {
        position = after(spelled(tokens, at), position);
    }
    position
}

// What could stand there.
fn wanted_text(position: Position) -> &'static str {
    match position {
        Position::Explanation => "an explanation begins with 'explanation 1'",
        Position::Version => "an explanation begins with 'explanation 1'",
        Position::Move => "could stand here: 'take', 'fire' or 'yields'",
        Position::Firing { missing: 3 } =>
            "could stand here: the number of an instance, to 999999999",
        Position::Firing { missing: 2 } =>
            "could stand here: the number of a transition, to 999999999",
        Position::Firing { missing: _ } => "could stand here: the number of a choice, to 999999999",
        Position::Claim => "could stand here: a number of events, to 200001",
        Position::End => "nothing stands after the number of events",
    }
}

/// Adds what is known of the token of a place, or of the end of the text, where an explanation is
/// refused: what it is, and what could stand there.
pub fn append_refused(
    alloc: Global,
    text: &[u8],
    tokens: &Tokens,
    place: u32,
    notes: &mut String,
) -> Result<(), AllocError> {
    append_token(alloc, "explanation", text, tokens, place, notes)?;
    let spot = spot_of("explanation", tokens, place);
    append_note(alloc, notes, spot, wanted_text(position_of(tokens, place)))
}

/// Adds how the whole trace of so many events is claimed, where an explanation claims just these
/// events, whatever comes after them.
pub fn append_claim(
    alloc: Global,
    tokens: &Tokens,
    explanation: &Explanation,
    events: usize,
    notes: &mut String,
) -> Result<(), AllocError> {
    if explanation.claim as usize != events {
        return Ok(());
    }
    let all = explanation.claim.saturating_add(1);
    let text = format!(in alloc; "to claim the whole trace write 'yields {all}'")?;
    let spot = spot_of("explanation", tokens, tokens.count().saturating_sub(1));
    append_note(alloc, notes, spot, &text)
}
