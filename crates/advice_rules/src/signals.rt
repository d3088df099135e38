//! What is sent and received at an interaction point.

use crate::members::append_members;
use crate::owner::Owner;
use crate::selected::follows;
use advice_lines::declared::append_side;
use advice_lines::lines::{Mark, append_token, begin_line};
use est_lexer::tokens::Tokens;
use est_syntax::channel::Role;
use est_syntax::ports::Direction;
use rule_scope::declaration::{Member, Senders, Side};
use rule_scope::outline::Outline;
use std::alloc::AllocError;

// Whether a role sends an interaction, and whether it receives it.
fn ways(role: Role, senders: Senders) -> (bool, bool) {
    match role {
        Role::First => (senders.first, senders.second),
        Role::Second => (senders.second, senders.first),
    }
}

/// Whether an interaction passes a side this way.
pub(crate) fn passes(outline: &Outline, direction: Direction, side: Side, declared: u32) -> bool {
    let Some(Member::Interaction(senders)) = outline.member(declared) else {
        return false;
    };
    let (sends, receives) = ways(side.role, senders);
    match direction {
        Direction::Sends => sends,
        Direction::Receives => receives,
    }
}

// What an interaction point does that passes interactions this way, what it does not, and the other
// way.
fn verbs(direction: Direction) -> (&'static str, &'static str, Direction) {
    match direction {
        Direction::Sends => (" sends", "does not send it\n", Direction::Receives),
        Direction::Receives => (" receives", "does not receive it\n", Direction::Sends),
    }
}

/// The way of the interaction after the point at a place.
pub(crate) fn direction_at(tokens: &Tokens, point: u32) -> Direction {
    if follows(tokens, point, b"when") {
        Direction::Receives
    } else {
        Direction::Sends
    }
}

// Adds a line on what an interaction point sends or receives.
fn append_signals(
    tokens: &Tokens,
    outline: &Outline,
    direction: Direction,
    point: u32,
    side: Side,
    place: u32,
    notes: &mut String,
) -> Result<(), AllocError> {
    let owner = Owner::Signals {
        point,
        direction,
        side,
    };
    begin_line(tokens, Mark::Note, place, notes)?;
    append_token(tokens, point, notes)?;
    notes.push_str(", which is ")?;
    append_side(tokens, outline, side, notes)?;
    let (verb, _, _) = verbs(direction);
    notes.push_str(",")?;
    notes.push_str(verb)?;
    append_members(tokens, outline, owner, notes)
}

// Adds lines on an interaction that does not pass a point this way.
fn append_direction(
    tokens: &Tokens,
    outline: &Outline,
    direction: Direction,
    point: u32,
    side: Side,
    declared: u32,
    place: u32,
    notes: &mut String,
) -> Result<(), AllocError> {
    let (_, no_verb, other) = verbs(direction);
    let (verb, _, _) = verbs(other);
    begin_line(tokens, Mark::Note, place, notes)?;
    append_token(tokens, point, notes)?;
    if passes(outline, other, side, declared) {
        notes.push_str(verb)?;
        notes.push_str(" ")?;
        append_token(tokens, place, notes)?;
        notes.push_str(", and")?;
    }
    notes.push_str(" ")?;
    notes.push_str(no_verb)?;
    append_signals(tokens, outline, direction, point, side, place, notes)
}

/// Adds lines on the interaction at a place, after the name of a point and a period: what the point
/// passes this way, where it does not pass this one, which may stand at another place.
pub(crate) fn append_signal(
    tokens: &Tokens,
    outline: &Outline,
    direction: Direction,
    point: u32,
    side: Side,
    declared: Option<u32>,
    place: u32,
    notes: &mut String,
) -> Result<(), AllocError> {
    let Some(declared) = declared else {
        return append_signals(tokens, outline, direction, point, side, place, notes);
    };
    if passes(outline, direction, side, declared) {
        return Ok(());
    }
    append_direction(
        tokens, outline, direction, point, side, declared, place, notes,
    )
}
