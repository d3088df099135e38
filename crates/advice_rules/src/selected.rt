//! Names after a period, and what stands before and after names.

use advice_lines::lines::spelled;
use est_lexer::kind::{Symbol, TokenKind};
use est_lexer::tokens::Tokens;

// How many tokens subscripts, or all that selects from a name, may have.
const MOST_TOKENS: u32 = 64;

/// Whether a name stands at a place.
pub(crate) fn is_name(tokens: &Tokens, place: u32) -> bool {
    match tokens.token_at(place) {
        None => false,
        Some(token) => token.kind == TokenKind::Identifier,
    }
}

/// Whether these bytes are the token before a place.
pub(crate) fn follows(tokens: &Tokens, place: u32, bytes: &[u8]) -> bool {
    match place.checked_sub(1) {
        None => false,
        Some(before) => spelled(tokens, before).eq_ignore_ascii_case(bytes),
    }
}

/// The depth in brackets or parentheses before the token at a place, from the one after it.
pub(crate) fn depth_back(tokens: &Tokens, place: u32, depth: u32) -> u32 {
    let Some(token) = tokens.token_at(place) else {
        return depth;
    };
    match token.kind {
        TokenKind::Symbol(Symbol::RightBracket) => depth.saturating_add(1),
        TokenKind::Symbol(Symbol::RightParenthesis) => depth.saturating_add(1),
        TokenKind::Symbol(Symbol::LeftBracket) => depth.saturating_sub(1),
        TokenKind::Symbol(Symbol::LeftParenthesis) => depth.saturating_sub(1),
        _ => depth,
    }
}

/// The depth in brackets or parentheses after the token at a place, from the one before it.
pub(crate) fn depth_on(tokens: &Tokens, place: u32, depth: u32) -> u32 {
    let Some(token) = tokens.token_at(place) else {
        return depth;
    };
    match token.kind {
        TokenKind::Symbol(Symbol::LeftBracket) => depth.saturating_add(1),
        TokenKind::Symbol(Symbol::LeftParenthesis) => depth.saturating_add(1),
        TokenKind::Symbol(Symbol::RightBracket) => depth.saturating_sub(1),
        TokenKind::Symbol(Symbol::RightParenthesis) => depth.saturating_sub(1),
        _ => depth,
    }
}

// The place of the `[` of the subscripts that end at a place.
fn bracket_before(tokens: &Tokens, end: u32) -> Option<u32> {
    let mut depth: u32 = 0;
    for distance in 0..MOST_TOKENS {
        let place = end.checked_sub(distance)?;
        depth = depth_back(tokens, place, depth);
        if depth == 0 {
            return Some(place);
        }
    }
    None
}

// The place of the name at a place, or of the one before the subscripts that end there.
fn name_before(tokens: &Tokens, end: u32) -> Option<u32> {
    let mut place = end;
    for _ in 0..MOST_TOKENS {
        if is_name(tokens, place) {
            return Some(place);
        }
        if spelled(tokens, place) != b"]".as_slice() {
            return None;
        }
        place = bracket_before(tokens, place)?.checked_sub(1)?;
    }
    None
}

/// The place of the name that subscripts and fields select from which end before a place.
pub(crate) fn first_before(tokens: &Tokens, end: u32) -> Option<u32> {
    let mut last = end.checked_sub(1)?;
    for _ in 0..MOST_TOKENS {
        let place = name_before(tokens, last)?;
        if !follows(tokens, place, b".") {
            return Some(place);
        }
        last = place.checked_sub(2)?;
    }
    None
}

/// The place after the name at a place and the subscripts in one pair of brackets after it.
pub(crate) fn after_subscripts(tokens: &Tokens, place: u32) -> u32 {
    let first = place.saturating_add(1);
    if spelled(tokens, first) != b"[".as_slice() {
        return first;
    }
    let mut depth: u32 = 0;
    for at in first..first.saturating_add(MOST_TOKENS) {
        depth = depth_on(tokens, at, depth);
        if depth == 0 {
            return at.saturating_add(1);
        }
    }
    first
}

// Whether the token at a place selects, or is selected, outside brackets.
fn is_selector(tokens: &Tokens, place: u32) -> bool {
    spelled(tokens, place) == b".".as_slice()
        || is_name(tokens, place) && follows(tokens, place, b".")
}

// How many brackets are open after the token at a place, if it belongs to an operand.
fn depth_after(tokens: &Tokens, place: u32, depth: u32) -> Option<u32> {
    match tokens.token_at(place)?.kind {
        TokenKind::Symbol(Symbol::LeftBracket) => depth.checked_add(1),
        TokenKind::Symbol(Symbol::LeftParenthesis) => depth.checked_add(1),
        TokenKind::Symbol(Symbol::RightBracket) => depth.checked_sub(1),
        TokenKind::Symbol(Symbol::RightParenthesis) => depth.checked_sub(1),
        _ if depth > 0 || is_selector(tokens, place) => Some(depth),
        _ => None,
    }
}

/// The place after the operand that begins at a place, with its selectors and its arguments.
pub(crate) fn after_operand(tokens: &Tokens, place: u32) -> u32 {
    let first = place.saturating_add(1);
    let mut depth: u32 = 0;
    for at in first..first.saturating_add(MOST_TOKENS) {
        match depth_after(tokens, at, depth) {
            None => return at,
            Some(next) => depth = next,
        }
    }
    first
}
