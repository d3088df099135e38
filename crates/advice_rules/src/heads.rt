//! The tokens that say what stands after them.

use crate::selected::{depth_back, is_name};
use advice_lines::lines::spelled;
use advice_lines::slots::Slot;
use est_lexer::kind::{ReservedWord, Symbol, TokenKind};
use est_lexer::tokens::Tokens;

// Whether a word is an operator.
fn is_operator(word: ReservedWord) -> bool {
    matches!(
        word,
        ReservedWord::And
            | ReservedWord::Or
            | ReservedWord::Not
            | ReservedWord::Div
            | ReservedWord::Mod
            | ReservedWord::In
    )
}

/// Whether the `=` at a place is one of a definition, as in `type t = 0..7;`.
pub(crate) fn is_definition(tokens: &Tokens, equal: u32) -> bool {
    let Some(before) = equal.checked_sub(2) else {
        return false;
    };
    let word = spelled(tokens, before);
    is_name(tokens, before.saturating_add(1))
        && (word == b";".as_slice()
            || word.eq_ignore_ascii_case(b"const")
            || word.eq_ignore_ascii_case(b"type")
            || word.eq_ignore_ascii_case(b"stateset"))
}

// Whether the token at a place says what stands after it, and is no part of an expression.
fn is_head(tokens: &Tokens, place: u32) -> bool {
    let Some(token) = tokens.token_at(place) else {
        return false;
    };
    match token.kind {
        TokenKind::Reserved(word) => !is_operator(word),
        TokenKind::Symbol(Symbol::Equal) => is_definition(tokens, place),
        TokenKind::Symbol(symbol) => matches!(
            symbol,
            Symbol::LeftParenthesis
                | Symbol::LeftBracket
                | Symbol::Assign
                | Symbol::Colon
                | Symbol::Semicolon
        ),
        _ => false,
    }
}

/// The place of the token that says what stands in the list or the expression at a place: the
/// nearest one before it, outside brackets that are closed.
pub(crate) fn head_before(tokens: &Tokens, place: u32) -> u32 {
    let mut depth: u32 = 0;
    for distance in 1..place {
        let at = place - distance;
        if depth == 0 && is_head(tokens, at) {
            return at;
        }
        depth = depth_back(tokens, at, depth);
    }
    0
}

// What a name after a colon is in the part of the text that a word begins, which is a procedure in
// statements; and none where the word stands within a part.
fn slot_of_part(word: ReservedWord) -> Option<Slot> {
    match word {
        ReservedWord::Ip => Some(Slot::Channel),
        ReservedWord::Modvar => Some(Slot::Header),
        ReservedWord::All => Some(Slot::HeaderOrType),
        ReservedWord::Const => Some(Slot::Constant),
        ReservedWord::Type
        | ReservedWord::Var
        | ReservedWord::Procedure
        | ReservedWord::Function
        | ReservedWord::Any
        | ReservedWord::Export
        | ReservedWord::Module
        | ReservedWord::By
        | ReservedWord::Channel => Some(Slot::TypeName),
        ReservedWord::Array
        | ReservedWord::Of
        | ReservedWord::Set
        | ReservedWord::Packed
        | ReservedWord::Record
        | ReservedWord::End
        | ReservedWord::Individual
        | ReservedWord::Common
        | ReservedWord::Queue
        | ReservedWord::Activity
        | ReservedWord::Systemactivity => None,
        _ => if is_operator(word) {
            None
        } else {
            Some(Slot::Procedure)
        },
    }
}

// What a name after a colon is after the token at a place, where this begins a part of the text.
fn part_at(tokens: &Tokens, place: u32) -> Option<Slot> {
    match tokens.token_at(place)?.kind {
        TokenKind::Reserved(word) => slot_of_part(word),
        _ => None,
    }
}

/// What a name after a colon is in the part of the text that a place lies in.
pub(crate) fn slot_in_part(tokens: &Tokens, place: u32) -> Slot {
    for distance in 1..place {
        if let Some(slot) = part_at(tokens, place - distance) {
            return slot;
        }
    }
    Slot::Any
}
