//! The operators beside an operand, and what they take and yield.

use crate::selected::after_operand;
use advice_lines::lines::{Mark, append_token, begin_line};
use est_lexer::kind::{ReservedWord, Symbol, TokenKind};
use est_lexer::tokens::Tokens;
use std::alloc::AllocError;

const NUMBERS: &str = " takes integers, or sets of one type, and yields one of these";

const SIGN: &str = " takes an integer and yields one";

const VALUES: &str = " compares ordinals of one type, or sets of one type, and yields a boolean";

const ORDINALS: &str = " compares ordinals of one type, and yields a boolean";

const MEMBER: &str = " takes an ordinal, and a set of ordinals of its type, and yields a boolean";

// What an operator takes and yields that is a word.
fn word_sentence(word: ReservedWord) -> Option<&'static str> {
    match word {
        ReservedWord::And => Some(" takes booleans and yields one"),
        ReservedWord::Or => Some(" takes booleans and yields one"),
        ReservedWord::Not => Some(" takes a boolean and yields one"),
        ReservedWord::Div => Some(" takes integers and yields one"),
        ReservedWord::Mod => Some(" takes integers and yields one"),
        ReservedWord::In => Some(MEMBER),
        _ => None,
    }
}

// What an operator takes and yields that is a symbol.
fn symbol_sentence(symbol: Symbol) -> Option<&'static str> {
    match symbol {
        Symbol::Plus => Some(NUMBERS),
        Symbol::Minus => Some(NUMBERS),
        Symbol::Star => Some(NUMBERS),
        Symbol::Equal => Some(VALUES),
        Symbol::Unequal => Some(VALUES),
        Symbol::AtMost => Some(VALUES),
        Symbol::AtLeast => Some(VALUES),
        Symbol::Below => Some(ORDINALS),
        Symbol::Above => Some(ORDINALS),
        _ => None,
    }
}

// Whether an operand ends with the token before a place.
fn is_after_operand(tokens: &Tokens, place: u32) -> bool {
    let Some(before) = place.checked_sub(1) else {
        return false;
    };
    match tokens.token_at(before) {
        None => false,
        Some(token) => match token.kind {
            TokenKind::Identifier => true,
            TokenKind::Number => true,
            TokenKind::Character => true,
            TokenKind::Symbol(Symbol::RightParenthesis) => true,
            TokenKind::Symbol(Symbol::RightBracket) => true,
            _ => false,
        },
    }
}

// Whether this symbol at a place is a sign.
fn is_sign(tokens: &Tokens, symbol: Symbol, place: u32) -> bool {
    (symbol == Symbol::Plus || symbol == Symbol::Minus) && !is_after_operand(tokens, place)
}

// What the operator at a place takes and yields, if one stands there.
fn sentence_at(tokens: &Tokens, place: u32) -> Option<&'static str> {
    match tokens.token_at(place)?.kind {
        TokenKind::Reserved(word) => word_sentence(word),
        TokenKind::Symbol(symbol) if is_sign(tokens, symbol, place) => Some(SIGN),
        TokenKind::Symbol(symbol) => symbol_sentence(symbol),
        _ => None,
    }
}

// Adds a line on the operator that stands beside a place, if one does.
fn append_operator(
    tokens: &Tokens,
    operator: u32,
    place: u32,
    notes: &mut String,
) -> Result<(), AllocError> {
    let Some(sentence) = sentence_at(tokens, operator) else {
        return Ok(());
    };
    begin_line(tokens, Mark::Note, place, notes)?;
    append_token(tokens, operator, notes)?;
    notes.push_str(sentence)?;
    notes.push_str("\n")
}

// Whether the token at a place is an operand by itself.
fn is_operand(tokens: &Tokens, place: u32) -> bool {
    match tokens.token_at(place) {
        None => false,
        Some(token) => match token.kind {
            TokenKind::Identifier => true,
            TokenKind::Number => true,
            TokenKind::Character => true,
            _ => false,
        },
    }
}

/// Whether an operand begins at a place after which no operator stands.
pub(crate) fn is_alone(tokens: &Tokens, place: u32) -> bool {
    is_operand(tokens, place) && sentence_at(tokens, after_operand(tokens, place)).is_none()
}

/// Adds lines on the operators before and after the operand that begins at a place.
pub(crate) fn append_operators(
    tokens: &Tokens,
    place: u32,
    notes: &mut String,
) -> Result<(), AllocError> {
    if let Some(before) = place.checked_sub(1) {
        append_operator(tokens, before, place, notes)?;
    }
    if is_operand(tokens, place) {
        append_operator(tokens, after_operand(tokens, place), place, notes)?;
    }
    Ok(())
}
