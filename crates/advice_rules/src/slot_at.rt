//! What may stand at a place, by the tokens beside it.

use crate::heads::{head_before, is_definition, slot_in_part};
use crate::selected::{after_subscripts, follows};
use advice_lines::lines::spelled;
use advice_lines::slots::Slot;
use est_lexer::kind::{ReservedWord, Symbol, TokenKind};
use est_lexer::tokens::Tokens;

// Whether these bytes are the token at a place.
fn is_token(tokens: &Tokens, place: u32, bytes: &[u8]) -> bool {
    spelled(tokens, place).eq_ignore_ascii_case(bytes)
}

// What an operand is that begins by the name at a place.
fn operand_slot(tokens: &Tokens, place: u32) -> Slot {
    let next = place.saturating_add(1);
    if is_token(tokens, next, b"(") {
        Slot::Function
    } else if is_token(tokens, next, b"[") || is_token(tokens, next, b".") {
        Slot::Selected
    } else {
        Slot::Operand
    }
}

// What the name at a place is where a statement may begin, or a choice of a `case`, after a head.
fn statement_slot(tokens: &Tokens, head: u32, place: u32) -> Slot {
    let next = place.saturating_add(1);
    if place != head.saturating_add(1)
        || is_token(tokens, next, b":")
        || is_token(tokens, next, b",")
    {
        Slot::Constant
    } else if is_token(tokens, next, b":=") {
        Slot::Target
    } else if is_token(tokens, next, b"[") || is_token(tokens, next, b".") {
        Slot::Selected
    } else {
        Slot::Procedure
    }
}

// What the name at a place is at an end of a link.
fn end_slot(tokens: &Tokens, place: u32) -> Slot {
    if is_token(tokens, after_subscripts(tokens, place), b".") {
        Slot::ModuleVariable
    } else {
        Slot::PointOrModule
    }
}

// What the name at a place is after the word `to` at another one.
fn slot_after_to(tokens: &Tokens, word: u32, place: u32) -> Slot {
    let head = head_before(tokens, word);
    if is_token(tokens, head, b":=") {
        operand_slot(tokens, place)
    } else if is_token(tokens, head, b"connect") {
        end_slot(tokens, place)
    } else if is_token(tokens, head, b"attach") {
        Slot::ModuleVariable
    } else {
        Slot::State
    }
}

// What the name at a place is after the word `for`.
fn slot_after_for(tokens: &Tokens, place: u32) -> Slot {
    if is_token(tokens, place.saturating_add(1), b":=") {
        Slot::Target
    } else {
        Slot::Header
    }
}

// What the name at a place is after the colon or the `of` at another one.
fn slot_after_colon(tokens: &Tokens, head: u32, place: u32) -> Slot {
    let slot = slot_in_part(tokens, head);
    if slot == Slot::Procedure {
        statement_slot(tokens, head, place)
    } else {
        slot
    }
}

// What the name at a place is after a word that says so at another one.
fn slot_after_word(tokens: &Tokens, word: ReservedWord, head: u32, place: u32) -> Slot {
    match word {
        ReservedWord::With => Slot::Body,
        ReservedWord::From => Slot::StateOrSet,
        ReservedWord::Init | ReservedWord::Release => Slot::ModuleVariable,
        ReservedWord::When | ReservedWord::Output | ReservedWord::Attach => Slot::Point,
        ReservedWord::Connect | ReservedWord::Disconnect | ReservedWord::Detach => {
            end_slot(tokens, place)
        },
        ReservedWord::To => slot_after_to(tokens, head, place),
        ReservedWord::For => slot_after_for(tokens, place),
        ReservedWord::Priority => Slot::Constant,
        ReservedWord::Of => slot_after_colon(tokens, head, place),
        ReservedWord::Begin
        | ReservedWord::Then
        | ReservedWord::Else
        | ReservedWord::Do
        | ReservedWord::Repeat => statement_slot(tokens, head, place),
        ReservedWord::If
        | ReservedWord::While
        | ReservedWord::Until
        | ReservedWord::Case
        | ReservedWord::Provided
        | ReservedWord::Downto => operand_slot(tokens, place),
        ReservedWord::By => Slot::Nothing,
        _ => Slot::Any,
    }
}

// What the name at a place is after the opening bracket at another one.
fn slot_in_brackets(tokens: &Tokens, bracket: u32, place: u32) -> Slot {
    let before = bracket.saturating_sub(1);
    if is_token(tokens, before, b"array") {
        Slot::TypeName
    } else if is_token(tokens, before, b"=") && is_definition(tokens, before) {
        Slot::State
    } else {
        operand_slot(tokens, place)
    }
}

// What the name at a place is after the opening parenthesis at another one.
fn slot_in_parentheses(tokens: &Tokens, parenthesis: u32, place: u32) -> Slot {
    if slot_in_part(tokens, parenthesis) == Slot::Channel {
        Slot::Nothing
    } else {
        operand_slot(tokens, place)
    }
}

// What the name at a place is after a symbol that says so at another one.
fn slot_after_symbol(tokens: &Tokens, symbol: Symbol, head: u32, place: u32) -> Slot {
    match symbol {
        Symbol::LeftParenthesis => slot_in_parentheses(tokens, head, place),
        Symbol::LeftBracket => slot_in_brackets(tokens, head, place),
        Symbol::Assign => operand_slot(tokens, place),
        Symbol::Equal => slot_in_part(tokens, head),
        Symbol::Colon => slot_after_colon(tokens, head, place),
        Symbol::Semicolon => statement_slot(tokens, head, place),
        _ => Slot::Any,
    }
}

// What the name at a place is, were it no bound of a range.
fn slot_after(tokens: &Tokens, head: u32, place: u32) -> Slot {
    let Some(token) = tokens.token_at(head) else {
        return Slot::Any;
    };
    match token.kind {
        TokenKind::Reserved(word) => slot_after_word(tokens, word, head, place),
        TokenKind::Symbol(symbol) => slot_after_symbol(tokens, symbol, head, place),
        _ => Slot::Any,
    }
}

// Whether the name at a place is a constant where a type would stand.
fn is_bound(tokens: &Tokens, place: u32) -> bool {
    is_token(tokens, place.saturating_add(1), b"..")
        || follows(tokens, place, b"..")
        || follows(tokens, place, b"+")
        || follows(tokens, place, b"-")
}

/// What may stand where the name at a place does, by the tokens beside it.
pub(crate) fn slot_at(tokens: &Tokens, place: u32) -> Slot {
    if follows(tokens, place, b".") {
        return Slot::Nothing;
    }
    let slot = slot_after(tokens, head_before(tokens, place), place);
    if matches!(slot, Slot::TypeName | Slot::HeaderOrType) && is_bound(tokens, place) {
        Slot::Constant
    } else {
        slot
    }
}
