//! What is known to go wrong at some tokens, by those around them.

use crate::place::{is_joined, kind_before};
use est_lexer::kind::TokenKind::{Identifier, Number, Reserved};
use est_lexer::kind::{ReservedWord, Symbol, TokenKind};
use est_lexer::tokens::Tokens;

// So many tokens before one are looked at.
const MOST_BACK: u32 = 200;

// So many tokens after one are looked at.
const MOST_AHEAD: u32 = 200;

/// What is known to go wrong at the token of a place.
pub(crate) fn form_text(tokens: &Tokens, place: u32) -> Option<&'static str> {
    let token = tokens.token_at(place)?;
    match token.kind {
        Reserved(word) => word_text(tokens, place, word),
        TokenKind::Symbol(symbol) => symbol_text(tokens, place, symbol),
        Identifier => start_text(tokens, place),
        _ => None,
    }
}

// What is known to go wrong at a word.
fn word_text(tokens: &Tokens, place: u32, word: ReservedWord) -> Option<&'static str> {
    match word {
        ReservedWord::Activity => Some(ATTRIBUTE),
        ReservedWord::Systemactivity => Some(ATTRIBUTE),
        ReservedWord::Array => type_text(tokens, place),
        ReservedWord::Case => case_text(tokens, place),
        ReservedWord::Else => else_text(tokens, place),
        ReservedWord::Function => routine_text(tokens, place),
        ReservedWord::In => comparison_text(tokens, place),
        ReservedWord::Otherwise => otherwise_text(tokens, place),
        ReservedWord::Packed => type_text(tokens, place),
        ReservedWord::Procedure => routine_text(tokens, place),
        ReservedWord::Record => type_text(tokens, place),
        ReservedWord::Set => type_text(tokens, place),
        ReservedWord::With => with_text(tokens, place),
        _ => None,
    }
}

const ATTRIBUTE: &str = "an attribute stands after the name of a module, and nowhere else: \
    'module M systemactivity;'";

// What is known to go wrong at a symbol.
fn symbol_text(tokens: &Tokens, place: u32, symbol: Symbol) -> Option<&'static str> {
    match symbol {
        Symbol::Period => period_text(tokens, place),
        Symbol::Semicolon => semicolon_text(tokens, place),
        Symbol::RightParenthesis => closing_text(tokens, place),
        Symbol::Star => star_text(tokens, place),
        Symbol::Equal => equal_text(tokens, place),
        Symbol::Unequal => comparison_text(tokens, place),
        Symbol::Below => comparison_text(tokens, place),
        Symbol::AtMost => comparison_text(tokens, place),
        Symbol::Above => comparison_text(tokens, place),
        Symbol::AtLeast => comparison_text(tokens, place),
        _ => None,
    }
}

const WRITTEN_OUT: &str =
    "a type is written out only in 'type', 'var' and types: declare it there, \
    and write its name";

// A type that is written out after a colon.
fn type_text(tokens: &Tokens, place: u32) -> Option<&'static str> {
    match kind_before(tokens, place, 1) {
        Some(TokenKind::Symbol(Symbol::Colon)) => { Some(WRITTEN_OUT) }
        _ => None,
    }
}

/// Whether the name of a type is to stand at a place: after a colon, but for that of a `by`.
pub(crate) fn is_for_type(tokens: &Tokens, place: u32) -> bool {
    match kind_before(tokens, place, 1) {
        Some(TokenKind::Symbol(Symbol::Colon)) => !is_after_roles(tokens, place),
        _ => false,
    }
}

// Whether only names and commas stand between a `by` and the token before a place.
fn is_after_roles(tokens: &Tokens, place: u32) -> bool {
    for back in 2..MOST_BACK {
        match kind_before(tokens, place, back) {
            Some(Reserved(ReservedWord::By)) => return true,
            Some(Identifier) => {}
            Some(TokenKind::Symbol(Symbol::Comma)) => {}
            _ => return false,
        }
    }
    false
}

// What is done at the start of a specification but the `init` of its system.
fn start_text(tokens: &Tokens, place: u32) -> Option<&'static str> {
    match (kind_before(tokens, place, 2), kind_before(tokens, place, 1)) {
        (Some(Reserved(ReservedWord::Initialize)), Some(Reserved(ReservedWord::Begin))) => {
            Some("a specification starts by one 'init', and does nothing else then")
        }
        _ => None,
    }
}

// A `case` in a record.
fn case_text(tokens: &Tokens, place: u32) -> Option<&'static str> {
    for back in 1..MOST_BACK {
        match kind_before(tokens, place, back) {
            Some(Reserved(ReservedWord::Record)) => {
                return Some("a record has no variants: write all fields one after another");
            }
            Some(Reserved(ReservedWord::End)) => return None,
            Some(Reserved(ReservedWord::Begin)) => return None,
            Some(_) => {}
            None => return None,
        }
    }
    None
}

// An `else` after a semicolon.
fn else_text(tokens: &Tokens, place: u32) -> Option<&'static str> {
    match kind_before(tokens, place, 1) {
        Some(TokenKind::Symbol(Symbol::Semicolon)) => {
            Some("no ';' stands before the 'else' of an 'if', and a 'case' has no 'else'")
        }
        _ => None,
    }
}

// An `otherwise` in place of a constant of a `case`.
fn otherwise_text(tokens: &Tokens, place: u32) -> Option<&'static str> {
    match kind_before(tokens, place, 1) {
        Some(TokenKind::Symbol(Symbol::Semicolon)) => {
            Some("a 'case' has no 'otherwise': write the other constants")
        }
        _ => None,
    }
}

// A routine as a parameter.
fn routine_text(tokens: &Tokens, place: u32) -> Option<&'static str> {
    match kind_before(tokens, place, 1) {
        Some(TokenKind::Symbol(Symbol::LeftParenthesis)) => Some("no parameter is a routine"),
        _ => None,
    }
}

// A `with` in place of a statement.
fn with_text(tokens: &Tokens, place: u32) -> Option<&'static str> {
    match kind_before(tokens, place, 1) {
        Some(TokenKind::Symbol(Symbol::Semicolon)) => Some(WITH),
        Some(Reserved(ReservedWord::Begin)) => Some(WITH),
        Some(Reserved(ReservedWord::Then)) => Some(WITH),
        Some(Reserved(ReservedWord::Else)) => Some(WITH),
        Some(Reserved(ReservedWord::Do)) => Some(WITH),
        Some(Reserved(ReservedWord::Repeat)) => Some(WITH),
        _ => None,
    }
}

const WITH: &str = "there is no 'with' statement: write the record before each field";

// A period in a number, or in a bracket that is written with one.
fn period_text(tokens: &Tokens, place: u32) -> Option<&'static str> {
    let next = tokens.token_at(place.checked_add(1)?);
    let after = match next {
        None => TokenKind::Bad,
        Some(token) => token.kind,
    };
    match (kind_before(tokens, place, 1), after) {
        (Some(Number), Number) => Some(
            "there are no real numbers: write integers of a smaller unit",
        ),
        (Some(TokenKind::Symbol(Symbol::LeftParenthesis)), _) if is_bracket(tokens, place) => {
            Some("there is no '(.': write '['")
        }
        (_, TokenKind::Symbol(Symbol::RightParenthesis)) => Some("there is no '.)': write ']'"),
        _ => None,
    }
}

// Whether the period of a place is joined to the token before it, and a later one to the `)` after
// it.
fn is_bracket(tokens: &Tokens, place: u32) -> bool {
    if !is_joined(tokens, place) {
        return false;
    }
    for ahead in 1..MOST_AHEAD {
        let at = place.saturating_add(ahead);
        match (kind_before(tokens, at, 1), kind_before(tokens, at, 0)) {
            (_, None) => return false,
            (_, Some(TokenKind::Symbol(Symbol::Semicolon))) => return false,
            (
                Some(TokenKind::Symbol(Symbol::Period)),
                Some(TokenKind::Symbol(Symbol::RightParenthesis)),
            ) => return is_joined(tokens, at),
            _ => {}
        }
    }
    false
}

// The end of the head of a module that has no attribute.
fn semicolon_text(tokens: &Tokens, place: u32) -> Option<&'static str> {
    match (kind_before(tokens, place, 2), kind_before(tokens, place, 1)) {
        (Some(Reserved(ReservedWord::Module)), Some(Identifier)) => {
            Some("a module has an attribute: the system 'systemactivity', a child 'activity'")
        }
        _ => None,
    }
}

// A second `=` beside the first, or in an expression.
fn equal_text(tokens: &Tokens, place: u32) -> Option<&'static str> {
    match kind_before(tokens, place, 1) {
        Some(TokenKind::Symbol(Symbol::Equal)) if is_joined(tokens, place) => {
            Some("one '=' compares")
        }
        _ => comparison_text(tokens, place),
    }
}

// The closing mark of a comment, read as two symbols.
fn closing_text(tokens: &Tokens, place: u32) -> Option<&'static str> {
    match kind_before(tokens, place, 1) {
        Some(TokenKind::Symbol(Symbol::Star)) if is_joined(tokens, place) => {
            Some("no comment is open here")
        }
        _ => None,
    }
}

// The star of such a mark.
fn star_text(tokens: &Tokens, place: u32) -> Option<&'static str> {
    let next = place.checked_add(1)?;
    match tokens.token_at(next)?.kind {
        TokenKind::Symbol(Symbol::RightParenthesis) if is_joined(tokens, next) => {
            Some("no comment is open here")
        }
        _ => None,
    }
}

// What a token is in an expression.
#[derive(Clone, Copy)]
enum Part {
    Compares,
    Joins,
    Opens,
    Closes,
    Ends,
    Other,
}

// What a word is in an expression.
fn part_of_word(word: ReservedWord) -> Part {
    match word {
        ReservedWord::And => Part::Joins,
        ReservedWord::Or => Part::Joins,
        ReservedWord::In => Part::Compares,
        ReservedWord::Div => Part::Other,
        ReservedWord::Mod => Part::Other,
        ReservedWord::Not => Part::Other,
        _ => Part::Ends,
    }
}

// What a symbol is in an expression.
fn part_of_symbol(symbol: Symbol) -> Part {
    match symbol {
        Symbol::Equal => Part::Compares,
        Symbol::Unequal => Part::Compares,
        Symbol::Below => Part::Compares,
        Symbol::AtMost => Part::Compares,
        Symbol::Above => Part::Compares,
        Symbol::AtLeast => Part::Compares,
        Symbol::LeftParenthesis => Part::Opens,
        Symbol::LeftBracket => Part::Opens,
        Symbol::RightParenthesis => Part::Closes,
        Symbol::RightBracket => Part::Closes,
        Symbol::Semicolon => Part::Ends,
        Symbol::Assign => Part::Ends,
        _ => Part::Other,
    }
}

// What the token so far before a place is in an expression.
fn part_before(tokens: &Tokens, place: u32, back: u32) -> Part {
    match kind_before(tokens, place, back) {
        None => Part::Ends,
        Some(Reserved(word)) => part_of_word(word),
        Some(TokenKind::Symbol(symbol)) => part_of_symbol(symbol),
        Some(_) => Part::Other,
    }
}

// Whether `and` or `or` stands between a comparison and the place, in one expression.
fn is_after_joined(tokens: &Tokens, place: u32) -> bool {
    let mut depth: u32 = 0;
    let mut is_joined = false;
    for back in 1..MOST_BACK {
        match part_before(tokens, place, back) {
            Part::Closes => depth = depth.saturating_add(1),
            Part::Opens if depth == 0 => return false,
            Part::Opens => depth = depth.saturating_sub(1),
            Part::Ends => return false,
            Part::Joins if depth == 0 => is_joined = true,
            Part::Compares if depth == 0 => return is_joined,
            _ => {}
        }
    }
    false
}

// A second comparison in an expression.
fn comparison_text(tokens: &Tokens, place: u32) -> Option<&'static str> {
    if is_after_joined(tokens, place) {
        Some(
            "'and' and 'or' bind more tightly than comparisons: put each comparison in parentheses",
        )
    } else {
        None
    }
}
