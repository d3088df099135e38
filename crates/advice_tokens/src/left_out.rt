//! What to write in place of what the profile leaves out.

use crate::place::{is_joined, kind_before};
use est_lexer::kind::{LeftOutToken, Symbol, TokenKind};
use est_lexer::tokens::Tokens;

/// What to write in place of the word or the symbol of a place.
pub(crate) fn left_out_text(tokens: &Tokens, place: u32, token: LeftOutToken) -> &'static str {
    match token {
        LeftOutToken::Slash if opens_comment(tokens, place) => {
            "a comment stands in { } or (* *), in no other marks"
        }
        LeftOutToken::Ellipsis if is_after_value(tokens, place) => "a range has two dots: '..'",
        _ => instead_of(token),
    }
}

// Whether the slash of a place opens a comment in other languages.
fn opens_comment(tokens: &Tokens, place: u32) -> bool {
    let next = place.saturating_add(1);
    match kind_before(tokens, next, 0) {
        Some(TokenKind::LeftOut(LeftOutToken::Slash)) => is_joined(tokens, next),
        Some(TokenKind::Symbol(Symbol::Star)) => is_joined(tokens, next),
        _ => false,
    }
}

// Whether a value stands before the token of a place.
fn is_after_value(tokens: &Tokens, place: u32) -> bool {
    match kind_before(tokens, place, 1) {
        Some(TokenKind::Identifier) => true,
        Some(TokenKind::Number) => true,
        Some(TokenKind::Character) => true,
        _ => false,
    }
}

// What to write in place of a word or a symbol.
fn instead_of(token: LeftOutToken) -> &'static str {
    match token {
        LeftOutToken::Exist => "there is no 'exist': write a function with a loop",
        LeftOutToken::External => "there are no external bodies and routines: write what they do",
        LeftOutToken::File => "there are no files",
        LeftOutToken::Forone =>
            "there is no 'forone': 'all' goes through each; a 'while' ends at the first",
        LeftOutToken::Forward =>
            "there is no 'forward': a routine stands before those that call it",
        LeftOutToken::Goto => "there is no 'goto': write 'if', 'while' or 'repeat'",
        LeftOutToken::Label => "there are no labels: write 'if', 'while' or 'repeat'",
        LeftOutToken::Nil => "there are no pointers: write an array and its subscripts",
        LeftOutToken::Primitive => "there are no primitive routines: write what they do",
        LeftOutToken::Process => "there is no 'process': write 'activity'",
        LeftOutToken::Real => "there are no real numbers: write integers of a smaller unit",
        LeftOutToken::Suchthat => "there is no 'suchthat': write an 'if'",
        LeftOutToken::Systemprocess => "there is no 'systemprocess': write 'systemactivity'",
        LeftOutToken::Terminate => "there is no 'terminate': write 'release'",
        LeftOutToken::Caret => "there are no pointers: write an array and its subscripts",
        LeftOutToken::At => "there are no pointers: write an array and its subscripts",
        LeftOutToken::Slash => "there is no '/': write 'div'",
        LeftOutToken::Ellipsis => "nothing is left open with '...': write the type or the value",
    }
}
