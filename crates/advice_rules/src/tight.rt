//! Expressions in which `and` or `or` stands beside a comparison.

use advice_lines::lines::{Mark, append_line};
use est_lexer::kind::{ReservedWord, Symbol, TokenKind};
use est_lexer::tokens::Tokens;
use std::alloc::AllocError;

// What a token is in an expression.
#[derive(Clone, Copy, PartialEq, Eq)]
enum Part {
    Opening,
    Closing,
    Logical,
    Comparison,
    Other,
    /// No token of an expression.
    End,
}

// What was seen beside a place, outside parentheses.
#[derive(Clone, Copy)]
struct Seen {
    logical: bool,
    comparison: bool,
}

// What a word is in an expression.
fn word_part(word: ReservedWord) -> Part {
    match word {
        ReservedWord::And => Part::Logical,
        ReservedWord::Or => Part::Logical,
        ReservedWord::In => Part::Comparison,
        ReservedWord::Not => Part::Other,
        ReservedWord::Div => Part::Other,
        ReservedWord::Mod => Part::Other,
        _ => Part::End,
    }
}

// What a symbol is in an expression.
fn symbol_part(symbol: Symbol) -> Part {
    match symbol {
        Symbol::LeftParenthesis => Part::Opening,
        Symbol::LeftBracket => Part::Opening,
        Symbol::RightParenthesis => Part::Closing,
        Symbol::RightBracket => Part::Closing,
        Symbol::Equal => Part::Comparison,
        Symbol::Unequal => Part::Comparison,
        Symbol::Below => Part::Comparison,
        Symbol::AtMost => Part::Comparison,
        Symbol::Above => Part::Comparison,
        Symbol::AtLeast => Part::Comparison,
        Symbol::Plus => Part::Other,
        Symbol::Minus => Part::Other,
        Symbol::Star => Part::Other,
        Symbol::Period => Part::Other,
        _ => Part::End,
    }
}

// What the token at a place is in an expression.
fn part_at(tokens: &Tokens, place: u32) -> Part {
    match tokens.token_at(place) {
        None => Part::End,
        Some(token) => match token.kind {
            TokenKind::Identifier => Part::Other,
            TokenKind::Number => Part::Other,
            TokenKind::Character => Part::Other,
            TokenKind::Reserved(word) => word_part(word),
            TokenKind::Symbol(symbol) => symbol_part(symbol),
            _ => Part::End,
        },
    }
}

// What was seen, with a part more.
fn with_part(seen: Seen, part: Part) -> Seen {
    Seen {
        logical: seen.logical || part == Part::Logical,
        comparison: seen.comparison || part == Part::Comparison,
    }
}

// What is seen with what stands from a place on.
fn seen_after(tokens: &Tokens, from: u32, before: Seen) -> Seen {
    let mut seen = before;
    let mut depth: u32 = 0;
    for place in from..tokens.count() {
        let part = part_at(tokens, place);
        if part == Part::End || part == Part::Closing && depth == 0 {
            return seen;
        }
        match part {
            Part::Opening => depth = depth.saturating_add(1),
            Part::Closing => depth = depth.saturating_sub(1),
            _ => if depth == 0 {
                seen = with_part(seen, part);
            },
        }
    }
    seen
}

// What is seen with what stands before a place.
fn seen_before(tokens: &Tokens, end: u32, after: Seen) -> Seen {
    let mut seen = after;
    let mut depth: u32 = 0;
    for distance in 1..end {
        let part = part_at(tokens, end - distance);
        if part == Part::End || part == Part::Opening && depth == 0 {
            return seen;
        }
        match part {
            Part::Closing => depth = depth.saturating_add(1),
            Part::Opening => depth = depth.saturating_sub(1),
            _ => if depth == 0 {
                seen = with_part(seen, part);
            },
        }
    }
    seen
}

/// Adds a line where `and` or `or` stands beside a comparison in the expression at a place, without
/// parentheses between them.
pub(crate) fn append_tight(
    tokens: &Tokens,
    place: u32,
    notes: &mut String,
) -> Result<(), AllocError> {
    let nothing = Seen {
        logical: false,
        comparison: false,
    };
    let seen = seen_before(tokens, place, seen_after(tokens, place, nothing));
    if !seen.logical || !seen.comparison {
        return Ok(());
    }
    append_line(
        tokens,
        Mark::Note,
        place,
        "and and or bind more tightly than comparisons: put parentheses around them",
        notes,
    )
}
