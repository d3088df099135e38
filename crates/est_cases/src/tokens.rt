//! The tokens of a text, written down.

use crate::mistake::Mistake;
use call_files::est_lexer::kind::{Token, TokenKind};
use call_files::est_lexer::lex::lex;
use call_files::est_lexer::tokens::MOST_BYTES;
use std::alloc::{AllocError, Global};

/// The tokens of a text: of each its kind, where it starts and how many bytes it has. After them
/// stands the line and the column of the place after the last one.
pub fn listed_tokens(alloc: Global, text: &[u8]) -> Result<String, Mistake> {
    if text.len() > MOST_BYTES {
        return Err(Mistake::TooLong);
    }
    let tokens = lex(alloc, text)?;
    let mut list = String::new(alloc);
    for place in 0..tokens.count() {
        if let Some(token) = tokens.token_at(place) {
            push_token(&mut list, token)?;
        }
    }
    push_end(&mut list, tokens.line_column(tokens.count()))?;
    Ok(list)
}

// Appends one token.
fn push_token(list: &mut String, token: Token) -> Result<(), AllocError> {
    let kind = kind_word(token.kind);
    let start = token.start;
    let length = token.length;
    write!(list, "{kind} {start} {length}, ")
}

// Appends the line and the column of the end.
fn push_end(list: &mut String, place: (u32, u32)) -> Result<(), AllocError> {
    let (line, column) = place;
    write!(list, "end {line}:{column}")
}

// The word for a kind of token.
fn kind_word(kind: TokenKind) -> &'static str {
    match kind {
        TokenKind::Identifier => "identifier",
        TokenKind::Reserved(_) => "reserved",
        TokenKind::LeftOut(_) => "left_out",
        TokenKind::Number => "number",
        TokenKind::Character => "character",
        TokenKind::Symbol(_) => "symbol",
        TokenKind::Bad => "bad",
    }
}
