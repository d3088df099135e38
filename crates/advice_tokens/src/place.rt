//! Places of tokens in a text.

use crate::note::Spot;
use est_lexer::kind::TokenKind;
use est_lexer::tokens::Tokens;

const LINE_FEED: u8 = b'\n';

/// The line and the column of the token of a place, or of the end of the last one.
pub fn spot_of(file: &'static str, tokens: &Tokens, place: u32) -> Spot {
    let (line, column) = tokens.line_column(place.min(tokens.count()));
    Spot { file, line, column }
}

// A number of the few that a text has lines or columns of.
fn small(count: usize) -> u32 {
    u32::try_from(count).unwrap_or(u32::MAX)
}

// How many line feeds there are.
fn line_feeds(bytes: &[u8]) -> u32 {
    let mut count: u32 = 0;
    for byte in bytes {
        if *byte == LINE_FEED {
            count = count.saturating_add(1);
        }
    }
    count
}

// Where the last line begins.
fn last_line(bytes: &[u8]) -> usize {
    let mut begin = 0;
    for (at, byte) in bytes.iter().enumerate() {
        if *byte == LINE_FEED {
            begin = at.saturating_add(1);
        }
    }
    begin
}

/// The line and the column of a byte of a specification.
pub(crate) fn spot_at(text: &[u8], offset: usize) -> Spot {
    let before = &text[..offset.min(text.len())];
    let column = before.len().saturating_sub(last_line(before));
    Spot {
        file: "specification",
        line: line_feeds(before).saturating_add(1),
        column: small(column).saturating_add(1),
    }
}

/// Where the token before a place ends.
pub(crate) fn end_before(tokens: &Tokens, place: u32) -> usize {
    let Some(before) = place.checked_sub(1) else {
        return 0;
    };
    match tokens.token_at(before) {
        None => 0,
        Some(token) => (token.start as usize).saturating_add(token.length as usize),
    }
}

/// Where the token of a place begins, or the last one ends.
pub(crate) fn begin_of(tokens: &Tokens, place: u32) -> usize {
    match tokens.token_at(place) {
        None => end_before(tokens, place),
        Some(token) => token.start as usize,
    }
}

/// What stands before the token of a place.
pub(crate) fn front_of<'t>(text: &'t [u8], tokens: &Tokens, place: u32) -> &'t [u8] {
    &text[..begin_of(tokens, place).min(text.len())]
}

/// What stands between the token of a place and the one before it.
pub(crate) fn gap_before<'t>(text: &'t [u8], tokens: &Tokens, place: u32) -> &'t [u8] {
    let end = begin_of(tokens, place).min(text.len());
    let begin = end_before(tokens, place).min(end);
    &text[begin..end]
}

/// The kind of the token so far before a place, if there is one.
pub(crate) fn kind_before(tokens: &Tokens, place: u32, back: u32) -> Option<TokenKind> {
    let at = place.checked_sub(back)?;
    let token = tokens.token_at(at)?;
    Some(token.kind)
}

/// Whether nothing stands between the token of a place and the one before it.
pub(crate) fn is_joined(tokens: &Tokens, place: u32) -> bool {
    place > 0 && end_before(tokens, place) == begin_of(tokens, place)
}
