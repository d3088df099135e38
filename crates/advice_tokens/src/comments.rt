//! Comments that hold the opening mark of another one.

use crate::marks::{closing_at, opening_at};
use crate::note::{Spot, append_note};
use crate::place::{begin_of, end_before, gap_before, spot_at};
use est_lexer::tokens::Tokens;
use std::alloc::{AllocError, Global};

// A comment that holds an opening mark, and the first such mark.
#[derive(Clone, Copy)]
struct Nested {
    comment: usize,
    mark: usize,
}

// How far blanks and comments are read: where the next mark may begin, where the comment began that
// is open, and the last comment so far that holds an opening mark.
#[derive(Clone, Copy)]
struct Scan {
    next: usize,
    comment: Option<usize>,
    nested: Option<Nested>,
}

// What is known after a mark within a comment.
fn within(scan: Scan, gap: &[u8], at: usize, comment: usize) -> Scan {
    let closing = closing_at(gap, at);
    if closing > 0 {
        return Scan {
            next: at.saturating_add(closing),
            comment: None,
            nested: scan.nested,
        };
    }
    if opening_at(gap, at) == 0 || is_of(scan.nested, comment) {
        return scan;
    }
    Scan {
        next: at,
        comment: Some(comment),
        nested: Some(Nested { comment, mark: at }),
    }
}

// Whether this is known of a comment already.
fn is_of(nested: Option<Nested>, comment: usize) -> bool {
    match nested {
        None => false,
        Some(nested) => nested.comment == comment,
    }
}

// What is known after one more byte.
fn after(scan: Scan, gap: &[u8], at: usize) -> Scan {
    if at < scan.next {
        return scan;
    }
    if let Some(comment) = scan.comment {
        return within(scan, gap, at, comment);
    }
    let opening = opening_at(gap, at);
    if opening == 0 {
        return scan;
    }
    Scan {
        next: at.saturating_add(opening),
        comment: Some(at),
        nested: scan.nested,
    }
}

// The last comment that holds an opening mark, of those between two tokens.
fn last_nested(gap: &[u8]) -> Option<Nested> {
    let mut scan = Scan {
        next: 0,
        comment: None,
        nested: None,
    };
    for at in 0..gap.len() {
        scan = after(scan, gap, at);
    }
    scan.nested
}

// The places of the last comment before a token that holds an opening mark, and of that mark.
fn spots_before(text: &[u8], tokens: &Tokens, place: u32) -> Option<(Spot, Spot)> {
    for at in (0..=place).rev() {
        if let Some(nested) = last_nested(gap_before(text, tokens, at)) {
            let begin = end_before(tokens, at).min(begin_of(tokens, at));
            let comment = spot_at(text, begin.saturating_add(nested.comment));
            let mark = spot_at(text, begin.saturating_add(nested.mark));
            return Some((comment, mark));
        }
    }
    None
}

/// Adds a note of the last comment before a token that holds the opening mark of another one.
pub(crate) fn append_comment(
    alloc: Global,
    text: &[u8],
    tokens: &Tokens,
    place: u32,
    notes: &mut String,
) -> Result<(), AllocError> {
    let Some((comment, mark)) = spots_before(text, tokens, place) else {
        return Ok(());
    };
    let Spot {
        file: _,
        line,
        column,
    } = mark;
    let said = format!(in alloc;
        "this comment has another opening mark in it, at {line}:{column}, \
        and the first closing mark ends it"
    )?;
    append_note(alloc, notes, comment, &said)
}

// Whether these bytes stand somewhere in others.
fn contains(bytes: &[u8], wanted: &[u8]) -> bool {
    for at in 0..bytes.len() {
        if bytes[at..].starts_with(wanted) {
            return true;
        }
    }
    false
}

// What code a comment swallows before the opening mark in it, if it does.
fn swallowed(gap: &[u8], nested: Nested) -> Option<&'static str> {
    let end = nested.mark.min(gap.len());
    let code = &gap[nested.comment.min(end)..end];
    if !code.contains(&b';') {
        None
    } else if contains(code, b"begin") {
        Some("a block")
    } else {
        Some("a ';'")
    }
}

// Adds a warning of the comment in a gap that begins at a byte of a text, if it swallows code.
fn append_gap(
    alloc: Global,
    text: &[u8],
    begin: usize,
    gap: &[u8],
    notes: &mut String,
) -> Result<(), AllocError> {
    let Some(nested) = last_nested(gap) else {
        return Ok(());
    };
    let Some(what) = swallowed(gap, nested) else {
        return Ok(());
    };
    let Spot { file, line, column } = spot_at(text, begin.saturating_add(nested.comment));
    let mark = spot_at(text, begin.saturating_add(nested.mark));
    let (at, of) = (mark.line, mark.column);
    let said = format!(in alloc;
        "{file}:{line}:{column}: warning: this comment swallows {what}: it goes on to the first \
        closing mark, over the opening one at {at}:{of}\n"
    )?;
    notes.push_str(&said)
}

/// Adds warnings of comments that swallow code, since they hold the opening mark of another one: of
/// one between two tokens.
pub fn append_swallowing(
    alloc: Global,
    text: &[u8],
    tokens: &Tokens,
    notes: &mut String,
) -> Result<(), AllocError> {
    for place in 0..tokens.count() {
        let begin = end_before(tokens, place).min(begin_of(tokens, place));
        append_gap(alloc, text, begin, gap_before(text, tokens, place), notes)?;
    }
    Ok(())
}
