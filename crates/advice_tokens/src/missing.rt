//! What may be missing before the token of a place.

use crate::candidate::Candidate;
use crate::note::{append_note, printed};
use crate::place::{begin_of, end_before, front_of, gap_before, kind_before, spot_at, spot_of};
use crate::wanted::{MOST_TRIED, could_go_on, count_left};
use est_lexer::kind::{ReservedWord, Symbol, TokenKind};
use est_lexer::tokens::Tokens;
use std::alloc::{AllocError, Global};

const LINE_FEED: u8 = b'\n';

// So many tokens are tried after what may be missing.
const MOST_AHEAD: u32 = 8;

// What stands before a section, where ends of what is open are missing.
static ENDS: [&[u8]; 3] = [b" end ; ", b" end ; end ; ", b" end ; end ; end ; "];

// Whether the token of a place stands in the line of the one before it, and in its statement.
fn goes_on(text: &[u8], tokens: &Tokens, place: u32) -> bool {
    if place >= tokens.count() || gap_before(text, tokens, place).contains(&LINE_FEED) {
        return false;
    }
    !is_after_semicolon(tokens, place)
}

// Where the tokens end that are tried from a place on: those of its line and its statement.
fn end_of_tried(text: &[u8], tokens: &Tokens, place: u32) -> usize {
    let first = place.saturating_add(1);
    let last = first.saturating_add(MOST_AHEAD);
    for at in first..last {
        if !goes_on(text, tokens, at) {
            return end_before(tokens, at);
        }
    }
    end_before(tokens, last)
}

// What is tried from a place on.
fn tried<'t>(text: &'t [u8], tokens: &Tokens, place: u32) -> &'t [u8] {
    let end = end_of_tried(text, tokens, place).min(text.len());
    let begin = begin_of(tokens, place).min(end);
    &text[begin..end]
}

// Whether a statement or a declaration may begin with the token of a place.
fn may_begin(tokens: &Tokens, place: u32) -> bool {
    match tokens.token_at(place) {
        None => false,
        Some(token) => match token.kind {
            TokenKind::Identifier => true,
            TokenKind::Reserved(_) => true,
            _ => false,
        },
    }
}

// Whether a semicolon stands before the token of a place.
fn is_after_semicolon(tokens: &Tokens, place: u32) -> bool {
    match kind_before(tokens, place, 1) {
        Some(TokenKind::Symbol(Symbol::Semicolon)) => true,
        _ => false,
    }
}

// Whether the token of a place begins something in a later line than the one before it, which is no
// semicolon.
fn begins_line(text: &[u8], tokens: &Tokens, place: u32) -> bool {
    may_begin(tokens, place)
        && !is_after_semicolon(tokens, place)
        && gap_before(text, tokens, place).contains(&LINE_FEED)
}

// What may be missing before the token of a place that begins a line, where that could stand there
// then with the rest of its line.
fn missing_mark(
    alloc: Global,
    text: &[u8],
    tokens: &Tokens,
    place: u32,
) -> Result<Option<&'static str>, AllocError> {
    let front = front_of(text, tokens, place);
    if front.len() > MOST_TRIED || !begins_line(text, tokens, place) {
        return Ok(None);
    }
    let next = tried(text, tokens, place);
    if could_go_on(alloc, front, b" ; ", next)? {
        return Ok(Some("a ';' may be missing here"));
    }
    if could_go_on(alloc, front, b" , ", next)? {
        return Ok(Some("a ',' may be missing here"));
    }
    Ok(None)
}

/// How many tokens are left from the first bad one on where a mark stands before the token of a
/// place.
pub(crate) fn left_with_mark(
    alloc: Global,
    text: &[u8],
    tokens: &Tokens,
    place: u32,
) -> Result<u32, AllocError> {
    let (before, next) = text.split_at(begin_of(tokens, place).min(text.len()));
    let semicolon = count_left(alloc, before, b" ; ", next)?;
    let comma = count_left(alloc, before, b" , ", next)?;
    Ok(semicolon.min(comma))
}

/// Adds that a mark may be missing at the end of a line.
pub(crate) fn append_mark(
    alloc: Global,
    text: &[u8],
    tokens: &Tokens,
    place: u32,
    notes: &mut String,
) -> Result<(), AllocError> {
    match missing_mark(alloc, text, tokens, place)? {
        None => Ok(()),
        Some(said) => append_note(alloc, notes, spot_at(text, end_before(tokens, place)), said),
    }
}

// Whether `end` is among these.
fn has_end(found: &[Candidate]) -> bool {
    for candidate in found {
        match candidate {
            Candidate::Spelled(spelling) if spelling.as_bytes() == b"end".as_slice() => {
                return true;
            }
            _ => {}
        }
    }
    false
}

/// Whether an `end` may be missing before the token of a place, where these could stand: it could
/// stand there after one, two or three of them, with the rest of its line.
pub(crate) fn lacks_end(
    alloc: Global,
    text: &[u8],
    tokens: &Tokens,
    place: u32,
    found: &[Candidate],
) -> Result<bool, AllocError> {
    if !has_end(found) {
        return Ok(false);
    }
    let front = front_of(text, tokens, place);
    let next = tried(text, tokens, place);
    for ends in &ENDS {
        if could_go_on(alloc, front, ends, next)? {
            return Ok(true);
        }
    }
    Ok(false)
}

/// Adds that an `end` may be missing before the word of a place.
pub(crate) fn append_end(
    alloc: Global,
    tokens: &Tokens,
    place: u32,
    notes: &mut String,
) -> Result<(), AllocError> {
    if place >= tokens.count() {
        return Ok(());
    }
    let word = printed(alloc, tokens.spelled(place))?;
    let text = format!(in alloc; "an 'end' may be missing before '{word}'")?;
    append_note(alloc, notes, spot_of("specification", tokens, place), &text)
}

/// Whether the word of a place closes or begins something, so that nobody takes it for a name.
pub(crate) fn closes(tokens: &Tokens, place: u32) -> bool {
    match kind_before(tokens, place, 0) {
        Some(TokenKind::Reserved(word)) => is_never_name(word),
        _ => false,
    }
}

// Whether a word is none that anybody takes for a name.
fn is_never_name(word: ReservedWord) -> bool {
    match word {
        ReservedWord::Begin => true,
        ReservedWord::Body => true,
        ReservedWord::Do => true,
        ReservedWord::Else => true,
        ReservedWord::End => true,
        ReservedWord::Initialize => true,
        ReservedWord::Of => true,
        ReservedWord::Then => true,
        ReservedWord::Trans => true,
        ReservedWord::Until => true,
        _ => false,
    }
}
