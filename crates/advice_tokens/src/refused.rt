//! The notes of a specification that is refused at a token.

use crate::bad_bytes::text_of_bytes;
use crate::candidate::Candidate;
use crate::comments::append_comment;
use crate::forms::{form_text, is_for_type};
use crate::left_out::left_out_text;
use crate::missing::{append_end, closes, lacks_end};
use crate::misspelled::append_slip;
use crate::note::{Spot, append_note};
use crate::other_words::{append_no_name, append_other_words};
use crate::place::{front_of, gap_before, kind_before, spot_of};
use crate::wanted::{MOST_TOLD, wanted};
use est_lexer::kind::{ReservedWord, TokenKind};
use est_lexer::tokens::Tokens;
use std::alloc::{AllocError, Global};

/// Adds what is known of the token of a place, or of the end of a text, where the grammar of
/// specifications refuses it: what it is, what could stand there, and what is known to go wrong so.
pub fn append_refused(
    alloc: Global,
    text: &[u8],
    tokens: &Tokens,
    place: u32,
    notes: &mut String,
) -> Result<(), AllocError> {
    append_candidates(alloc, text, tokens, place, notes)?;
    append_form(alloc, tokens, place, notes)?;
    append_slip(alloc, text, tokens, place, notes)?;
    append_set(alloc, text, tokens, place, notes)?;
    append_comment(alloc, text, tokens, place, notes)
}

// The bytes of the token of a place, which may be a slip for another one, and none of a word.
fn slip_at<'t>(tokens: &'t Tokens, place: u32) -> &'t [u8] {
    if place >= tokens.count() {
        return &[];
    }
    match kind_before(tokens, place, 0) {
        Some(TokenKind::Reserved(_)) => &[],
        _ => tokens.spelled(place),
    }
}

// Adds what the token of a place is and what could stand there.
fn append_candidates(
    alloc: Global,
    text: &[u8],
    tokens: &Tokens,
    place: u32,
    notes: &mut String,
) -> Result<(), AllocError> {
    let found = wanted(alloc, front_of(text, tokens, place), slip_at(tokens, place))?;
    append_known(alloc, text, tokens, place, &found, notes)
}

// Adds what the token of a place is, and that these could stand there.
fn append_known(
    alloc: Global,
    text: &[u8],
    tokens: &Tokens,
    place: u32,
    found: &[Candidate],
    notes: &mut String,
) -> Result<(), AllocError> {
    append_token(alloc, text, tokens, place, found, notes)?;
    append_wanted(alloc, spot_of("specification", tokens, place), found, notes)
}

/// Adds what is known of a token that opens a level too many.
pub fn append_too_deep(
    alloc: Global,
    tokens: &Tokens,
    place: u32,
    notes: &mut String,
) -> Result<(), AllocError> {
    let spot = spot_of("specification", tokens, place);
    let text = "32 levels are open here: make a routine or a type of what is inside";
    append_note(alloc, notes, spot, text)
}

// Adds what the token of a place is, where a token of these kinds could stand.
fn append_token(
    alloc: Global,
    text: &[u8],
    tokens: &Tokens,
    place: u32,
    found: &[Candidate],
    notes: &mut String,
) -> Result<(), AllocError> {
    let spot = spot_of("specification", tokens, place);
    let Some(token) = tokens.token_at(place) else {
        return append_note(alloc, notes, spot, "the text ends here");
    };
    match token.kind {
        TokenKind::Bad => {
            let known = text_of_bytes(text, token.start as usize);
            append_note(alloc, notes, spot, known)
        }
        TokenKind::LeftOut(word) => {
            if !is_for_name(tokens, place, found) {
                append_note(alloc, notes, spot, left_out_text(tokens, place, word))?;
            }
            append_word(alloc, text, tokens, place, found, notes)
        }
        TokenKind::Reserved(_) => append_word(alloc, text, tokens, place, found, notes),
        _ => Ok(()),
    }
}

// Whether a name is among these.
fn has_name(found: &[Candidate]) -> bool {
    match found.first() {
        Some(Candidate::Name) => true,
        _ => false,
    }
}

// Whether a name is declared or meant at the word of a place, and no type, where these could stand:
// then nothing stands there in its place but a name, or a word more.
fn is_for_name(tokens: &Tokens, place: u32, found: &[Candidate]) -> bool {
    is_word(tokens, place) && has_name(found) && found.len() < 3 && !is_for_type(tokens, place)
}

// Whether the token of a place is a word.
fn is_word(tokens: &Tokens, place: u32) -> bool {
    place < tokens.count()
        && match tokens.spelled(place).first() {
            None => false,
            Some(first) => first.is_ascii_alphabetic(),
        }
}

// Adds what is wrong with the word of a place, where a name could stand and nothing else is known.
fn append_word(
    alloc: Global,
    text: &[u8],
    tokens: &Tokens,
    place: u32,
    found: &[Candidate],
    notes: &mut String,
) -> Result<(), AllocError> {
    if !is_word(tokens, place) || !has_name(found) || form_text(tokens, place).is_some() {
        return Ok(());
    }
    if is_after_comment(text, tokens, place) {
        return Ok(());
    }
    if lacks_end(alloc, text, tokens, place, found)? {
        return append_end(alloc, tokens, place, notes);
    }
    append_words(alloc, text, tokens, place, notes)
}

// Adds that the word of a place is no name, and those after it that are none either.
fn append_words(
    alloc: Global,
    text: &[u8],
    tokens: &Tokens,
    place: u32,
    notes: &mut String,
) -> Result<(), AllocError> {
    if place >= tokens.count() || closes(tokens, place) {
        return Ok(());
    }
    append_no_name(alloc, tokens, place, notes)?;
    append_other_words(alloc, text, tokens, place, notes)
}

// Adds a candidate as it is told.
fn push_candidate(text: &mut String, candidate: Candidate) -> Result<(), AllocError> {
    match candidate {
        Candidate::Name => text.push_str("a name"),
        Candidate::Number => text.push_str("a number"),
        Candidate::Character => text.push_str("a character"),
        Candidate::Spelled(spelling) => {
            text.push_str("'")?;
            text.push_str(spelling)?;
            text.push_str("'")
        }
    }
}

// Adds candidates, as many as are told.
fn push_candidates(text: &mut String, found: &[Candidate]) -> Result<(), AllocError> {
    for (at, candidate) in found.iter().enumerate() {
        if at == MOST_TOLD {
            return text.push_str(" or ..");
        }
        if at > 0 {
            text.push_str(", ")?;
        }
        push_candidate(text, *candidate)?;
    }
    Ok(())
}

// Adds what could stand at a place.
fn append_wanted(
    alloc: Global,
    spot: Spot,
    found: &[Candidate],
    notes: &mut String,
) -> Result<(), AllocError> {
    if found.is_empty() {
        return Ok(());
    }
    let mut text = String::from_str(alloc, "could stand here: ")?;
    push_candidates(&mut text, found)?;
    append_note(alloc, notes, spot, &text)
}

// Adds what is known to go wrong at the token of a place.
fn append_form(
    alloc: Global,
    tokens: &Tokens,
    place: u32,
    notes: &mut String,
) -> Result<(), AllocError> {
    match form_text(tokens, place) {
        None => Ok(()),
        Some(text) => append_note(alloc, notes, spot_of("specification", tokens, place), text),
    }
}

// Whether a comment stands before a place, where a set may be meant.
fn is_after_comment(text: &[u8], tokens: &Tokens, place: u32) -> bool {
    match kind_before(tokens, place, 1) {
        Some(TokenKind::Reserved(ReservedWord::In)) => {
            gap_before(text, tokens, place).contains(&b'{')
        }
        _ => false,
    }
}

// Adds that a comment stands where a set may be meant.
fn append_set(
    alloc: Global,
    text: &[u8],
    tokens: &Tokens,
    place: u32,
    notes: &mut String,
) -> Result<(), AllocError> {
    if !is_after_comment(text, tokens, place) {
        return Ok(());
    }
    let spot = spot_of("specification", tokens, place);
    append_note(
        alloc,
        notes,
        spot,
        "a comment stands in { }, and a set in [ ]",
    )
}
