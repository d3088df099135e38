//! Reserved words that stand where names do, after a first one.

use crate::candidate::Candidate;
use crate::missing::closes;
use crate::note::{append_note, printed};
use crate::place::{begin_of, end_before, kind_before, spot_of};
use crate::wanted::{MOST_TRIED, could_follow, count_left};
use advice_lines::lines::spelled;
use est_lexer::kind::TokenKind;
use est_lexer::tokens::Tokens;
use std::alloc::{AllocError, Global};

// So many words are looked at.
const MOST_WORDS: u32 = 100;

// A text with names in place of words, and the places of the words that were told.
#[derive(Drop)]
struct Mended {
    text: Vec<u8>,
    told: Vec<u32>,
}

/// Adds that the word of a place is no name.
pub(crate) fn append_no_name(
    alloc: Global,
    tokens: &Tokens,
    place: u32,
    notes: &mut String,
) -> Result<(), AllocError> {
    let word = printed(alloc, spelled(tokens, place))?;
    let text = format!(in alloc; "'{word}' is a reserved word, and no name")?;
    append_note(alloc, notes, spot_of("specification", tokens, place), &text)
}

// Puts a name in place of the word of a place.
fn put_name(tokens: &Tokens, place: u32, text: &mut Vec<u8>) {
    for at in begin_of(tokens, place)..end_before(tokens, place.saturating_add(1)) {
        if let Some(byte) = text.get_mut(at) {
            *byte = b'x';
        }
    }
}

// Whether the token of a place is a word that is no name.
fn is_reserved(tokens: &Tokens, place: u32) -> bool {
    match kind_before(tokens, place, 0) {
        Some(TokenKind::Reserved(_)) => true,
        Some(TokenKind::LeftOut(_)) => spelled(tokens, place)
            .first()
            .is_some_and(|first| first.is_ascii_alphabetic()),
        _ => false,
    }
}

// Whether the word of a place stands where a name could, in a text that is good up to there.
fn stands_for_name(
    alloc: Global,
    tokens: &Tokens,
    place: u32,
    text: &[u8],
) -> Result<bool, AllocError> {
    if !is_reserved(tokens, place) || closes(tokens, place) {
        return Ok(false);
    }
    let front = &text[..begin_of(tokens, place).min(text.len())];
    could_follow(alloc, front, Candidate::Name)
}

// Whether the word of a place is spelled as one that was told.
fn is_told(tokens: &Tokens, place: u32, told: &[u32]) -> bool {
    let word = spelled(tokens, place);
    told.iter()
        .any(|other| spelled(tokens, *other).eq_ignore_ascii_case(word))
}

// Adds that the word of a place is no name, where this was not told of it.
fn tell(
    alloc: Global,
    tokens: &Tokens,
    place: u32,
    told: &mut Vec<u32>,
    notes: &mut String,
) -> Result<(), AllocError> {
    if is_told(tokens, place, told) {
        return Ok(());
    }
    told.push(place)?;
    append_no_name(alloc, tokens, place, notes)
}

// Puts names in place of words, from that of a place on, and adds which these are: as long as the
// text then goes on beyond the next token.
fn tell_all(
    alloc: Global,
    tokens: &Tokens,
    place: u32,
    mended: &mut Mended,
    notes: &mut String,
) -> Result<(), AllocError> {
    let mut at = place;
    for _ in 0..MOST_WORDS {
        put_name(tokens, at, &mut mended.text);
        let left = count_left(alloc, &mended.text, &[], &[])?;
        let next = tokens.count().saturating_sub(left);
        if next <= at.saturating_add(1) {
            return Ok(());
        }
        tell(alloc, tokens, at, &mut mended.told, notes)?;
        if !stands_for_name(alloc, tokens, next, &mended.text)? {
            return Ok(());
        }
        at = next;
    }
    Ok(())
}

// The text before anything is mended, where the word of a place was told.
fn unmended(alloc: Global, text: &[u8], place: u32) -> Result<Mended, AllocError> {
    let told = vec![in alloc; place]?;
    match Vec::from_slice(alloc, text) {
        Ok(text) => Ok(Mended { text, told }),
        Err(error) => {
            drop(told);
            Err(error)
        }
    }
}

/// Adds which reserved words stand where names do, each once, after the one of a place, of which
/// this was told. Of a long text nothing is said.
pub(crate) fn append_other_words(
    alloc: Global,
    text: &[u8],
    tokens: &Tokens,
    place: u32,
    notes: &mut String,
) -> Result<(), AllocError> {
    if text.len() > MOST_TRIED {
        return Ok(());
    }
    let mut mended = unmended(alloc, text, place)?;
    tell_all(alloc, tokens, place, &mut mended, notes)
}
