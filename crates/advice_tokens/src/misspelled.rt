//! Names that may be misspelled words.

use crate::candidate::{GOING_ON, SPELLINGS};
use crate::missing::{append_mark, left_with_mark};
use crate::note::{append_note, printed};
use crate::place::{begin_of, end_before, kind_before, spot_of};
use crate::wanted::{MOST_TRIED, count_left};
use advice_lines::lines::spelled;
use advice_lines::similar::is_similar;
use est_lexer::kind::TokenKind;
use est_lexer::tokens::Tokens;
use std::alloc::{AllocError, Global};

// So many tokens before a refused one are looked at.
const MOST_BACK: u32 = 40;

// The name of a place, and the text before and after it.
#[derive(Clone, Copy)]
struct Around<'t> {
    place: u32,
    before: &'t [u8],
    name: &'t [u8],
    after: &'t [u8],
}

// A word for which the name of a place may be misspelled, and how many tokens are left from the
// first bad one on with the word in its place.
#[derive(Clone, Copy)]
struct Misspelled {
    place: u32,
    word: &'static str,
    left: u32,
}

// A text around the name of a place.
fn around_name<'t>(text: &'t [u8], tokens: &Tokens, place: u32) -> Around<'t> {
    let end = end_before(tokens, place.saturating_add(1)).min(text.len());
    let begin = begin_of(tokens, place).min(end);
    Around {
        place,
        before: &text[..begin],
        name: &text[begin..end],
        after: &text[end..],
    }
}

// Whether two letters are those of a word of two, exchanged.
fn is_exchanged(name: &[u8], word: &[u8]) -> bool {
    match (name, word) {
        ([first, second], [third, fourth]) => {
            first.eq_ignore_ascii_case(fourth) && second.eq_ignore_ascii_case(third)
        }
        _ => false,
    }
}

// Whether a name has a letter more or less than a word, another one, or two that are exchanged.
fn is_slip(name: &[u8], word: &[u8]) -> bool {
    let (longer, shorter) = (name.len().max(word.len()), name.len().min(word.len()));
    is_exchanged(name, word) || (longer - shorter < 2 && is_similar(name, word))
}

// Takes a word for a name, where the text goes on farther with it than with the best one so far.
fn try_word(
    alloc: Global,
    around: Around,
    word: &'static str,
    best: &mut Misspelled,
) -> Result<(), AllocError> {
    if !is_slip(around.name, word.as_bytes()) {
        return Ok(());
    }
    let left = count_left(alloc, around.before, word.as_bytes(), around.after)?;
    if left < best.left {
        *best = Misspelled {
            place: around.place,
            word,
            left,
        };
    }
    Ok(())
}

// Tries words for a name.
fn try_words(
    alloc: Global,
    around: Around,
    words: &[&'static str],
    best: &mut Misspelled,
) -> Result<(), AllocError> {
    for word in words.iter() {
        try_word(alloc, around, word, best)?;
    }
    Ok(())
}

// Whether the token of a place stands before it too, as a name does that is declared.
fn stands_before(tokens: &Tokens, place: u32) -> bool {
    for at in 0..place {
        if spelled(tokens, at).eq_ignore_ascii_case(spelled(tokens, place)) {
            return true;
        }
    }
    false
}

// Whether the token of a place is a name that stands there for the first time.
fn is_new_name(tokens: &Tokens, place: u32) -> bool {
    match kind_before(tokens, place, 0) {
        Some(TokenKind::Identifier) => !stands_before(tokens, place),
        _ => false,
    }
}

// Tries all words for the token of a place, if it may be a misspelled word.
fn try_name(
    alloc: Global,
    text: &[u8],
    tokens: &Tokens,
    place: u32,
    best: &mut Misspelled,
) -> Result<(), AllocError> {
    if !is_new_name(tokens, place) {
        return Ok(());
    }
    let around = around_name(text, tokens, place);
    try_words(alloc, around, &GOING_ON, best)?;
    try_words(alloc, around, &SPELLINGS, best)
}

// Tries all words for the refused name of a place and for the names before it, the last one first.
fn try_names(
    alloc: Global,
    text: &[u8],
    tokens: &Tokens,
    place: u32,
    best: &mut Misspelled,
) -> Result<(), AllocError> {
    for back in 0..MOST_BACK {
        match place.checked_sub(back) {
            None => return Ok(()),
            Some(at) => try_name(alloc, text, tokens, at, best)?,
        }
    }
    Ok(())
}

// A text up to where it is tried with other words before a place: nothing after a long beginning.
fn tried_text<'t>(text: &'t [u8], tokens: &Tokens, place: u32) -> &'t [u8] {
    let begin = begin_of(tokens, place);
    if begin > MOST_TRIED {
        return &[];
    }
    &text[..begin.saturating_add(MOST_TRIED).min(text.len())]
}

// The word for which a name may be misspelled that stands at a refused place or before it: with the
// word the text goes on for a token after that place, or to the end.
fn misspelled_at(
    alloc: Global,
    text: &[u8],
    tokens: &Tokens,
    place: u32,
) -> Result<Option<Misspelled>, AllocError> {
    let (before, after) = text.split_at(begin_of(tokens, place).min(text.len()));
    let left = count_left(alloc, before, b"", after)?;
    if left == 0 {
        return Ok(None);
    }
    let mut best = Misspelled {
        place,
        word: "",
        left: left.saturating_sub(1).max(1),
    };
    try_names(alloc, text, tokens, place, &mut best)?;
    Ok(if best.word.is_empty() {
        None
    } else {
        Some(best)
    })
}

// Adds that a name may be a misspelled word.
fn append_word(
    alloc: Global,
    tokens: &Tokens,
    found: Misspelled,
    notes: &mut String,
) -> Result<(), AllocError> {
    let Misspelled { place, word, .. } = found;
    let name = printed(alloc, spelled(tokens, place))?;
    let said = format!(in alloc; "'{name}' may be a misspelling of '{word}'")?;
    append_note(alloc, notes, spot_of("specification", tokens, place), &said)
}

/// Adds that a name may be a misspelled word which stands at a refused place or before it, unless a
/// mark before that place makes the text whole; and that the mark may be missing, unless the text
/// goes on farther with the word.
pub(crate) fn append_slip(
    alloc: Global,
    text: &[u8],
    tokens: &Tokens,
    place: u32,
    notes: &mut String,
) -> Result<(), AllocError> {
    let near = tried_text(text, tokens, place);
    let Some(found) = misspelled_at(alloc, near, tokens, place)? else {
        return append_mark(alloc, text, tokens, place, notes);
    };
    let left = left_with_mark(alloc, near, tokens, place)?;
    if left > 0 || found.left == 0 {
        append_word(alloc, tokens, found, notes)?;
    }
    if left <= found.left {
        append_mark(alloc, text, tokens, place, notes)?;
    }
    Ok(())
}
