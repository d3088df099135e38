//! Names that are similar to the one at a place, and may stand there.

use crate::declared::append_declared;
use crate::lines::{Mark, append_bytes, append_place, append_token, begin_line, spelled};
use crate::near::{name_at, name_of};
use crate::similar::is_similar;
use crate::slots::{Slot, may_stand, takes};
use crate::sorts::predeclared_sort;
use est_lexer::tokens::Tokens;
use rule_scope::declaration::Meant;
use rule_scope::outline::Outline;
use std::alloc::{AllocError, Global};

/// How many similar names are told.
pub const MOST_SIMILAR: usize = 3;

// The predeclared names.
static PREDECLARED: [&[u8]; 13] = [
    b"integer", b"boolean", b"char", b"false", b"true", b"maxint", b"ord", b"chr", b"succ",
    b"pred", b"abs", b"odd", b"sqr",
];

/// Adds a line on a declared name that is similar to the one at a place.
pub fn append_alike(
    alloc: Global,
    tokens: &Tokens,
    outline: &Outline,
    declared: u32,
    place: u32,
    notes: &mut String,
) -> Result<(), AllocError> {
    begin_line(tokens, Mark::Note, place, notes)?;
    notes.push_str("similar: ")?;
    append_token(tokens, declared, notes)?;
    notes.push_str(" is ")?;
    append_declared(alloc, tokens, outline, declared, notes)?;
    notes.push_str(", declared at ")?;
    append_place(tokens, declared, notes)?;
    notes.push_str("\n")
}

// Adds a line on a predeclared name that is similar to the one at a place.
fn append_predeclared(
    tokens: &Tokens,
    name: &[u8],
    place: u32,
    notes: &mut String,
) -> Result<(), AllocError> {
    begin_line(tokens, Mark::Note, place, notes)?;
    notes.push_str("similar: ")?;
    append_bytes(name, notes)?;
    notes.push_str(" is predeclared\n")
}

// Whether the name that is declared at a place may stand in a slot at another one, and means there
// what is declared so.
fn is_meant(
    alloc: Global,
    tokens: &Tokens,
    outline: &Outline,
    slot: Slot,
    declared: u32,
    place: u32,
) -> Result<bool, AllocError> {
    if !may_stand(outline, slot, declared, place) {
        return Ok(false);
    }
    let name = name_at(alloc, tokens, declared)?;
    Ok(outline.meant(&name, place) == Meant::Seen(declared))
}

// Whether a predeclared name may stand in a slot at a place, and means there what is predeclared.
fn is_known(
    alloc: Global,
    outline: &Outline,
    slot: Slot,
    bytes: &[u8],
    place: u32,
) -> Result<bool, AllocError> {
    let name = name_of(alloc, bytes)?;
    Ok(match outline.meant(&name, place) {
        Meant::Predeclared(known) => takes(slot, predeclared_sort(known)),
        _ => false,
    })
}

// Adds lines on the declared names that are similar to the one at a place and may stand in the slot
// there, and answers how many these are.
fn append_declarations(
    alloc: Global,
    tokens: &Tokens,
    outline: &Outline,
    slot: Slot,
    place: u32,
    notes: &mut String,
) -> Result<usize, AllocError> {
    let mut count: usize = 0;
    for at in 0..tokens.count() {
        if count < MOST_SIMILAR
            && is_similar(spelled(tokens, place), spelled(tokens, at))
            && is_meant(alloc, tokens, outline, slot, at, place)?
        {
            append_alike(alloc, tokens, outline, at, place, notes)?;
            count = count.saturating_add(1);
        }
    }
    Ok(count)
}

/// Adds lines on the names that are similar to the one at a place and may stand in the slot there,
/// three at most, and answers how many these are.
pub fn append_similar(
    alloc: Global,
    tokens: &Tokens,
    outline: &Outline,
    slot: Slot,
    place: u32,
    notes: &mut String,
) -> Result<usize, AllocError> {
    let mut count = append_declarations(alloc, tokens, outline, slot, place, notes)?;
    for name in &PREDECLARED {
        if count < MOST_SIMILAR
            && is_similar(spelled(tokens, place), name)
            && is_known(alloc, outline, slot, name, place)?
        {
            append_predeclared(tokens, name, place, notes)?;
            count = count.saturating_add(1);
        }
    }
    Ok(count)
}
