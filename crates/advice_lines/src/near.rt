//! The declarations of a name, those nearest to a place first.

use crate::declared::{append_declared, is_declared};
use crate::lines::{Mark, append_place, append_token, begin_line, spelled};
use crate::slots::{Slot, may_stand};
use est_lexer::tokens::Tokens;
use est_syntax::name::{Bytes, Name};
use rule_scope::declaration::{Meant, Sort};
use rule_scope::outline::Outline;
use std::alloc::{AllocError, Global};

// How many declarations of a name are told.
const MOST_DECLARED: usize = 4;

// Where a declaration stands, as seen from a place.
#[derive(Clone, Copy, PartialEq, Eq)]
enum Reach {
    /// In a region around the place, before it, so that the name means this.
    Here,
    /// The same, but a nearer one hides it.
    Hidden,
    /// In a region around the place, further down.
    Later,
    /// In a region around the place, and its text is not over there.
    Unfinished,
    /// Around the body that the place is in, which does not see it.
    Unseen,
    /// In no region around the place.
    Elsewhere,
}

// A declaration, and where it stands.
#[derive(Clone, Copy)]
struct Found {
    place: u32,
    reach: Reach,
}

/// The name that is spelled so, in lower case.
pub(crate) fn name_of(alloc: Global, bytes: &[u8]) -> Result<Name, AllocError> {
    Ok(Name {
        bytes: Bytes {
            items: bytes.to_ascii_lowercase(alloc)?,
        },
    })
}

/// The name at a place, in lower case.
pub fn name_at(alloc: Global, tokens: &Tokens, place: u32) -> Result<Name, AllocError> {
    name_of(alloc, spelled(tokens, place))
}

// How a declaration in a region around a place is reached, which is in force after the place
// `last`, where the name means this there.
fn reach_of(declared: u32, last: u32, place: u32, meant: Meant) -> Reach {
    if meant == Meant::Unseen(declared) {
        Reach::Unseen
    } else if place < declared {
        Reach::Later
    } else if place <= last {
        Reach::Unfinished
    } else if meant == Meant::Seen(declared) {
        Reach::Here
    } else {
        Reach::Hidden
    }
}

// Adds the declarations of a name in these regions.
fn push_regions(
    outline: &Outline,
    regions: &[u32],
    name: &Name,
    place: u32,
    found: &mut Vec<Found>,
) -> Result<(), AllocError> {
    let meant = outline.meant(name, place);
    for region in regions {
        if let Some(standing) = outline.standing(*region, name) {
            let declared = standing.place;
            let reach = reach_of(declared, standing.last, place, meant);
            found.push(Found {
                place: declared,
                reach,
            })?;
        }
    }
    Ok(())
}

// Adds the declarations of a name in the regions around a place.
fn push_around(
    outline: &Outline,
    name: &Name,
    place: u32,
    found: &mut Vec<Found>,
) -> Result<(), AllocError> {
    let Some(extent) = outline.extent(place) else {
        return Ok(());
    };
    let (own, around) = (extent.own.get().as_slice(), extent.around.get().as_slice());
    push_regions(outline, own, name, place, found)?;
    push_regions(outline, around, name, place, found)
}

// Whether a declaration of the name at a place stands at another one.
fn is_same(tokens: &Tokens, outline: &Outline, place: u32, at: u32) -> bool {
    spelled(tokens, at).eq_ignore_ascii_case(spelled(tokens, place)) && is_declared(outline, at)
}

// Adds the declarations of the name at a place that were not found yet.
fn push_elsewhere(
    tokens: &Tokens,
    outline: &Outline,
    place: u32,
    found: &mut Vec<Found>,
) -> Result<(), AllocError> {
    for at in 0..tokens.count() {
        if found.len() >= MOST_DECLARED {
            return Ok(());
        }
        if is_same(tokens, outline, place, at) && !found.iter().any(|other| other.place == at) {
            found.push(Found {
                place: at,
                reach: Reach::Elsewhere,
            })?;
        }
    }
    Ok(())
}

// The declarations of the name at a place, nearest first.
fn found_near(
    alloc: Global,
    tokens: &Tokens,
    outline: &Outline,
    place: u32,
) -> Result<Vec<Found>, AllocError> {
    let mut found = Vec::new(alloc);
    let name = name_at(alloc, tokens, place)?;
    push_around(outline, &name, place, &mut found)?;
    drop(name);
    push_elsewhere(tokens, outline, place, &mut found)?;
    Ok(found)
}

// Adds in which body a declaration stands that is not one around a place.
fn append_body(
    tokens: &Tokens,
    outline: &Outline,
    declared: u32,
    place: u32,
    notes: &mut String,
) -> Result<(), AllocError> {
    let Some(entry) = outline.entry(declared) else {
        return Ok(());
    };
    let body = entry.declared.body;
    if body == 0 || outline.lies_in(place, body) {
        return notes.push_str(", which is not in force here");
    }
    notes.push_str(" in another body, ")?;
    append_token(tokens, body, notes)
}

// Adds that nested bodies do not see what is declared at a place.
fn append_unseen(outline: &Outline, declared: u32, notes: &mut String) -> Result<(), AllocError> {
    notes.push_str(" in a body around, and nested bodies do not see it")?;
    if outline.is_sort(Sort::Procedure, declared) || outline.is_sort(Sort::Function, declared) {
        return notes.push_str(", since it uses what they do not see");
    }
    Ok(())
}

// Adds where a declaration stands, as seen from a place.
fn append_reach(
    tokens: &Tokens,
    outline: &Outline,
    found: Found,
    place: u32,
    notes: &mut String,
) -> Result<(), AllocError> {
    if found.reach == Reach::Later {
        notes.push_str(", declared later, at ")?;
        return append_place(tokens, found.place, notes);
    }
    notes.push_str(", declared at ")?;
    append_place(tokens, found.place, notes)?;
    match found.reach {
        Reach::Unfinished => notes.push_str(", and in force only after its declaration"),
        Reach::Hidden => notes.push_str(", hidden by the nearer one"),
        Reach::Unseen => append_unseen(outline, found.place, notes),
        Reach::Elsewhere => append_body(tokens, outline, found.place, place, notes),
        _ => Ok(()),
    }
}

// Begins a line on the name at a place with what is declared at another one.
fn begin_declared(
    alloc: Global,
    tokens: &Tokens,
    outline: &Outline,
    declared: u32,
    place: u32,
    notes: &mut String,
) -> Result<(), AllocError> {
    begin_line(tokens, Mark::Note, place, notes)?;
    append_token(tokens, place, notes)?;
    notes.push_str(" is ")?;
    append_declared(alloc, tokens, outline, declared, notes)
}

/// Adds a line on the name at a place, which is declared at another one.
pub fn append_declaration(
    alloc: Global,
    tokens: &Tokens,
    outline: &Outline,
    declared: u32,
    place: u32,
    notes: &mut String,
) -> Result<(), AllocError> {
    begin_declared(alloc, tokens, outline, declared, place, notes)?;
    notes.push_str(", declared at ")?;
    append_place(tokens, declared, notes)?;
    notes.push_str("\n")
}

// Adds a line on a declaration of the name at a place, and where it stands as seen from there.
fn append_found(
    alloc: Global,
    tokens: &Tokens,
    outline: &Outline,
    found: Found,
    place: u32,
    notes: &mut String,
) -> Result<(), AllocError> {
    begin_declared(alloc, tokens, outline, found.place, place, notes)?;
    append_reach(tokens, outline, found, place, notes)?;
    notes.push_str("\n")
}

/// Adds a line for each declaration of the name at a place, nearest first and four at most, and
/// answers how many of these may stand in the slot there. Where they stand as seen from the place
/// is told of these alone.
pub fn append_near(
    alloc: Global,
    tokens: &Tokens,
    outline: &Outline,
    slot: Slot,
    place: u32,
    notes: &mut String,
) -> Result<usize, AllocError> {
    let found = found_near(alloc, tokens, outline, place)?;
    let mut count: usize = 0;
    for one in found.iter().take(MOST_DECLARED) {
        if may_stand(outline, slot, one.place, place) {
            append_found(alloc, tokens, outline, *one, place, notes)?;
            count = count.saturating_add(1);
        } else {
            append_declaration(alloc, tokens, outline, one.place, place, notes)?;
        }
    }
    Ok(count)
}
