//! The names of channels, records and headers that a place takes.

use crate::owner::{Owner, can_be_meant, region_of};
use advice_lines::alike_names::{MOST_SIMILAR, append_alike};
use advice_lines::kinds::append_kind;
use advice_lines::lines::{Mark, append_bytes, append_token, begin_line, spelled};
use advice_lines::similar::is_similar;
use est_lexer::tokens::Tokens;
use est_syntax::kind::Kind;
use rule_scope::outline::Outline;
use std::alloc::{AllocError, Global};

// How many names are told.
const MOST_MEMBERS: usize = 8;

/// How many names a region has.
pub(crate) fn count_in(outline: &Outline, region: u32) -> usize {
    match outline.names(region) {
        None => 0,
        Some(names) => names.len(),
    }
}

/// Adds the names of an owner that can be meant, as ` a, b`, and ends the line.
pub(crate) fn append_members(
    tokens: &Tokens,
    outline: &Outline,
    owner: Owner<'_>,
    notes: &mut String,
) -> Result<(), AllocError> {
    let region = region_of(owner).unwrap_or(0);
    let mut count: usize = 0;
    for number in 0..count_in(outline, region) {
        let place = outline.nth(region, number).unwrap_or(0);
        if count < MOST_MEMBERS && can_be_meant(outline, owner, place) {
            notes.push_str(if count == 0 { " " } else { ", " })?;
            append_token(tokens, place, notes)?;
            count = count.saturating_add(1);
        }
    }
    notes.push_str(if count == 0 { " nothing\n" } else { "\n" })
}

// Adds a line on the names of a region that a place takes, which is called so.
fn append_named(
    tokens: &Tokens,
    outline: &Outline,
    owner: Owner<'_>,
    called: &str,
    region: u32,
    notes: &mut String,
) -> Result<(), AllocError> {
    notes.push_str(called)?;
    append_token(tokens, region, notes)?;
    notes.push_str(":")?;
    append_members(tokens, outline, owner, notes)
}

/// Adds a line on what the name at a place is to be a name of, but for interactions.
pub(crate) fn append_owner(
    alloc: Global,
    tokens: &Tokens,
    outline: &Outline,
    owner: Owner<'_>,
    place: u32,
    notes: &mut String,
) -> Result<(), AllocError> {
    begin_line(tokens, Mark::Note, place, notes)?;
    notes.push_str("here stands ")?;
    match owner {
        Owner::Roles(channel) => {
            append_named(tokens, outline, owner, "a role of ", channel, notes)
        },
        Owner::Signals { side, .. } => append_named(
            tokens,
            outline,
            owner,
            "an interaction of ",
            side.channel,
            notes,
        ),
        Owner::Exports(header) => append_named(
            tokens,
            outline,
            owner,
            "an exported variable of ",
            header,
            notes,
        ),
        Owner::Points(header) => append_named(
            tokens,
            outline,
            owner,
            "an interaction point of ",
            header,
            notes,
        ),
        Owner::Fields(kind) => {
            notes.push_str("a field of ")?;
            append_kind(alloc, tokens, kind, notes)?;
            notes.push_str("\n")
        },
    }
}

// Adds a line on a field that is similar to the name at a place.
fn append_field(
    alloc: Global,
    tokens: &Tokens,
    name: &[u8],
    kind: &Kind,
    place: u32,
    notes: &mut String,
) -> Result<(), AllocError> {
    begin_line(tokens, Mark::Note, place, notes)?;
    notes.push_str("similar: ")?;
    append_bytes(name, notes)?;
    notes.push_str(" is a field of type ")?;
    append_kind(alloc, tokens, kind, notes)?;
    notes.push_str("\n")
}

// Adds lines on the fields of a record of this kind that are similar to the name at a place.
fn append_fields(
    alloc: Global,
    tokens: &Tokens,
    kind: &Kind,
    place: u32,
    notes: &mut String,
) -> Result<(), AllocError> {
    let Kind::Fields(fields) = kind else {
        return Ok(());
    };
    let mut count: usize = 0;
    for field in fields.get().as_slice() {
        let name = field.name.bytes.as_slice();
        if count < MOST_SIMILAR && is_similar(spelled(tokens, place), name) {
            append_field(alloc, tokens, name, &field.kind, place, notes)?;
            count = count.saturating_add(1);
        }
    }
    Ok(())
}

// Adds lines on the names of a region that can be meant and are similar to the one at a place.
fn append_alikes(
    alloc: Global,
    tokens: &Tokens,
    outline: &Outline,
    owner: Owner<'_>,
    region: u32,
    place: u32,
    notes: &mut String,
) -> Result<(), AllocError> {
    let mut count: usize = 0;
    for number in 0..count_in(outline, region) {
        let at = outline.nth(region, number).unwrap_or(0);
        if count < MOST_SIMILAR
            && is_similar(spelled(tokens, place), spelled(tokens, at))
            && can_be_meant(outline, owner, at)
        {
            append_alike(alloc, tokens, outline, at, place, notes)?;
            count = count.saturating_add(1);
        }
    }
    Ok(())
}

/// Adds lines on the names of an owner that can be meant and are similar to the one at a place,
/// three at most.
pub(crate) fn append_similar_members(
    alloc: Global,
    tokens: &Tokens,
    outline: &Outline,
    owner: Owner<'_>,
    place: u32,
    notes: &mut String,
) -> Result<(), AllocError> {
    match (owner, region_of(owner)) {
        (Owner::Fields(kind), _) => append_fields(alloc, tokens, kind, place, notes),
        (_, Some(region)) => { append_alikes(alloc, tokens, outline, owner, region, place, notes) },
        _ => Ok(()),
    }
}
