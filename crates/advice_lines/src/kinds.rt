//! Types, as the language writes them.

use crate::lines::{append_bytes, append_token, spelled};
use est_lexer::tokens::Tokens;
use est_syntax::kind::{FieldKind, Kind};
use est_values::types::{Host, ValueType};
use std::alloc::{AllocError, Global};
use text_values::written_ordinals::append_ordinal;

// How many names of an enumeration or a record are told.
const MOST_NAMES: usize = 4;

// The place of the name of a type whose text begins at a place, if it has one.
fn name_before(tokens: &Tokens, place: u32) -> Option<u32> {
    let equal = place.checked_sub(1)?;
    if spelled(tokens, equal) == b"=".as_slice() {
        equal.checked_sub(1)
    } else {
        None
    }
}

// The place of the constant with a number of an enumeration whose text begins at a place.
fn constant_place(place: u32, number: usize) -> u32 {
    let number = number.min(MOST_NAMES) as u32;
    place.saturating_add(1).saturating_add(2 * number)
}

// Adds the constants of an enumeration whose text begins at a place, and which has so many.
fn append_constants(
    tokens: &Tokens,
    place: u32,
    count: usize,
    notes: &mut String,
) -> Result<(), AllocError> {
    notes.push_str("(")?;
    for number in 0..count.min(MOST_NAMES) {
        notes.push_str(if number == 0 { "" } else { ", " })?;
        append_token(tokens, constant_place(place, number), notes)?;
    }
    notes.push_str(if count > MOST_NAMES { ", ..)" } else { ")" })
}

// Adds an enumeration whose text begins at a place: its name, or else its constants.
fn append_enumeration(
    tokens: &Tokens,
    place: u32,
    count: usize,
    notes: &mut String,
) -> Result<(), AllocError> {
    match name_before(tokens, place) {
        Some(name) => append_token(tokens, name, notes),
        None => append_constants(tokens, place, count, notes),
    }
}

// Adds an ordinal of a kind.
fn append_bound(
    alloc: Global,
    kind: &Kind,
    ordinal: i32,
    notes: &mut String,
) -> Result<(), AllocError> {
    let mut text = Vec::new(alloc);
    append_ordinal(&mut text, kind, ordinal)?;
    append_bytes(&text, notes)
}

// Adds the ordinals of a kind from one to another.
fn append_range(
    alloc: Global,
    kind: &Kind,
    low: i32,
    high: i32,
    notes: &mut String,
) -> Result<(), AllocError> {
    append_bound(alloc, kind, low, notes)?;
    notes.push_str("..")?;
    append_bound(alloc, kind, high, notes)
}

// Adds the names of the fields of a record.
fn append_fields(fields: &[FieldKind], notes: &mut String) -> Result<(), AllocError> {
    notes.push_str("record ")?;
    for (number, field) in fields.iter().take(MOST_NAMES).enumerate() {
        notes.push_str(if number == 0 { "" } else { ", " })?;
        append_bytes(field.name.bytes.as_slice(), notes)?;
    }
    notes.push_str(if fields.len() > MOST_NAMES {
        ", .. end"
    } else {
        " end"
    })
}

/// Adds a kind. Of an enumeration that has a name this is the name.
pub fn append_kind(
    alloc: Global,
    tokens: &Tokens,
    kind: &Kind,
    notes: &mut String,
) -> Result<(), AllocError> {
    match kind {
        Kind::Integer => notes.push_str("integer"),
        Kind::Boolean => notes.push_str("boolean"),
        Kind::Char => notes.push_str("char"),
        Kind::Enumeration { declared, names } => {
            append_enumeration(tokens, *declared, names.get().len(), notes)
        },
        Kind::Part { host, low, high } => append_range(alloc, host.get(), *low, *high, notes),
        Kind::SetOf(base) => {
            notes.push_str("set of ")?;
            append_kind(alloc, tokens, base.get(), notes)
        },
        Kind::ArrayOf { index, of } => {
            notes.push_str("array [")?;
            append_kind(alloc, tokens, index.get(), notes)?;
            notes.push_str("] of ")?;
            append_kind(alloc, tokens, of.get(), notes)
        },
        Kind::Fields(fields) => append_fields(fields.get().as_slice(), notes),
    }
}

/// Adds an ordinal type that is no part of another.
pub fn append_host(tokens: &Tokens, host: Host, notes: &mut String) -> Result<(), AllocError> {
    match host {
        Host::Integer => notes.push_str("integer"),
        Host::Boolean => notes.push_str("boolean"),
        Host::Char => notes.push_str("char"),
        Host::Enumeration { declared, count } => append_enumeration(tokens, declared, count, notes),
    }
}

/// Adds what an expression yields.
pub fn append_type(
    alloc: Global,
    tokens: &Tokens,
    kind: ValueType<'_>,
    notes: &mut String,
) -> Result<(), AllocError> {
    match kind {
        ValueType::Ordinal(host) => append_host(tokens, host, notes),
        ValueType::Set(None) => notes.push_str("[ ]"),
        ValueType::Set(Some(host)) => {
            notes.push_str("set of ")?;
            append_host(tokens, host, notes)
        },
        ValueType::Group(kind) => append_kind(alloc, tokens, kind, notes),
    }
}
