//! What is declared at a place, in words.

use crate::kinds::append_kind;
use crate::lines::append_token;
use crate::sorts::{member_word, sort_word};
use est_lexer::tokens::Tokens;
use est_syntax::channel::Role;
use rule_scope::declaration::{Entry, Measured, Side, Sort};
use rule_scope::outline::Outline;
use std::alloc::{AllocError, Global};

// Adds a kind after some words, where it is known.
fn append_known(
    alloc: Global,
    tokens: &Tokens,
    words: &str,
    kind: &Option<Measured>,
    notes: &mut String,
) -> Result<(), AllocError> {
    match kind {
        None => Ok(()),
        Some(measured) => {
            notes.push_str(words)?;
            append_kind(alloc, tokens, &measured.kind, notes)
        },
    }
}

// The place of the name of a role of a channel.
fn role_place(outline: &Outline, side: Side) -> Option<u32> {
    match side.role {
        Role::First => outline.nth(side.channel, 0),
        Role::Second => outline.nth(side.channel, 1),
    }
}

/// Adds a channel and a role of it.
pub fn append_side(
    tokens: &Tokens,
    outline: &Outline,
    side: Side,
    notes: &mut String,
) -> Result<(), AllocError> {
    append_token(tokens, side.channel, notes)?;
    match role_place(outline, side) {
        None => Ok(()),
        Some(place) => {
            notes.push_str("(")?;
            append_token(tokens, place, notes)?;
            notes.push_str(")")
        },
    }
}

// Adds the side of an interaction point, where it is known.
fn append_point(
    tokens: &Tokens,
    outline: &Outline,
    side: Option<Side>,
    notes: &mut String,
) -> Result<(), AllocError> {
    match side {
        None => Ok(()),
        Some(side) => {
            notes.push_str(" of ")?;
            append_side(tokens, outline, side, notes)
        },
    }
}

// Adds the header that a module variable or a body is for, where it is known.
fn append_header(
    tokens: &Tokens,
    header: Option<u32>,
    notes: &mut String,
) -> Result<(), AllocError> {
    match header {
        None => Ok(()),
        Some(header) => {
            notes.push_str(" for ")?;
            append_token(tokens, header, notes)
        },
    }
}

// Adds what more is known of a declaration.
fn append_more(
    alloc: Global,
    tokens: &Tokens,
    outline: &Outline,
    entry: &Entry,
    notes: &mut String,
) -> Result<(), AllocError> {
    match entry.declared.sort {
        Sort::Constant => append_known(alloc, tokens, " of type ", &entry.kind, notes),
        Sort::Variable => append_known(alloc, tokens, " of type ", &entry.kind, notes),
        Sort::Function => append_known(alloc, tokens, " that gives ", &entry.kind, notes),
        Sort::Point => append_point(tokens, outline, entry.side, notes),
        Sort::ModuleVariable => append_header(tokens, entry.header, notes),
        Sort::Body => append_header(tokens, entry.header, notes),
        _ => Ok(()),
    }
}

/// Adds what is declared at a place, if something is: its sort, and its type, its channel or its
/// header.
pub fn append_declared(
    alloc: Global,
    tokens: &Tokens,
    outline: &Outline,
    place: u32,
    notes: &mut String,
) -> Result<(), AllocError> {
    let Some(entry) = outline.entry(place) else {
        return match outline.member(place) {
            None => notes.push_str("a name"),
            Some(member) => notes.push_str(member_word(member)),
        };
    };
    notes.push_str(sort_word(entry.declared.sort, entry.section))?;
    append_more(alloc, tokens, outline, entry, notes)
}

/// Whether something is declared at a place.
pub fn is_declared(outline: &Outline, place: u32) -> bool {
    outline.entry(place).is_some() || outline.member(place).is_some()
}
