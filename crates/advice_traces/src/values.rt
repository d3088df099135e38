//! What is to stand at a place within a value of an event.

use crate::kinds::{push_bytes, push_kind};
use crate::position::{spelled, wants_item};
use est_lexer::tokens::Tokens;
use est_syntax::kind::Kind;
use est_values::ordinals::first_ordinal;
use rule_kinds::hosts::count;
use std::alloc::{AllocError, Global};
use text_values::written_ordinals::append_ordinal;

// Takes the token of a place into how many items are whole in each list that is open.
fn take(tokens: &Tokens, place: u32, levels: &mut Vec<u32>) -> Result<(), AllocError> {
    match spelled(tokens, place) {
        [b'(' | b'['] => levels.push(0)?,
        [b')' | b']'] => {
            let _ = levels.pop();
        }
        [b','] => {
            let whole = levels.pop().unwrap_or(0);
            levels.push(whole.saturating_add(1))?;
        }
        _ => {}
    }
    Ok(())
}

// How many items are whole in each list that is open at a place: first in that of the values of a
// signal, which is at the place `signal`, and last in the innermost.
fn levels_at(
    alloc: Global,
    tokens: &Tokens,
    signal: u32,
    place: u32,
) -> Result<Vec<u32>, AllocError> {
    let mut levels = Vec::new(alloc);
    for at in signal.saturating_add(1)..place {
        take(tokens, at, &mut levels)?;
    }
    Ok(levels)
}

// Adds the subscript of the component after so many.
fn push_subscript(
    alloc: Global,
    path: &mut String,
    index: &Kind,
    whole: u32,
) -> Result<(), AllocError> {
    let mut subscript = Vec::new(alloc);
    let ordinal = first_ordinal(index).saturating_add(i32::try_from(whole).unwrap_or(i32::MAX));
    append_ordinal(&mut subscript, index, ordinal)?;
    path.push_str("[")?;
    push_bytes(alloc, path, &subscript)?;
    path.push_str("]")
}

// Adds how the item after so many is reached in a value of a kind, and tells its kind. Where it is
// no field and no component nothing is added.
fn push_selector<'k>(
    alloc: Global,
    path: &mut String,
    kind: &'k Kind,
    whole: u32,
) -> Result<&'k Kind, AllocError> {
    match kind {
        Kind::Fields(fields) => {
            let Some(field) = fields.get().as_slice().get(whole as usize) else {
                return Ok(kind);
            };
            let period = if path.is_empty() { "" } else { "." };
            path.push_str(period)?;
            push_bytes(alloc, path, field.name.bytes.as_slice())?;
            Ok(&field.kind)
        }
        Kind::ArrayOf { index, of } => {
            push_subscript(alloc, path, index.get(), whole)?;
            Ok(of.get())
        }
        _ => Ok(kind),
    }
}

// The same through several lists, the outermost first.
fn push_path<'k>(
    alloc: Global,
    path: &mut String,
    kind: &'k Kind,
    levels: &[u32],
) -> Result<&'k Kind, AllocError> {
    let mut kind = kind;
    for whole in levels {
        kind = push_selector(alloc, path, kind, *whole)?;
    }
    Ok(kind)
}

// Adds what is reached so in the value of a number.
fn push_reached(
    alloc: Global,
    text: &mut String,
    path: &str,
    number: u32,
) -> Result<(), AllocError> {
    if !path.is_empty() {
        let is_component = path.as_bytes().ends_with(b"]");
        text.push_str(if is_component {
            "the component "
        } else {
            "the field "
        })?;
        text.push_str(path)?;
        text.push_str(" of ")?;
    }
    let value = format!(in alloc; "value {number}")?;
    text.push_str(&value)
}

// Adds how many items a value has.
fn push_items(alloc: Global, text: &mut String, all: u64, word: &str) -> Result<(), AllocError> {
    let ending = if all == 1 { "" } else { "s" };
    let items = format!(in alloc; " has {all} {word}{ending}")?;
    text.push_str(&items)
}

// Adds what a value of a kind is made of, or else what its values are.
fn push_parts(alloc: Global, text: &mut String, kind: &Kind) -> Result<(), AllocError> {
    match kind {
        Kind::Fields(fields) => push_items(alloc, text, fields.get().len() as u64, "field"),
        Kind::ArrayOf { index, of: _ } => push_items(alloc, text, count(index.get()), "component"),
        _ => {
            text.push_str(" is ")?;
            push_kind(alloc, text, kind)
        }
    }
}

// A value of a number, and how many items are whole in the lists that are open in it: in those
// around the innermost one, and in that.
#[derive(Clone, Copy)]
struct Open<'l> {
    number: u32,
    around: &'l [u32],
    innermost: u32,
}

// Adds what the next item in a value of a kind is, and tells whether it is a field or a component.
fn push_next(
    alloc: Global,
    text: &mut String,
    kind: &Kind,
    open: Open,
) -> Result<bool, AllocError> {
    let mut path = String::new(alloc);
    let list = push_path(alloc, &mut path, kind, open.around)?;
    let (item, is_part) = match list {
        Kind::SetOf(base) => {
            text.push_str("a member of ")?;
            (base.get(), false)
        }
        _ => (push_selector(alloc, &mut path, list, open.innermost)?, true),
    };
    push_reached(alloc, text, &path, open.number)?;
    text.push_str(" is ")?;
    push_kind(alloc, text, item)?;
    Ok(is_part)
}

// Adds what the innermost list in a value of a kind has.
fn push_list(
    alloc: Global,
    text: &mut String,
    kind: &Kind,
    open: Open,
) -> Result<bool, AllocError> {
    let mut path = String::new(alloc);
    let list = push_path(alloc, &mut path, kind, open.around)?;
    push_reached(alloc, text, &path, open.number)?;
    push_parts(alloc, text, list)?;
    Ok(false)
}

/// Adds what is to stand at a place within the values of a signal, which have these kinds: which
/// field, component or member, or how many there are in the innermost list. Tells whether it is a
/// field or a component.
pub(crate) fn push_within(
    alloc: Global,
    text: &mut String,
    tokens: &Tokens,
    kinds: &[Kind],
    signal: u32,
    place: u32,
) -> Result<bool, AllocError> {
    let levels = levels_at(alloc, tokens, signal, place)?;
    let [whole, around @ .., innermost] = levels.as_slice() else {
        return Ok(false);
    };
    let Some(kind) = kinds.get(*whole as usize) else {
        return Ok(false);
    };
    let open = Open {
        number: whole.saturating_add(1),
        around,
        innermost: *innermost,
    };
    text.push_str("; ")?;
    if wants_item(tokens, place) {
        push_next(alloc, text, kind, open)
    } else {
        push_list(alloc, text, kind, open)
    }
}

// The kind of the item after so many in the innermost list of a value of a kind.
fn item_of<'k>(
    alloc: Global,
    kind: &'k Kind,
    around: &[u32],
    innermost: u32,
) -> Result<&'k Kind, AllocError> {
    let mut path = String::new(alloc);
    let list = push_path(alloc, &mut path, kind, around)?;
    match list {
        Kind::SetOf(base) => Ok(base.get()),
        _ => push_selector(alloc, &mut path, list, innermost),
    }
}

/// The kind of what is to stand at a place among the values of a signal, which have these kinds, or
/// within them.
pub(crate) fn kind_within<'k>(
    alloc: Global,
    tokens: &Tokens,
    kinds: &'k [Kind],
    signal: u32,
    place: u32,
) -> Result<Option<&'k Kind>, AllocError> {
    let levels = levels_at(alloc, tokens, signal, place)?;
    let [whole, within @ ..] = levels.as_slice() else {
        return Ok(None);
    };
    let Some(kind) = kinds.get(*whole as usize) else {
        return Ok(None);
    };
    let [around @ .., innermost] = within else {
        return Ok(Some(kind));
    };
    let item = item_of(alloc, kind, around, *innermost)?;
    Ok(Some(item))
}
