//! The values of kinds, as people are told them.

use advice_tokens::note::printed;
use est_syntax::kind::{Kind, MAXINT};
use est_syntax::name::Name;
use std::alloc::{AllocError, Global};
use text_values::written_ordinals::append_ordinal;

// So many constants are told at most.
const MOST_TOLD: usize = 8;

/// Adds a text of bytes.
pub(crate) fn push_bytes(alloc: Global, text: &mut String, bytes: &[u8]) -> Result<(), AllocError> {
    let written = printed(alloc, bytes)?;
    text.push_str(&written)
}

/// Adds what stands between the items of a list before the item of a number, and whether that one
/// is told.
pub(crate) fn push_separator(text: &mut String, at: usize) -> Result<bool, AllocError> {
    if at > MOST_TOLD {
        return Ok(false);
    }
    if at == MOST_TOLD {
        text.push_str(" or ..")?;
        return Ok(false);
    }
    if at > 0 {
        text.push_str(", ")?;
    }
    Ok(true)
}

// Adds the names of constants.
fn push_names(alloc: Global, text: &mut String, names: &[Name]) -> Result<(), AllocError> {
    for (at, name) in names.iter().enumerate() {
        if !push_separator(text, at)? {
            return Ok(());
        }
        push_bytes(alloc, text, name.bytes.as_slice())?;
    }
    Ok(())
}

// Adds the ordinals of a kind from one to another.
fn push_bounds(
    alloc: Global,
    text: &mut String,
    kind: &Kind,
    low: i32,
    high: i32,
) -> Result<(), AllocError> {
    let mut bytes = Vec::new(alloc);
    append_ordinal(&mut bytes, kind, low)?;
    bytes.extend_from_slice(b" to ")?;
    append_ordinal(&mut bytes, kind, high)?;
    push_bytes(alloc, text, &bytes)
}

/// Adds what the values of a kind are.
pub(crate) fn push_kind(alloc: Global, text: &mut String, kind: &Kind) -> Result<(), AllocError> {
    match kind {
        Kind::Integer => {
            let written = format!(in alloc; "a number from -{MAXINT} to {MAXINT}")?;
            text.push_str(&written)
        }
        Kind::Boolean => text.push_str("false or true"),
        Kind::Char => text.push_str("a character between quotes, or chr(CODE)"),
        Kind::Enumeration { declared: _, names } => {
            text.push_str("one of ")?;
            push_names(alloc, text, names.get().as_slice())
        }
        Kind::Part { host: _, low, high } => push_bounds(alloc, text, kind, *low, *high),
        Kind::SetOf(_) => text.push_str("the members of a set in brackets"),
        Kind::ArrayOf { index: _, of: _ } => text.push_str("the components in parentheses"),
        Kind::Fields(_) => text.push_str("the values of the fields in parentheses"),
    }
}
