//! The warnings of a specification.

use crate::hiding::push_hidden;
use crate::links::{Found, push_unjoined};
use crate::statements::push_blocks;
use crate::unread::push_unread;
use crate::unused::{push_unused, uses};
use crate::walk::{push_parts, push_points};
use crate::warning::{Warning, append_warning};
use est_lexer::tokens::Tokens;
use est_syntax::specification::Spec;
use rule_scope::outline::Outline;
use std::alloc::{AllocError, Global};

// How many warnings are told.
const MOST_WARNINGS: usize = 64;

// Adds the first interaction point without a queue discipline, where there is no default.
fn push_queue(alloc: Global, spec: &Spec, found: &mut Vec<Warning>) -> Result<(), AllocError> {
    if spec.queue.is_some() {
        return Ok(());
    }
    let mut points = Vec::new(alloc);
    push_points(spec.parts.as_slice(), &mut points)?;
    match points.first() {
        None => (),
        Some(first) => found.push(*first)?,
    }
    Ok(())
}

// What is found in the statements of a specification, where it is known which names are used.
fn found_in_statements(
    alloc: Global,
    tokens: &Tokens,
    outline: &Outline,
    spec: &Spec,
    used: &[bool],
) -> Result<Vec<Warning>, AllocError> {
    let mut found = Found::new(alloc, used.len())?;
    push_blocks(outline, spec.parts.as_slice(), &mut found)?;
    push_unjoined(tokens, outline, spec, used, &mut found)?;
    Ok(found.into_warnings())
}

// What is found in a specification, in the order of the text, where it is known which names are
// used.
fn found_with(
    alloc: Global,
    tokens: &Tokens,
    outline: &Outline,
    spec: &Spec,
    used: &[bool],
) -> Result<Vec<Warning>, AllocError> {
    let mut found = found_in_statements(alloc, tokens, outline, spec, used)?;
    push_parts(alloc, outline, spec.parts.as_slice(), &mut found)?;
    push_queue(alloc, spec, &mut found)?;
    push_unread(alloc, tokens, outline, spec, &mut found)?;
    push_unused(tokens, outline, used, &mut found)?;
    push_hidden(alloc, tokens, outline, &mut found)?;
    found.sort_by_key(|warning| warning.place)?;
    Ok(found)
}

// What is found in a specification, in the order of the text.
fn found_in(
    alloc: Global,
    tokens: &Tokens,
    outline: &Outline,
    spec: &Spec,
) -> Result<Vec<Warning>, AllocError> {
    let used = uses(alloc, tokens, outline)?;
    let found = found_with(alloc, tokens, outline, spec, &used);
    drop(used);
    found
}

/// Adds the warnings of a specification that declares this: lines
/// `specification:R:C: warning: TEXT` in the order of the text, 64 at most.
pub fn append_warnings(
    alloc: Global,
    tokens: &Tokens,
    outline: &Outline,
    spec: &Spec,
    notes: &mut String,
) -> Result<(), AllocError> {
    let found = found_in(alloc, tokens, outline, spec)?;
    for warning in found.iter().take(MOST_WARNINGS) {
        append_warning(alloc, tokens, outline, *warning, notes)?;
    }
    Ok(())
}
