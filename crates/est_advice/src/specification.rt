//! Advice on specifications.

use crate::reading::text_in;
use crate::trace::{Good, append_trace};
use crate::words::Asked;
use advice_rules::append_rule;
use advice_tokens::comments::append_swallowing;
use advice_tokens::refused::{append_refused, append_too_deep};
use advice_warnings::append_warnings;
use call_files::Shelf;
use call_files::est_check::{Checked, SpecificationError, read_specification};
use call_files::est_lexer::lex::lex;
use call_files::est_lexer::tokens::Tokens;
use call_files::file::File;
use std::alloc::{AllocError, Global};

/// Adds what is known of the specification that is asked about, or of what comes after it.
pub(crate) fn append_specification<S: Shelf>(
    alloc: Global,
    shelf: &mut S,
    asked: Asked<'_>,
    notes: &mut String,
) -> Result<(), AllocError> {
    let name = match asked {
        Asked::Refusals {
            specification,
            trace: _,
            then: _,
        } => specification,
        Asked::Warnings { specification } => specification,
    };
    let Some(text) = text_in(alloc, shelf, name, File::Specification)? else {
        return Ok(());
    };
    append_text(alloc, shelf, asked, &text, notes)
}

// Adds what is known of the text of a specification.
fn append_text<S: Shelf>(
    alloc: Global,
    shelf: &mut S,
    asked: Asked<'_>,
    text: &[u8],
    notes: &mut String,
) -> Result<(), AllocError> {
    if text.len() > File::Specification.limit() as usize {
        return Ok(());
    }
    let tokens = lex(alloc, text)?;
    match read_specification(alloc, &tokens) {
        Ok(checked) => append_good(alloc, shelf, asked, text, &tokens, &checked, notes),
        Err(error) => append_refusal(alloc, asked, text, &tokens, error, notes),
    }
}

// Adds what is known of a specification that is refused, where that is asked for.
fn append_refusal(
    alloc: Global,
    asked: Asked<'_>,
    text: &[u8],
    tokens: &Tokens,
    error: SpecificationError,
    notes: &mut String,
) -> Result<(), AllocError> {
    match asked {
        Asked::Refusals {
            specification: _,
            trace: _,
            then: _,
        } => append_bad(alloc, text, tokens, error, notes),
        Asked::Warnings { specification: _ } => memory_alone(error),
    }
}

// Want of memory, of what else may be wrong.
fn memory_alone(error: SpecificationError) -> Result<(), AllocError> {
    match error {
        SpecificationError::Memory(error) => Err(error),
        _ => Ok(()),
    }
}

// Adds what is known of a specification that is refused.
fn append_bad(
    alloc: Global,
    text: &[u8],
    tokens: &Tokens,
    error: SpecificationError,
    notes: &mut String,
) -> Result<(), AllocError> {
    match error {
        SpecificationError::BadToken { place } => {
            append_refused(alloc, text, tokens, place, notes)
        }
        SpecificationError::LeftOut { place } => append_refused(alloc, text, tokens, place, notes),
        SpecificationError::TooDeep { place } => append_too_deep(alloc, tokens, place, notes),
        SpecificationError::BrokenRule { place, rule } => {
            append_rule(alloc, tokens, place, rule, notes)
        }
        SpecificationError::Memory(error) => Err(error),
    }
}

// Adds what is known of a good specification, or of the trace.
fn append_good<S: Shelf>(
    alloc: Global,
    shelf: &mut S,
    asked: Asked<'_>,
    text: &[u8],
    tokens: &Tokens,
    checked: &Checked,
    notes: &mut String,
) -> Result<(), AllocError> {
    match asked {
        Asked::Refusals {
            specification: _,
            trace,
            then,
        } => {
            let good = Good { tokens, checked };
            append_trace(alloc, shelf, &good, trace, then, notes)
        }
        Asked::Warnings { specification: _ } => {
            append_swallowing(alloc, text, tokens, notes)?;
            append_warnings(
                alloc,
                tokens,
                checked.table().outline(),
                checked.spec(),
                notes,
            )
        }
    }
}
