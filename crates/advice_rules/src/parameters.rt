//! What a name takes: its parameters, or its subscripts.

use crate::members::count_in;
use advice_lines::kinds::append_kind;
use advice_lines::lines::{Mark, append_token, begin_line};
use est_lexer::tokens::Tokens;
use rule_scope::declaration::{Entry, Section, SharedKinds, Sort};
use rule_scope::outline::Outline;
use std::alloc::{AllocError, Global};

// The word before a parameter of a section, and none where the section declares no parameters.
fn parameter_word(section: Section) -> Option<&'static str> {
    match section {
        Section::Parameter => Some(""),
        Section::Value => Some(""),
        Section::Place => Some("var "),
        Section::Interaction => Some(""),
        _ => None,
    }
}

// Adds a parameter that is declared at a place, after its word.
fn append_parameter(
    alloc: Global,
    tokens: &Tokens,
    place: u32,
    entry: &Entry,
    word: &str,
    notes: &mut String,
) -> Result<(), AllocError> {
    notes.push_str(word)?;
    append_token(tokens, place, notes)?;
    let Some(measured) = &entry.kind else {
        return Ok(());
    };
    notes.push_str(": ")?;
    append_kind(alloc, tokens, &measured.kind, notes)
}

// Adds what is declared at a place, where it is a parameter, after as many others.
fn append_name(
    alloc: Global,
    tokens: &Tokens,
    outline: &Outline,
    place: u32,
    count: usize,
    notes: &mut String,
) -> Result<usize, AllocError> {
    let Some(entry) = outline.entry(place) else {
        return Ok(count);
    };
    let Some(word) = parameter_word(entry.section) else {
        return Ok(count);
    };
    notes.push_str(if count == 0 { " takes (" } else { "; " })?;
    append_parameter(alloc, tokens, place, entry, word, notes)?;
    Ok(count.saturating_add(1))
}

/// Adds a line on the parameters of what is declared at a place.
pub(crate) fn append_parameters(
    alloc: Global,
    tokens: &Tokens,
    outline: &Outline,
    declared: u32,
    place: u32,
    notes: &mut String,
) -> Result<(), AllocError> {
    begin_line(tokens, Mark::Note, place, notes)?;
    append_token(tokens, declared, notes)?;
    let mut count: usize = 0;
    for number in 0..count_in(outline, declared) {
        let at = outline.nth(declared, number).unwrap_or(declared);
        count = append_name(alloc, tokens, outline, at, count, notes)?;
    }
    notes.push_str(if count == 0 {
        " takes nothing\n"
    } else {
        ")\n"
    })
}

// Adds a line on the subscripts of what is declared at a place.
fn append_subscripts(
    alloc: Global,
    tokens: &Tokens,
    dims: &Option<SharedKinds>,
    declared: u32,
    place: u32,
    notes: &mut String,
) -> Result<(), AllocError> {
    let Some(kinds) = dims else {
        return Ok(());
    };
    begin_line(tokens, Mark::Note, place, notes)?;
    append_token(tokens, declared, notes)?;
    for (number, kind) in kinds.get().as_slice().iter().enumerate() {
        notes.push_str(if number == 0 {
            " takes the subscripts ["
        } else {
            ", "
        })?;
        append_kind(alloc, tokens, kind, notes)?;
    }
    notes.push_str(if kinds.get().len() == 0 {
        " takes no subscripts\n"
    } else {
        "]\n"
    })
}

/// Adds a line on what the name at a place takes, which means what is declared at another one.
pub(crate) fn append_taken(
    alloc: Global,
    tokens: &Tokens,
    outline: &Outline,
    declared: u32,
    place: u32,
    notes: &mut String,
) -> Result<(), AllocError> {
    let Some(entry) = outline.entry(declared) else {
        return Ok(());
    };
    match entry.declared.sort {
        Sort::Procedure => append_parameters(alloc, tokens, outline, declared, place, notes),
        Sort::Function => append_parameters(alloc, tokens, outline, declared, place, notes),
        Sort::Body => match entry.header {
            None => Ok(()),
            Some(header) => append_parameters(alloc, tokens, outline, header, place, notes),
        },
        Sort::Point => append_subscripts(alloc, tokens, &entry.dims, declared, place, notes),
        Sort::ModuleVariable => {
            append_subscripts(alloc, tokens, &entry.dims, declared, place, notes)
        },
        _ => Ok(()),
    }
}
