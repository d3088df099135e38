//! The clauses of a transition, in lines: those that it has, and those that one of its own drops.

use crate::listed_bodies::begin_line;
use crate::source::Source;
use advice_lines::lines::append_bytes;
use call_files::est_lexer::kind::{ReservedWord, TokenKind};
use est_meaning::rule_declares::context::{ClauseKind, Context, Given};
use est_syntax::transition::Clause;
use rule_ports::clauses::give_clauses;
use std::alloc::AllocError;
use std::slice;

/// A transition, by the place of the name of its body and its number there, from 1.
#[derive(Clone, Copy)]
pub(crate) struct Listed {
    pub body: u32,
    pub number: usize,
}

// Whether a word begins what comes after a clause: another one, the name of the transition, or its
// block.
fn is_after(word: ReservedWord) -> bool {
    matches!(
        word,
        ReservedWord::From
            | ReservedWord::To
            | ReservedWord::When
            | ReservedWord::Provided
            | ReservedWord::Any
            | ReservedWord::Priority
            | ReservedWord::Delay
            | ReservedWord::Name
            | ReservedWord::Const
            | ReservedWord::Type
            | ReservedWord::Var
            | ReservedWord::Begin
    )
}

// Whether the clause that begins at a place has ended before another one.
fn is_ended(source: &Source, begin: u32, place: u32) -> bool {
    match source.tokens.token_at(place) {
        None => true,
        Some(token) => match token.kind {
            TokenKind::Reserved(word) => place > begin && is_after(word),
            _ => false,
        },
    }
}

// Whether something stands between the token at a place and the one before it.
fn is_apart(source: &Source, place: u32) -> bool {
    let before = source.tokens.token_at(place.saturating_sub(1));
    match (before, source.tokens.token_at(place)) {
        (Some(before), Some(token)) => before.start.saturating_add(before.length) < token.start,
        _ => false,
    }
}

// Adds the text of the clause that begins at a place, with a blank for what stands between tokens,
// and ends the line.
fn append_text(source: &Source, begin: u32, out: &mut String) -> Result<(), AllocError> {
    for place in begin..source.tokens.count() {
        if is_ended(source, begin, place) {
            return out.push_str("\n");
        }
        if place == begin || is_apart(source, place) {
            out.push_str(" ")?;
        }
        append_bytes(source.name(place), out)?;
    }
    out.push_str("\n")
}

// Adds the clauses that one of a transition drops: an earlier one of its kind, and those after
// that.
fn append_dropped(
    source: &Source,
    listed: Listed,
    clause: &Clause,
    context: &[Given],
    out: &mut String,
) -> Result<(), AllocError> {
    let kind = ClauseKind::of(clause);
    let kept = context
        .iter()
        .take_while(|given| given.kind != kind)
        .count();
    for given in context.iter().skip(kept) {
        let place = given.region.unwrap_or(0);
        let (number, line) = (listed.number, source.line(clause.place()));
        begin_line(source, "dropped", place, listed.body, out)?;
        write!(out, " {number} {line}")?;
        append_text(source, place, out)?;
    }
    Ok(())
}

// Gives the clauses of a transition, and adds those that they drop.
fn give_all(
    source: &Source,
    listed: Listed,
    clauses: &[Clause],
    context: &mut Context,
    out: &mut String,
) -> Result<(), AllocError> {
    for clause in clauses {
        append_dropped(source, listed, clause, context.as_slice(), out)?;
        give_clauses(slice::from_ref(clause), context)?;
    }
    Ok(())
}

// Adds the clauses that a transition has.
fn append_given(
    source: &Source,
    listed: Listed,
    context: &[Given],
    out: &mut String,
) -> Result<(), AllocError> {
    for given in context {
        let place = given.region.unwrap_or(0);
        let number = listed.number;
        begin_line(source, "clause", place, listed.body, out)?;
        write!(out, " {number}")?;
        append_text(source, place, out)?;
    }
    Ok(())
}

/// Adds the clauses that those of a transition drop, and those that it has then, where it comes
/// after these of its group.
pub(crate) fn append_clauses(
    source: &Source,
    listed: Listed,
    clauses: &[Clause],
    context: &mut Context,
    out: &mut String,
) -> Result<(), AllocError> {
    give_all(source, listed, clauses, context, out)?;
    append_given(source, listed, context.as_slice(), out)
}
