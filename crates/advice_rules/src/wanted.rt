//! What a place takes, by the tokens beside it.

use crate::led_to::{append_tokens, kind_to};
use crate::operators::is_alone;
use crate::selected::{first_before, follows};
use advice_lines::declared::append_declared;
use advice_lines::kinds::append_kind;
use advice_lines::lines::{Mark, append_line, append_token, begin_line, spelled};
use advice_lines::near::name_at;
use advice_lines::slots::Slot;
use est_lexer::kind::{ReservedWord, TokenKind};
use est_lexer::tokens::Tokens;
use rule_scope::declaration::Meant;
use rule_scope::outline::Outline;
use std::alloc::{AllocError, Global};

// What a name is that stands after a word.
fn after_word(word: ReservedWord) -> Option<&'static str> {
    match word {
        ReservedWord::With => Some("after with stands a module body"),
        ReservedWord::From => Some("after from stands a state or a state set"),
        ReservedWord::Init => Some("after init stands a module variable"),
        ReservedWord::Release => Some("after release stands a module variable"),
        ReservedWord::When => Some("after when stands an interaction point"),
        ReservedWord::Output => Some("after output stands an interaction point"),
        _ => None,
    }
}

// What a name is that stands before or after these tokens.
fn sentence_at(tokens: &Tokens, place: u32) -> Option<&'static str> {
    if spelled(tokens, place.saturating_add(1)) == b":=".as_slice() {
        return Some("before := stands a variable, or in a function its own name");
    }
    match tokens.token_at(place.checked_sub(1)?)?.kind {
        TokenKind::Reserved(word) => after_word(word),
        _ => None,
    }
}

// What a name is in a slot.
fn slot_phrase(slot: Slot) -> Option<&'static str> {
    match slot {
        Slot::Any => None,
        Slot::Nothing => None,
        Slot::Target => None,
        Slot::Constant => Some("a constant"),
        Slot::TypeName => Some("a type"),
        Slot::Channel => Some("a channel"),
        Slot::Header => Some("a module header"),
        Slot::HeaderOrType => Some("a module header or a type"),
        Slot::Body => Some("a module body"),
        Slot::State => Some("a state"),
        Slot::StateOrSet => Some("a state or a state set"),
        Slot::Point => Some("an interaction point"),
        Slot::ModuleVariable => Some("a module variable"),
        Slot::PointOrModule => Some("an interaction point or a module variable"),
        Slot::Procedure => Some("a procedure"),
        Slot::Function => Some("a function"),
        Slot::Operand => Some("a constant, a variable or a function"),
        Slot::Selected => Some("a variable, or a module variable before an export"),
    }
}

// What stands at a place where a word may stand as well as a name.
fn word_or_name(tokens: &Tokens, slot: Slot, place: u32) -> Option<&'static str> {
    if slot == Slot::Operand && follows(tokens, place, b"provided") {
        return Some("after provided stands a condition, or the word otherwise");
    }
    let is_clause = follows(tokens, place, b"to")
        && !follows(tokens, place.saturating_sub(1), b"initialize");
    if slot == Slot::State && is_clause {
        return Some("after to stands a state, or the word same");
    }
    None
}

// Adds a line on what the name at a place should be, by its slot.
fn append_slot(
    tokens: &Tokens,
    slot: Slot,
    place: u32,
    notes: &mut String,
) -> Result<(), AllocError> {
    if let Some(sentence) = word_or_name(tokens, slot, place) {
        return append_line(tokens, Mark::Note, place, sentence, notes);
    }
    let Some(phrase) = slot_phrase(slot) else {
        return Ok(());
    };
    begin_line(tokens, Mark::Note, place, notes)?;
    write!(notes, "here stands {phrase}\n")
}

/// Adds a line on what the name at a place should be: what the tokens beside it say, or else the
/// slot, where no name is told that may stand there.
pub(crate) fn append_wanted(
    tokens: &Tokens,
    slot: Slot,
    is_told: bool,
    place: u32,
    notes: &mut String,
) -> Result<(), AllocError> {
    if slot == Slot::Nothing {
        return Ok(());
    }
    match sentence_at(tokens, place) {
        Some(sentence) => append_line(tokens, Mark::Note, place, sentence, notes),
        None if !is_told => append_slot(tokens, slot, place, notes),
        None => Ok(()),
    }
}

// What is assigned where an operand begins at a place: the operand, or what it is the first one of.
fn assigned_at(tokens: &Tokens, place: u32) -> &'static str {
    if is_alone(tokens, place) {
        "it is assigned to "
    } else {
        "the whole expression is assigned to "
    }
}

// Adds a line on what it is that what stands at a place is assigned to, of which this is the first
// name.
fn append_first(
    alloc: Global,
    tokens: &Tokens,
    outline: &Outline,
    first: u32,
    place: u32,
    notes: &mut String,
) -> Result<(), AllocError> {
    let name = name_at(alloc, tokens, first)?;
    let Meant::Seen(declared) = outline.meant(&name, first) else {
        return Ok(());
    };
    begin_line(tokens, Mark::Note, place, notes)?;
    notes.push_str(assigned_at(tokens, place))?;
    append_token(tokens, first, notes)?;
    notes.push_str(", ")?;
    append_declared(alloc, tokens, outline, declared, notes)?;
    notes.push_str("\n")
}

// Adds a line on what it is that what stands at a place is assigned to, where selectors lead there
// from this name.
fn append_part(
    alloc: Global,
    tokens: &Tokens,
    outline: &Outline,
    first: u32,
    place: u32,
    notes: &mut String,
) -> Result<(), AllocError> {
    let end = place.saturating_sub(1);
    let Some(kind) = kind_to(alloc, tokens, outline, first, end)? else {
        return Ok(());
    };
    begin_line(tokens, Mark::Note, place, notes)?;
    notes.push_str(assigned_at(tokens, place))?;
    append_tokens(tokens, first, end, notes)?;
    notes.push_str(", of type ")?;
    append_kind(alloc, tokens, kind, notes)?;
    notes.push_str("\n")
}

/// Adds a line on what it is that what stands at a place is assigned to.
pub(crate) fn append_target(
    alloc: Global,
    tokens: &Tokens,
    outline: &Outline,
    place: u32,
    notes: &mut String,
) -> Result<(), AllocError> {
    if !follows(tokens, place, b":=") {
        return Ok(());
    }
    let end = place.saturating_sub(1);
    match first_before(tokens, end) {
        None => Ok(()),
        Some(first) => if first.saturating_add(1) == end {
            append_first(alloc, tokens, outline, first, place, notes)
        } else {
            append_part(alloc, tokens, outline, first, place, notes)
        },
    }
}
