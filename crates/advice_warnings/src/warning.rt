//! What a warning says.

use advice_lines::declared::append_declared;
use advice_lines::kinds::append_kind;
use advice_lines::lines::{Mark, append_bytes, append_place, append_token, begin_line};
use est_lexer::tokens::Tokens;
use est_syntax::kind::Kind;
use rule_scope::outline::Outline;
use std::alloc::{AllocError, Global};
use text_values::written_ordinals::append_ordinal;

/// A constant out of the range of a variable, by its ordinal, and by the place where the variable
/// is declared. Of the result of a function this is the place of the function.
#[derive(Clone, Copy)]
pub(crate) struct Outside {
    pub variable: u32,
    pub ordinal: i32,
}

/// What a name means, and what it would mean without that, by the places of their declarations.
#[derive(Clone, Copy)]
pub(crate) struct Hiding {
    pub meant: u32,
    pub hidden: u32,
}

/// What is likely to be a slip, though no rule forbids it.
#[derive(Clone, Copy)]
pub(crate) enum Slip {
    /// A clause that no block has.
    Dropped,
    /// `provided otherwise` with no condition before it.
    NoCondition,
    /// A state that nothing enters.
    NotEntered,
    /// A `from` of states that nothing enters.
    NotReached,
    /// A name that is declared and not used.
    NotUsed,
    /// An interaction point whose queue is not said.
    NoQueue,
    /// A port at which no transition takes what comes.
    NotRead,
    /// An interaction point that no link joins to another one.
    NotJoined,
    /// A module variable that is named in a link, and of which no module is made.
    NotMade,
    /// A constant that is assigned where it is out of range.
    OutOfRange(Outside),
    /// A name that means one thing where another of this name is in force that could stand there.
    Hides(Hiding),
}

/// A slip at a place.
#[derive(Clone, Copy)]
pub(crate) struct Warning {
    pub place: u32,
    pub slip: Slip,
}

impl Slip {
    // What stands before and after the token at the place, or the constant that begins there.
    fn words(self) -> (&'static str, &'static str) {
        match self {
            Slip::Dropped => (
                "",
                " is dropped before any block has it: a later clause takes its place, or that of \
                 one before it",
            ),
            Slip::NoCondition => (
                "",
                " otherwise stands after no condition, so it always holds",
            ),
            Slip::NotEntered => ("state ", " is not the first one, and nothing enters it"),
            Slip::NotReached => ("", " names no state that anything enters"),
            Slip::NotUsed => ("", " is declared and never used"),
            Slip::NoQueue => (
                "",
                " has no queue discipline, and there is no default: its queue is an individual one",
            ),
            Slip::NotRead => ("no transition takes what comes at ", ""),
            Slip::NotJoined => (
                "no connect and no attach joins ",
                " to another interaction point: what is sent there is lost",
            ),
            Slip::NotMade => ("no init makes a module of ", ", which a link names"),
            Slip::OutOfRange(_) => ("", " is outside of the range of "),
            Slip::Hides(_) => ("", " is "),
        }
    }
}

// Adds an ordinal of a kind.
fn append_value(
    alloc: Global,
    kind: &Kind,
    ordinal: i32,
    notes: &mut String,
) -> Result<(), AllocError> {
    let mut text = Vec::new(alloc);
    append_ordinal(&mut text, kind, ordinal)?;
    append_bytes(&text, notes)
}

// The kind of a variable that is declared at a place.
fn kind_at(outline: &Outline, variable: u32) -> Option<&Kind> {
    match &outline.entry(variable)?.kind {
        None => None,
        Some(measured) => Some(&measured.kind),
    }
}

// Adds what a warning is about.
fn append_subject(
    alloc: Global,
    tokens: &Tokens,
    outline: &Outline,
    warning: Warning,
    notes: &mut String,
) -> Result<(), AllocError> {
    let Slip::OutOfRange(outside) = warning.slip else {
        return append_token(tokens, warning.place, notes);
    };
    match kind_at(outline, outside.variable) {
        None => Ok(()),
        Some(kind) => append_value(alloc, kind, outside.ordinal, notes),
    }
}

// Adds what is declared at a place, and the place.
fn append_declaration(
    alloc: Global,
    tokens: &Tokens,
    outline: &Outline,
    declared: u32,
    notes: &mut String,
) -> Result<(), AllocError> {
    append_declared(alloc, tokens, outline, declared, notes)?;
    notes.push_str(", declared at ")?;
    append_place(tokens, declared, notes)
}

// Adds what a name means, and what that hides.
fn append_hiding(
    alloc: Global,
    tokens: &Tokens,
    outline: &Outline,
    hiding: Hiding,
    notes: &mut String,
) -> Result<(), AllocError> {
    append_declaration(alloc, tokens, outline, hiding.meant, notes)?;
    notes.push_str(", and hides ")?;
    append_declaration(alloc, tokens, outline, hiding.hidden, notes)
}

// Adds a variable and its range.
fn append_variable(
    alloc: Global,
    tokens: &Tokens,
    outline: &Outline,
    variable: u32,
    notes: &mut String,
) -> Result<(), AllocError> {
    append_token(tokens, variable, notes)?;
    notes.push_str(", ")?;
    match kind_at(outline, variable) {
        None => Ok(()),
        Some(kind) => append_kind(alloc, tokens, kind, notes),
    }
}

/// Adds the line of a warning.
pub(crate) fn append_warning(
    alloc: Global,
    tokens: &Tokens,
    outline: &Outline,
    warning: Warning,
    notes: &mut String,
) -> Result<(), AllocError> {
    let (before, after) = warning.slip.words();
    begin_line(tokens, Mark::Warning, warning.place, notes)?;
    notes.push_str(before)?;
    append_subject(alloc, tokens, outline, warning, notes)?;
    notes.push_str(after)?;
    match warning.slip {
        Slip::OutOfRange(outside) => {
            append_variable(alloc, tokens, outline, outside.variable, notes)?
        }
        Slip::Hides(hiding) => append_hiding(alloc, tokens, outline, hiding, notes)?,
        _ => (),
    }
    notes.push_str("\n")
}
