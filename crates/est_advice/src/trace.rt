//! Advice on traces and explanations.
ghost use Rattle.est_meaning.specs.AllowedEvents.{IsAllowedTrace};

use crate::event_notes::append_next;
use crate::looked::Looked;
use crate::reading::text_in;
use crate::rejected::{Texts, append_rejected};
use crate::words::Then;
use advice_traces::{explanation as of_explanation, trace as of_trace};
use call_files::Shelf;
use call_files::est_check::Checked;
use call_files::est_explanation::error::ExplanationError;
use call_files::est_explanation::explanation::read_explanation;
use call_files::est_lexer::lex::lex;
use call_files::est_lexer::tokens::{MOST_BYTES, Tokens};
use call_files::est_trace::error::TraceError;
use call_files::est_trace::trace::read_trace;
use call_files::file::File;
use est_meaning::run::Limits;
use est_meaning::trace::Trace;
use std::alloc::{AllocError, Global};

/// A good specification.
#[derive(Clone, Copy)]
pub(crate) struct Good<'t> {
    pub tokens: &'t Tokens<'t>,
    pub checked: &'t Checked,
}

/// Adds what is known of the trace in the file of a name, or else what is asked of a good one.
pub(crate) fn append_trace<S: Shelf>(
    alloc: Global,
    shelf: &mut S,
    good: &Good<'_>,
    trace: Option<&str>,
    then: Then<'_>,
    notes: &mut String,
) -> Result<(), AllocError> {
    let Some(name) = trace else {
        return Ok(());
    };
    let Some(text) = text_in(alloc, shelf, name, File::Trace)? else {
        return Ok(());
    };
    append_trace_text(alloc, shelf, good, &text, then, notes)
}

// Adds what is known of the text of a trace, or else what is asked of a good one.
fn append_trace_text<S: Shelf>(
    alloc: Global,
    shelf: &mut S,
    good: &Good<'_>,
    text: &[u8],
    then: Then<'_>,
    notes: &mut String,
) -> Result<(), AllocError> {
    if text.len() > MOST_BYTES {
        return Ok(());
    }
    let tokens = lex(alloc, text)?;
    match read_trace(alloc, good.checked, &tokens) {
        Ok(trace) => append_then(alloc, shelf, good, &tokens, then, &trace, notes),
        Err(error) => append_bad_trace(alloc, good.checked, text, &tokens, error, notes),
    }
}

// Adds what is asked of a good trace.
fn append_then<S: Shelf>(
    alloc: Global,
    shelf: &mut S,
    good: &Good<'_>,
    tokens: &Tokens,
    then: Then<'_>,
    trace: &Trace,
    notes: &mut String,
) -> Result<(), AllocError>
    requires { IsAllowedTrace good.now.checked.now trace.now }
{
    match then {
        Then::Nothing => Ok(()),
        Then::Explained { limits } => {
            let looked = Looked {
                checked: good.checked,
                specification: good.tokens,
                tokens,
                trace,
                limits: &limits,
            };
            append_next(alloc, &looked, notes)
        }
        Then::Replayed {
            explanation,
            limits,
        } => {
            let replayed = Replayed {
                tokens,
                events: trace.events().len(),
                limits: &limits,
            };
            append_explanation(alloc, shelf, good, &replayed, explanation, notes)
        }
    }
}

/// A good trace of an explanation, by its tokens and how many events it has, and the limits of the
/// replay.
#[derive(Clone, Copy)]
struct Replayed<'t> {
    tokens: &'t Tokens<'t>,
    events: usize,
    limits: &'t Limits,
}

// Adds what is known of a trace that is refused.
fn append_bad_trace(
    alloc: Global,
    checked: &Checked,
    text: &[u8],
    tokens: &Tokens,
    error: TraceError,
    notes: &mut String,
) -> Result<(), AllocError> {
    match error {
        TraceError::BadToken { place } => {
            of_trace::append_refused(alloc, checked, text, tokens, place, notes)
        }
        TraceError::TooMany { place } => of_trace::append_too_many(alloc, tokens, place, notes),
        TraceError::Memory(error) => Err(error),
    }
}

// Adds what is known of the explanation in the file of a name.
fn append_explanation<S: Shelf>(
    alloc: Global,
    shelf: &mut S,
    good: &Good<'_>,
    trace: &Replayed<'_>,
    name: &str,
    notes: &mut String,
) -> Result<(), AllocError> {
    let Some(text) = text_in(alloc, shelf, name, File::Explanation)? else {
        return Ok(());
    };
    append_explanation_text(alloc, good, trace, &text, notes)
}

// Adds what is known of the text of an explanation.
fn append_explanation_text(
    alloc: Global,
    good: &Good<'_>,
    trace: &Replayed<'_>,
    text: &[u8],
    notes: &mut String,
) -> Result<(), AllocError> {
    if text.len() > MOST_BYTES {
        return Ok(());
    }
    let tokens = lex(alloc, text)?;
    if !is_good(alloc, text, &tokens, trace.events, notes)? {
        return Ok(());
    }
    let texts = Texts {
        specification: good.tokens,
        trace: trace.tokens,
        explanation: &tokens,
    };
    append_rejected(alloc, good.checked, &texts, trace.limits, notes)
}

// Whether an explanation is read well. Adds what is known of its tokens.
fn is_good(
    alloc: Global,
    text: &[u8],
    tokens: &Tokens,
    events: usize,
    notes: &mut String,
) -> Result<bool, AllocError> {
    match read_explanation(alloc, tokens) {
        Ok(found) => {
            of_explanation::append_claim(alloc, tokens, &found, events, notes)?;
            Ok(true)
        }
        Err(ExplanationError::BadToken { place }) => {
            of_explanation::append_refused(alloc, text, tokens, place, notes)?;
            Ok(false)
        }
        Err(ExplanationError::Memory(error)) => Err(error),
    }
}
