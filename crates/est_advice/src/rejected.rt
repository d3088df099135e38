//! Explanations that a replay rejects.
ghost use Rattle.est_meaning.specs.AllowedEvents.{IsAllowedTrace};

use crate::walking::append_rejection;
use call_files::est_check::Checked;
use call_files::est_explanation::error::ExplanationError;
use call_files::est_explanation::explanation::{Explanation, read_explanation};
use call_files::est_explanation::verdict::{Replayed, Why};
use call_files::est_lexer::tokens::{MOST_BYTES, Tokens};
use call_files::est_trace::error::TraceError;
use call_files::est_trace::trace::read_trace;
use est_meaning::run::{Limits, Move};
use est_meaning::trace::{Expected, Trace};
use est_replay::checked::replay;
use std::alloc::{AllocError, Global};

/// The tokens of the texts of a replay.
#[derive(Clone, Copy)]
pub struct Texts<'t> {
    pub specification: &'t Tokens<'t>,
    pub trace: &'t Tokens<'t>,
    pub explanation: &'t Tokens<'t>,
}

// The first check of a replay that fails, of these moves along this trace.
#[derive(Clone, Copy)]
pub(crate) struct Rejected<'t> {
    pub texts: &'t Texts<'t>,
    pub trace: &'t [Expected],
    pub is_quiet: bool,
    pub moves: &'t [Move],
    pub claim: u32,
    pub at: u32,
    pub why: Why,
}

impl Rejected<'_> {
    /// Whether a whole trace is claimed that ends quiet, and nothing but its end is left after so
    /// many events.
    pub fn is_at_quiet_end(&self, happened: usize) -> bool {
        let count = self.trace.len();
        self.is_quiet && happened == count && self.claim as usize == count.saturating_add(1)
    }
}

/// Adds where the move is at which a replay rejects an explanation, and what is known of it: lines
/// `explanation:R:C: note: TEXT` and `specification:R:C: note: TEXT`. Where the explanation is
/// confirmed, or one of the texts is refused, it adds nothing.
pub fn append_rejected(
    alloc: Global,
    checked: &Checked,
    texts: &Texts<'_>,
    limits: &Limits,
    notes: &mut String,
) -> Result<(), AllocError> {
    match read_trace(alloc, checked, texts.trace) {
        Ok(trace) => {
            let done = append_along(alloc, checked, texts, &trace, limits, notes);
            drop(trace);
            done
        }
        Err(TraceError::Memory(error)) => Err(error),
        Err(_) => Ok(()),
    }
}

// The same along a trace.
fn append_along(
    alloc: Global,
    checked: &Checked,
    texts: &Texts<'_>,
    trace: &Trace,
    limits: &Limits,
    notes: &mut String,
) -> Result<(), AllocError>
    requires { IsAllowedTrace checked.now trace.now }
{
    match read_explanation(alloc, texts.explanation) {
        Ok(found) => {
            let done = append_replayed(alloc, checked, texts, trace, &found, limits, notes);
            drop(found);
            done
        }
        Err(ExplanationError::Memory(error)) => Err(error),
        Err(_) => Ok(()),
    }
}

// The same of an explanation.
fn append_replayed(
    alloc: Global,
    checked: &Checked,
    texts: &Texts<'_>,
    trace: &Trace,
    explanation: &Explanation,
    limits: &Limits,
    notes: &mut String,
) -> Result<(), AllocError>
    requires { IsAllowedTrace checked.now trace.now }
{
    if explanation.moves.len() > MOST_BYTES {
        return Ok(());
    }
    match replay(alloc, checked, trace, explanation, limits)? {
        Replayed::Confirmed { events: _ } => Ok(()),
        Replayed::Rejected { at, why } => {
            let rejected = Rejected {
                texts,
                trace: trace.events().as_slice(),
                is_quiet: trace.is_quiet(),
                moves: explanation.moves.as_slice(),
                claim: explanation.claim,
                at,
                why,
            };
            append_rejection(alloc, checked, &rejected, limits.statements, notes)
        }
    }
}
