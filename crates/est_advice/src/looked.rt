//! What is looked at.

use advice_tokens::note::Spot;
use advice_tokens::place::spot_of;
use advice_traces::position::place_of_event;
use call_files::est_check::Checked;
use call_files::est_lexer::tokens::Tokens;
use est_meaning::run::Limits;
use est_meaning::trace::Trace;

/// A good specification and a trace of it, each with its tokens, and the limits of a search.
#[derive(Clone, Copy)]
pub struct Looked<'t> {
    pub checked: &'t Checked,
    pub specification: &'t Tokens<'t>,
    pub tokens: &'t Tokens<'t>,
    pub trace: &'t Trace,
    pub limits: &'t Limits,
}

impl Looked<'_> {
    /// Where the event after so many stands in the trace, or the end.
    pub(crate) fn spot(&self, happened: usize) -> Spot {
        spot_of("trace", self.tokens, place_of_event(self.tokens, happened))
    }
}
