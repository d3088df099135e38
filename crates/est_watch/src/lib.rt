//! Verdicts while a trace is recorded: one walk over the runs of a specification, whose trace is
//! told event by event, and which keeps its way between them.
#![tactic(auto)]

mod agreement;
mod turn;
mod walk;
pub mod watcher;
