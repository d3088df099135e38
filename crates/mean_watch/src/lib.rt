//! Verdicts on a trace while it is still being recorded: which answers are right to the events that
//! were given so far, and laws of the runs behind them.
#![tactic(auto)]

pub mod laws;
pub mod watched;
