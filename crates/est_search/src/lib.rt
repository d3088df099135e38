//! The search for a run that explains a trace.
#![tactic(auto)]

mod agreement;
pub mod explain;
pub mod laws;
mod turn;
pub mod verdict;
mod walk;
