//! Explanations: their texts, how a trace is said to come about; and their replays in any World:
//! whether their moves bring the trace about.
#![tactic(auto)]

pub mod error;
pub mod explanation;
pub mod laws;
pub mod replay;
pub mod replay_laws;
pub mod verdict;
pub mod write;
