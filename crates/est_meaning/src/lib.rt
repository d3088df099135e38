//! How a system goes on: choices of transitions, which of them may fire, steps, what the outside
//! does, runs along a trace and their order; and what can be run and undone step by step (ISO 9074,
//! 5: next-situation relation).
#![tactic(auto)]

pub mod answers;
pub mod ending;
pub mod event;
pub mod firing;
pub mod laws;
pub mod run;
pub mod run_laws;
pub mod trace;
pub mod world;

pub use mean_blocks;
pub use mean_blocks::{rule_declares, rule_kinds, rule_scope};
