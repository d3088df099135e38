//! Runs a specification step by step, and goes back (ISO 9074, 5: next-situation relation).
#![tactic(auto)]

mod history;
pub mod world;

pub use est_check;
