//! Replays of explanations of checked specifications.
#![tactic(auto)]

pub mod checked;

pub use est_plain::world::PlainWorld;
