//! Runs that are looked at move by move (ISO 9074, 5: computations).
#![tactic(auto)]

pub mod made;
mod queues;
mod taking;
pub mod walk;
