//! Traces that a specification makes of itself, by words drawn from a seed.
#![tactic(auto)]

mod arrivals;
pub mod laws;
pub mod made;
pub mod making;
mod recorded;
mod values;
mod words;
