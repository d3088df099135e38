//! Shows what happens in the moves of an explanation, and lists what a specification has.
#![tactic(auto)]

mod answer;
mod effects;
mod ending;
pub mod list;
mod listed_bodies;
mod listed_clauses;
mod listed_ports;
mod lives;
mod moves;
mod reading;
mod source;
mod texts;
pub mod top;
