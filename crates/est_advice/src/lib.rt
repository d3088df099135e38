//! Advice for people, notes of a line each: on texts that are refused, on the move at which a
//! replay rejects an explanation, and on the event at which a trace is refused or that no run
//! reached, with what could leave in its place, what waits, and which limit cut runs off.
#![tactic(auto)]

pub mod call;
pub mod event_notes;
mod event_texts;
mod firing;
mod limit_notes;
pub mod looked;
mod place;
mod reading;
pub mod rejected;
mod specification;
mod trace;
mod waiting;
mod walking;
mod words;
