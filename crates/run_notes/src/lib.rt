//! What is noted of the runs of a search in any World, and which events could leave in the place of
//! one at which a trace is refused.
#![tactic(auto)]

pub mod noted;
pub mod other_events;
mod watching;
mod way;
