//! What a person is told of the guard of a choice in the situation before it: what it awaits, which
//! part of it fails or passes the limit of statements, and what goes before it; what is due at an
//! end that is not quiet; and interactions, as they are told.
#![tactic(auto)]

mod ahead;
mod awaited;
pub mod cause;
pub mod due;
mod guard;
mod heads;
pub mod items;
pub mod limit;
mod names;
mod parts;
mod passing;
mod points;
mod scan;
pub mod scene;
mod seen;
pub mod states;
