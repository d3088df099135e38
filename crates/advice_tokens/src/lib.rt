//! What a person is told of a specification that is refused at a token: what could stand there,
//! and what is known to go wrong so.
#![tactic(auto)]

pub mod bad_bytes;
pub mod candidate;
pub mod comments;
mod forms;
mod left_out;
mod marks;
mod missing;
mod misspelled;
pub mod note;
mod other_words;
pub mod place;
pub mod refused;
pub mod wanted;
