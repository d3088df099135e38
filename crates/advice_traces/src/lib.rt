//! What a person is told of a trace or an explanation that is refused at a token, and of what an
//! explanation claims.
#![tactic(auto)]

pub mod explanation;
mod kinds;
mod numbers;
mod ports;
pub mod position;
pub mod trace;
mod unseen;
mod values;
mod wider;
