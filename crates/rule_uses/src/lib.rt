//! The names that a routine looks up, and whether nested bodies may call it (ISO 9074, scope of
//! identifiers).
#![tactic(auto)]

mod expression;
mod free;
pub mod routine;
mod statement;
mod text;
