//! The execution of expressions and statements: exactly what they mean (ISO 7185 and ISO 9074).
#![tactic(auto)]

pub mod expressions;
pub mod links;
pub mod statements;
mod ties;

pub use plain_effects::{plain_frames, plain_operands, plain_systems, plain_texts};
