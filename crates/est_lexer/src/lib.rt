//! Tokens of Estelle texts: specifications, traces and explanations.
#![tactic(auto)]

mod between;
pub mod kind;
pub mod laws;
pub mod lex;
mod scan;
mod table;
pub mod tokens;
