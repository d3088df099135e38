//! The parser of specifications.
#![tactic(auto)]

mod block;
mod body;
mod error;
mod estelle_statement;
pub mod laws;
mod parser;
mod routine;
mod specification;
mod statement;
mod transition;

pub use error::ParseError;
pub use parser::parse;
