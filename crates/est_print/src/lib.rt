//! Specifications printed in one canonical text.
#![tactic(auto)]

mod block;
mod body;
mod estelle_statement;
mod print;
mod routine;
mod specification;
mod statement;
mod transition;

pub use print::print_spec;
