//! The printer of tokens in one canonical text, with what printers of parts of a grammar do, and
//! the printers of declarations and expressions.
#![tactic(auto)]

pub mod access;
pub mod channel;
pub mod constant;
pub mod declaration;
pub mod expression;
pub mod header;
pub mod names;
pub mod operator;
mod printer;
mod spacing;
mod spelling;
pub mod stateset;
pub mod type_text;

pub use printer::Printer;
