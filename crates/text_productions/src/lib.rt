//! The grammar of specifications as data, what the parts of a syntax tree show of it, and the
//! readers of declarations and expressions.
#![tactic(auto)]

pub mod access;
pub mod channel;
pub mod constant;
pub mod declaration;
pub mod expression;
pub mod header;
pub mod names;
pub mod operator;
pub mod stateset;
pub mod type_text;
