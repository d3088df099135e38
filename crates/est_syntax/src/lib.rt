//! The syntax tree of Estelle specifications (ISO 9074), with the places of its tokens.
#![tactic(auto)]

pub mod body;
pub mod channel;
pub mod constant;
pub mod copy;
pub mod expression;
pub mod header;
pub mod kind;
pub mod name;
pub mod ports;
pub mod routine;
pub mod rule;
pub mod specification;
pub mod statement;
pub mod transition;
pub mod tree;
pub mod type_text;

pub use est_items;
