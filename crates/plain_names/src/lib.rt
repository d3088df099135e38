//! Looks the names of a text up once, before its blocks run, and tells the host of an operand by
//! its form (ISO 7185, 6.2.2 and 6.6.6.4; ISO 9074, scope of identifiers).
#![tactic(auto)]

mod expression_names;
pub mod hosts;
mod part_names;
pub mod prepared;
mod statement_names;

pub use plain_texts;
pub use plain_texts::plain_declared;
