//! What specifications mean: situations, and what expressions and statements do in them (ISO 9074
//! and ISO 7185).
#![tactic(auto)]

pub mod fault;
pub mod frame;
pub mod laws;
pub mod situation;
pub mod stop;
pub mod twin;

pub use rule_declares;
pub use rule_declares::{rule_kinds, rule_scope};
