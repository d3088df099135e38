//! What is known of declarations, and what names stand for (ISO 7185, 6.2.2; ISO 9074, scope of
//! identifiers).
#![tactic(auto)]

pub mod declared;
pub mod heads;
pub mod kinds;
pub mod names;

pub use mean_blocks;
pub use mean_blocks::rule_scope;
