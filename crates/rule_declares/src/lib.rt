//! What a specification declares, as definitions alone: its names with their kinds, its ports, and
//! what is looked up of a declaration (ISO 9074, scope of identifiers; ISO 7185, 6.2 to 6.6).
#![tactic(auto)]

pub mod context;
pub mod laws;
pub mod lookups;
pub mod required;
pub mod variables;

pub use rule_kinds;
pub use rule_kinds::rule_scope;
