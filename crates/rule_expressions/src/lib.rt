//! What expressions yield, and the rules that they break (ISO 7185, 6.7).
#![tactic(auto)]

pub mod accesses;
pub mod calls;
pub mod expressions;
pub mod laws;
pub mod names;
pub mod operators;
pub mod places;
pub mod receivers;
pub mod variables;
