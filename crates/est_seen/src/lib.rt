//! What was seen of values, and the values that match it.
#![tactic(auto)]

pub mod laws;
pub mod seen;
