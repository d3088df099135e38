//! Operators on ordinals, sets and values, and what a variable takes (ISO 7185, 6.4.6 and 6.7.2):
//! what needs no situation.
#![tactic(auto)]

pub mod hosts;
pub mod ordinals;
pub mod sets;
pub mod taking;
pub mod values;
