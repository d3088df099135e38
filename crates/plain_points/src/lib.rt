//! Interaction points that headers declare, and their subscripts.
#![tactic(auto)]

pub mod declared;
pub mod subscripts;
