//! A system as the program holds it, with its rows, and interaction points that are one.
#![tactic(auto)]

pub mod points;
pub mod rows;
pub mod system;
