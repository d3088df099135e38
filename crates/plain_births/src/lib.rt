//! Rows of instances that begin, and of those that go.
#![tactic(auto)]

pub mod births;
pub mod inits;
pub mod losses;
