//! How systems start: exactly as their specifications say (ISO 9074).
#![tactic(auto)]

mod before;
pub mod starting;
