//! What a specification declares, and what a name means at a place (ISO 9074, scope of
//! identifiers; ISO 7185, 6.2.2).
#![tactic(auto)]

pub mod declaration;
pub mod extent;
pub mod least;
pub mod meaning;
pub mod names;
pub mod outline;
pub mod predeclared;
mod regions;
pub mod uses;
