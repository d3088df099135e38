//! Links between interaction points, ways along attachments, and what instances have.
#![tactic(auto)]

pub mod attachments;
pub mod instances;
pub mod links;
pub mod losses;
