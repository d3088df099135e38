//! The table of a specification: what its names mean, with their kinds, how many scalars its
//! variables have, and the least rule that its declarations break (ISO 9074, scope of identifiers;
//! ISO 7185, 6.2 to 6.6).
#![tactic(auto)]

pub mod modules;
pub mod parts;
pub mod sections;
pub mod sizes;
mod states;
pub mod table;
