//! What a specification declares: its names with their kinds, and what they mean (ISO 9074, scope
//! of identifiers; ISO 7185, 6.2 to 6.6).
#![tactic(auto)]

pub mod bodies;
pub mod declares;
pub mod dims;
pub mod entries;
pub mod lasts;
pub mod modules;
pub mod statements;
pub mod texts;
pub mod transitions;
pub mod within;
