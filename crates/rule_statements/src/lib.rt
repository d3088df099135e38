//! The rules that statements break (ISO 7185, 6.8; ISO 9074, statements).
#![tactic(auto)]

mod cases;
mod links;
pub mod modules;
pub mod signals;
pub mod statements;
pub mod targets;
