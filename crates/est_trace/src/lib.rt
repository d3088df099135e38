//! Traces: what happens at the outside ports of a specification, as it is read and as it is
//! written; and ports and signals by their names (ISO 9074, interaction points and channels).
#![tactic(auto)]

pub mod directory;
pub mod directory_laws;
pub mod error;
mod growing;
mod heads;
pub mod hints;
mod interaction;
pub mod lines;
pub mod lists;
mod lookup;
pub mod trace;
mod wholes;
mod written_ports;
mod written_subscripts;
pub mod written_trace;

pub use est_check;
