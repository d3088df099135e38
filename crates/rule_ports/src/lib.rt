//! What bodies, transitions and headers give: the clauses of each transition in their order, how
//! many bodies, transitions and ports there are, and the list of ports (ISO 9074, transition-group,
//! interaction points and channels).
#![tactic(auto)]

pub mod clauses;
pub mod counts;
mod known;
pub mod laws;
pub mod making;
pub mod ports;
pub mod signals;
pub mod table;
