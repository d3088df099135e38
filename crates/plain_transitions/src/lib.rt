//! The transitions of bodies with all their clauses, and the choices of their `any` variables (ISO
//! 9074, 7: transition-declaration).
#![tactic(auto)]

pub mod behaviour;
mod bodies;
mod calm;
pub mod choices;
mod clauses;
mod conditions;
mod contexts;
pub mod fits;
mod fitting;
mod lists;
mod numbers;
mod table;
mod tables;
mod tuples;
mod writing;
pub mod written;
