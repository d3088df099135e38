//! The search for a run that explains some merge of the traces of its ports.
#![tactic(auto)]

mod cursors;
pub mod explain;
mod left;
mod merges;
mod turn;
mod walk;
