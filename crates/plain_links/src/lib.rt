//! Connections and attachments that statements make and undo, and releases of instances.
#![tactic(auto)]

pub mod connections;
pub mod releases;
