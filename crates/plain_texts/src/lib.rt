//! A text with what it declares: its routines and bodies by their places, and what is kept of its
//! names.
#![tactic(auto)]

mod indices;
pub mod known;
pub mod text;

pub use plain_declared;
pub use plain_declared::{mean_blocks, rule_scope};
