//! Queues of interaction points, and the items that wait in them.
#![tactic(auto)]

pub mod heads;
pub mod keys;
pub mod losses;
pub mod queues;

pub use plain_systems;
pub use plain_texts;
pub use plain_texts::{mean_blocks, plain_declared, rule_scope};
