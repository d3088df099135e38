//! What outputs do.
#![tactic(auto)]

pub mod outputs;

pub use plain_attachments;
pub use plain_queues::{plain_systems, plain_texts};
