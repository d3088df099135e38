//! What statements do to instances and queues, and predeclared functions to ordinals, once their
//! expressions are evaluated (ISO 9074, statements; ISO 7185, 6.6.6).
#![tactic(auto)]

pub mod effects;
pub mod required;

pub use plain_operands;
pub use plain_operands::{plain_declared, plain_frames, plain_systems, plain_texts};
