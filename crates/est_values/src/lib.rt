//! Values as runs hold them, in chunks that are cheap to share; arithmetic; and what kinds say of
//! values: which kinds are alike, and what may be assigned to a variable (ISO 7185, 6.4 to 6.7).
#![tactic(auto)]

pub mod alike;
pub mod alike_laws;
pub mod arithmetic;
mod chunks;
pub mod fitting;
pub mod laws;
pub mod ordinals;
pub mod parts;
mod queue;
pub mod tuples;
pub mod types;
pub mod undefined;
pub mod value;

pub use chunks::Chunks;
pub use queue::Queue;
