//! The frames of a block: how they are read and written.
#![tactic(auto)]

pub mod children;
pub mod names;
pub mod places;
pub mod routines;
pub mod writing;

pub use plain_declared;
pub use plain_systems;
