//! Firings, starts, and the stamps of delays (ISO 9074, 5: next-situation relation).
#![tactic(auto)]

mod choice;
mod ending;
pub mod firing;
mod living;
mod stamping;
pub mod start;
pub mod step;
mod timing;
