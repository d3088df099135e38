//! Which firings are possible (ISO 9074, 5: selection of transitions).
#![tactic(auto)]

mod ancestors;
mod found;
mod offers;
pub mod options;
