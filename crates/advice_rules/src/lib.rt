//! Notes on the first rule that a specification breaks: what the rule asks, and what stands at its
//! place and beside it.
#![tactic(auto)]

mod dropped;
mod facts;
mod heads;
mod led_to;
mod members;
mod notes;
mod operators;
mod owner;
mod parameters;
mod selected;
mod sentences;
mod signals;
mod slot_at;
mod tight;
mod wanted;

pub use facts::append_facts;
pub use notes::append_rule;
