//! What stays in order in a system that changes: stamps, and how many items wait; attachments lead
//! from older instances to younger ones; and each `attach` of a sentence names a child by the name
//! of an `all` around it, or by none of an `all`.
#![tactic(auto)]

pub mod ancestry;
pub mod attached;
pub mod upkeep;
pub mod waiting;
