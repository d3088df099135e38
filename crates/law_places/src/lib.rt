//! The places of a sentence's tree ascend, and so a name means in the outline so far what it means
//! in the whole one.
#![tactic(auto)]

pub mod laws;
