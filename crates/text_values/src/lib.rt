//! The texts of values in traces, and of what was seen of them, as they are read and as they are
//! written, and the grammar of traces.
#![tactic(auto)]

mod commas;
mod constants;
pub mod formats;
mod ordinals;
pub mod seens;
mod sets;
pub mod values;
pub mod written_lists;
pub mod written_numbers;
pub mod written_ordinals;
pub mod written_seen;
pub mod written_sets;
pub mod written_values;
