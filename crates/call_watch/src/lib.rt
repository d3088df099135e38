//! The call that watches a trace while it is recorded: its text is read a byte at a time, line by
//! line, and each event is answered before the next byte is asked for.
#![tactic(auto)]

mod answering;
mod line;
mod reading;
pub mod recording;
mod report;

pub use reading::watch_text;
