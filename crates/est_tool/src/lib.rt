//! The commands of the programs, with the top call; among them `trace` of the second one, which
//! writes a trace that a specification makes of itself.
#![tactic(auto)]

mod commands;
pub mod made;
mod made_report;
pub mod made_trace;
mod made_words;
mod ports;
mod replay_report;
pub mod search;
mod self_run;
mod sending;
pub mod top;
mod watch;

pub use call_files;
