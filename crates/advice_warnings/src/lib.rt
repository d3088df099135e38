//! Warnings of specifications that break no rule.
#![tactic(auto)]

mod clauses;
mod hiding;
mod links;
mod points;
mod range;
mod statements;
mod states;
mod top;
mod unread;
mod unused;
mod walk;
mod warning;

pub use top::append_warnings;
