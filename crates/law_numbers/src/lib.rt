//! Numbers in runs of sentences, and in verdicts on them, are those that an explanation may have.
#![tactic(auto)]

pub mod writable;
