//! What is written of a trace is read as what it was written of; the ports of each sentence are
//! readable, so that each trace that is written for it is read back; and its kinds are well formed.
#![tactic(auto)]

pub mod read_back;
pub mod readable;
