//! Laws of calls: what words ask for, what is reported, what a search decides; what `explain`
//! reports, `replay` confirms; made traces are allowed, read back, and never refused; and what is
//! printed, printed again, stays.
#![tactic(auto)]

pub mod confirmed;
pub mod laws;
pub mod made_events;
pub mod ports;
pub mod printed;
pub mod self_runs;
pub mod sound_traces;
pub mod watch;
