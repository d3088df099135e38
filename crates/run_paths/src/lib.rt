//! The way of a search from the start to where it stands, the best run on it, how many silent
//! firings stand last, and the way back: what searches along a trace and along one trace for each
//! port share.
#![tactic(auto)]

pub mod path;
pub mod rewinding;
pub mod silence;
