//! One trace for each port, with no order between ports: the traces that they may be the parts of,
//! and the runs along these.
#![tactic(auto)]

pub mod laws;
pub mod lists;
pub mod moves;
pub mod verdict;
