//! What leaves a system was sent there; the values of runs fit the kinds of what holds them; and
//! sentences that break no rule are typed.
#![tactic(auto)]

pub mod departures;
pub mod soundness;
pub mod steady;
