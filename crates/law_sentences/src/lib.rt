//! Where nothing is broken, nothing is missing.
#![tactic(auto)]

pub mod body_laws;
pub mod expression_laws;
pub mod laws;
pub mod parameter_laws;
pub mod sentence_laws;
pub mod statement_laws;
