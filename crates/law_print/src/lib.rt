//! Laws of printed texts: their tokens are a sentence, they are read as what was printed, and
//! specifications that are the same but for their places have one.
#![tactic(auto)]

pub mod laws;
