//! Grammars in general (trees, partial trees, first bad places, and their laws), and the reader of
//! tokens: specifications, traces and explanations are read by it.
#![tactic(auto)]

pub mod laws;
mod number;
mod outcome;
mod reader;
mod refusal;
mod spelling;

pub use outcome::Outcome;
pub use reader::Reader;
pub use refusal::Refusal;
