//! Why a specification is refused.

use est_syntax::rule::Rule;
use std::alloc::AllocError;
use thiserror::Error;

/// Which is the least fault of a specification, or why it is not checked.
#[derive(Debug, Drop, Error)]
pub enum CheckError {
    /// The least fault by place: the number of a token, counted from 0, and the rule that is broken
    /// there.
    #[error("token {place}: {rule:?}")]
    Fault { place: u32, rule: Rule },
    /// The check was not done for that memory ran out.
    #[error(transparent)]
    Memory(#[from(alloc)] AllocError),
}
