//! Runs and their limits.

use crate::firing::Firing;
use est_syntax::est_items::Items;

/// A move of a run: the next event of the trace happens, or a transition fires.
#[derive(Clone, Copy, PartialEq, Eq)]
pub enum Move {
    Take,
    Fire(Firing),
}

/// A list of moves.
pub type Run = Items<Move>;

/// How many firings may be silent in a row, how many may be tried, and how many statements a
/// block or guard may enter.
#[derive(Clone, Copy)]
pub struct Limits {
    pub silent: u32,
    pub budget: u32,
    pub statements: u32,
}
