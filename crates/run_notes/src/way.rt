//! The way of a search that is looked at, and the first run that reaches the most events.

use est_meaning::run::{Move, Run};
use est_syntax::est_items::Items;
use std::alloc::{AllocError, Global};

/// How many events of the trace have happened, and how many silent firings stand last.
#[derive(Clone, Copy)]
pub(crate) struct Reached {
    pub happened: usize,
    pub silent: u32,
}

/// A move, and what was reached before it.
#[derive(Clone, Copy)]
struct Entered {
    made: Move,
    before: Reached,
}

/// The moves from the start on, and the run that reached the most events: so many of these moves,
/// and then those of the tail, from its last one back.
#[derive(Drop)]
pub(crate) struct Way {
    moves: Vec<Entered>,
    common: usize,
    tail: Vec<Move>,
}

impl Way {
    /// The way without moves.
    pub fn new(alloc: Global) -> Way {
        Way {
            moves: Vec::new(alloc),
            common: 0,
            tail: Vec::new(alloc),
        }
    }

    /// Makes a move, before which this was reached.
    pub fn enter(&mut self, made: Move, before: Reached) -> Result<(), AllocError> {
        self.moves.push(Entered { made, before })?;
        Ok(())
    }

    /// The run with the moves so far is the one that reaches the most events.
    pub fn keep(&mut self) {
        self.common = self.moves.len();
        self.tail.clear();
    }

    /// Undoes the last move, and answers what was reached before it.
    pub fn undo(&mut self) -> Result<Option<Reached>, AllocError> {
        let Some(last) = self.moves.pop() else {
            return Ok(None);
        };
        if self.common > self.moves.len() {
            self.common = self.moves.len();
            self.tail.push(last.made)?;
        }
        Ok(Some(last.before))
    }

    // Adds the moves of the tail.
    fn push_tail(&self, run: &mut Run) -> Result<(), AllocError> {
        for made in self.tail.iter().rev() {
            run.push(*made)?;
        }
        Ok(())
    }

    /// The run that reaches the most events.
    pub fn best(&self, alloc: Global) -> Result<Run, AllocError> {
        let mut run = Items::new(alloc);
        for entered in self.moves.iter().take(self.common) {
            run.push(entered.made)?;
        }
        self.push_tail(&mut run)?;
        Ok(run)
    }
}
