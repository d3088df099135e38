//! The way of a search from the start to where it stands, and the best run on it.
ghost use Rattle.std.specs.Prelude.{◌≡◌, ◌⊎◌, [], reverse};
ghost use Rattle.std.specs.Prelude.{IfOk, IfSome, IfNone, OnOk};
ghost use Rattle.run_paths.specs.Paths.{view_of, entered, with_tries, IsNext, IsUndone};
ghost use Rattle.run_paths.specs.Paths.{first_view, HasReached, HasKept};

use est_syntax::est_items::Items;
use std::alloc::{AllocError, Global};

/// What was done after the run in which the path ends.
#[derive(Clone, Copy, PartialEq, Eq)]
pub enum Stage {
    /// Nothing.
    Fresh,
    /// What comes from outside was dealt with, or is what is tried.
    Taken,
    /// The possible firings were listed.
    Listed,
}

/// A run on the path: how many events it has, how many silent firings stand last, and how many
/// tries are left after it.
#[derive(Clone, Copy)]
pub struct Level {
    pub matched: u32,
    pub silent: u32,
    pub left: usize,
}

/// The runs from the start on, each with one move more than the one before, and what is left to be
/// tried after them: of the longest run last, and of these the next one.
#[derive(Drop)]
pub struct Path<M, T> {
    pub stage: Stage,
    pub top: Level,
    pub lower: Vec<Level>,
    pub moves: Vec<M>,
    pub tries: Vec<T>,
}

/// The first run that yields the most events: so many of the first moves of the path, and then
/// those of the tail, from its last one back.
#[derive(Drop)]
pub struct Best<M> {
    pub yields: u32,
    pub common: usize,
    pub tail: Vec<M>,
}

impl<M: Copy, T: Copy> Path<M, T> {
    /// The path of the run without moves, which has so many events.
    pub fn new(alloc: Global, matched: u32) -> Path<M, T>
        ensures { view_of result ≡ first_view matched }
    {
        Path {
            stage: Stage::Fresh,
            top: Level {
                matched,
                silent: 0,
                left: 0,
            },
            lower: Vec::new(alloc),
            moves: Vec::new(alloc),
            tries: Vec::new(alloc),
        }
    }

    /// Makes one move more.
    pub fn enter(&mut self, made: M, matched: u32, silent: u32) -> Result<(), AllocError>
        ensures { OnOk result (view_of self.new ≡ entered (view_of self.old) made matched silent) }
    {
        self.moves.push(made)?;
        self.lower.push(self.top)?;
        self.top = Level {
            matched,
            silent,
            left: 0,
        };
        self.stage = Stage::Fresh;
        Ok(())
    }

    /// Keeps these to be tried.
    pub fn list(&mut self, stage: Stage, tries: &mut Vec<T>) -> Result<(), AllocError>
        ensures { OnOk result
            (view_of self.new ≡ with_tries (view_of self.old) stage tries.old.items) }
    {
        self.stage = stage;
        self.top.left = tries.len();
        while let Some(next) = tries.pop() {
            self.tries.push(next)?;
        }
        Ok(())
    }

    /// Takes what is to be tried next.
    pub fn next_try(&mut self) -> Option<T>
        ensures some { IfSome result (λ t. IsNext (view_of self.old) t (view_of self.new)) }
        ensures none { IfNone result
            ((self.old.top.left ≡ 0) ⊎ (self.old.tries.items ≡ [])) }
        ensures kept { IfNone result (view_of self.new ≡ view_of self.old) }
    {
        if self.top.left == 0 {
            return None;
        }
        match self.tries.pop() {
            None => None,
            Some(next) => {
                self.top.left -= 1;
                Some(next)
            }
        }
    }

    /// Undoes the last move. What was done after the run before it is for the caller to say.
    pub fn undo(&mut self) -> Option<M>
        ensures some { IfSome result (λ made. IsUndone (view_of self.old) made (view_of self.new)) }
        ensures none { IfNone result
            ((self.old.lower.items ≡ []) ⊎ (self.old.moves.items ≡ [])) }
    {
        let level = self.lower.pop()?;
        let made = self.moves.pop()?;
        self.top = level;
        Some(made)
    }
}

impl<M: Copy> Best<M> {
    /// Where the run of so many moves and this last one yields more than the best, it is the best.
    pub fn reach(&mut self, made: usize, last: M, yields: u32) -> Result<(), AllocError>
        ensures { OnOk result (HasReached self.old self.new made last yields) }
    {
        if yields > self.yields {
            self.tail.clear();
            self.tail.push(last)?;
            self.common = made;
            self.yields = yields;
        }
        Ok(())
    }

    /// Keeps a move that is undone, where it belongs to the best run. So many are left.
    pub fn keep(&mut self, left: usize, undone: M) -> Result<(), AllocError>
        ensures { OnOk result (HasKept self.old self.new left undone) }
    {
        if self.common > left {
            self.tail.push(undone)?;
            self.common = left;
        }
        Ok(())
    }
}

/// These moves from the last one back, taken out.
pub fn reversed<M: Copy>(alloc: Global, moves: &mut Vec<M>) -> Result<Items<M>, AllocError>
    ensures { IfOk result (λ run. run ≡ reverse moves.old.items) }
{
    let mut run = Items::new(alloc);
    while let Some(made) = moves.pop() {
        run.push(made)?;
    }
    Ok(run)
}
