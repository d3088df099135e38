//! Where a search stands.
ghost use Rattle.std.specs.Prelude.{◌≡◌, [], Some, None, OnOk};
ghost use Rattle.std.specs.Option.{option_or};
ghost use Rattle.run_paths.specs.Paths.{view_of, first_view};

use crate::verdict::Faulted;
use est_meaning::event::Event;
use est_meaning::firing::Firing;
use est_meaning::mean_blocks::fault::BlockFault;
use est_meaning::run::{Move, Run};
use est_meaning::trace::Trace;
use est_syntax::est_items::Items;
use run_paths::path::{Best, Path};
use std::alloc::{AllocError, Global};

/// What is searched for: a run that explains the trace, in which so many silent firings may stand
/// in a row, with so many firings tried.
#[derive(Clone, Copy)]
pub struct Task<'t> {
    pub trace: &'t Trace,
    pub silent: u32,
    pub budget: u32,
}

/// After these moves, which have so many events, the block of this firing, or a guard, passes its
/// limit.
#[derive(Drop)]
pub struct Passed {
    pub run: Run,
    pub events: u32,
    pub firing: Option<Firing>,
}

/// Where a limit was passed first, and where a block faulted first.
#[derive(Drop)]
pub struct Notes {
    pub passed: Option<Passed>,
    pub faulted: Option<Faulted>,
}

/// A search on its way, with how many firings were tried, and room for what a world answers.
#[derive(Drop)]
pub struct Walk {
    pub path: Path<Move, Firing>,
    pub best: Best<Move>,
    pub notes: Notes,
    pub tried: u32,
    pub offers: Vec<Firing>,
    pub outs: Vec<Event>,
}

/// What comes of a firing that is done: its events agree with the trace, and it leads on, or it does
/// not.
#[derive(Clone, Copy, PartialEq, Eq)]
pub enum Landed {
    On,
    Off,
}

/// What comes of a step: the search goes on, or it has found the first run that explains the
/// trace, or the budget is used up and a firing is left, or nothing is left.
#[derive(Clone, Copy, PartialEq, Eq)]
pub enum Step {
    Going,
    Accepting,
    Over,
    Done,
}

impl Notes {
    /// Notes that after these moves, which have so many events, this firing, or a guard, passes its
    /// limit, if none did before.
    pub fn pass(
        &mut self,
        alloc: Global,
        moves: &[Move],
        events: u32,
        firing: Option<Firing>,
    ) -> Result<(), AllocError>
        ensures { OnOk result
            (self.new ≡ record self.old {
              passed = option_or self.old.passed
                  (Some (record { run = moves.now; events = events; firing = firing }));
            }) }
    {
        if self.passed.is_none() {
            self.passed = Some(Passed {
                run: Items {
                    items: moves.to_vec(alloc)?,
                },
                events,
                firing,
            });
        }
        Ok(())
    }

    /// Notes that after these moves this firing has this fault, if none had one before.
    pub fn fault(
        &mut self,
        alloc: Global,
        moves: &[Move],
        firing: Firing,
        fault: BlockFault,
    ) -> Result<(), AllocError>
        ensures { OnOk result
            (self.new ≡ record self.old {
              faulted = option_or self.old.faulted
                  (Some (record { run = moves.now; firing = firing; fault = fault }));
            }) }
    {
        if self.faulted.is_none() {
            self.faulted = Some(Faulted {
                run: Items {
                    items: moves.to_vec(alloc)?,
                },
                firing,
                fault,
            });
        }
        Ok(())
    }
}

impl Walk {
    /// The search at its start, whose events are so many of the trace.
    pub fn new(alloc: Global, matched: u32) -> Walk
        ensures path { view_of result.path ≡ first_view matched }
        ensures best { result.best.yields ≡ matched }
        ensures common { result.best.common ≡ 0 }
        ensures tail { result.best.tail.items ≡ [] }
        ensures notes { result.notes ≡ record { passed = None; faulted = None } }
        ensures tried { result.tried ≡ 0 }
    {
        Walk {
            path: Path::new(alloc, matched),
            best: Best {
                yields: matched,
                common: 0,
                tail: Vec::new(alloc),
            },
            notes: Notes {
                passed: None,
                faulted: None,
            },
            tried: 0,
            offers: Vec::new(alloc),
            outs: Vec::new(alloc),
        }
    }
}
