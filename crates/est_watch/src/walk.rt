//! Where a walk stands.
ghost use Rattle.std.specs.Prelude.{◌≡◌, false};
ghost use Rattle.run_paths.specs.Paths.{view_of, first_view};

use est_meaning::event::Event;
use est_meaning::firing::Firing;
use est_meaning::run::Move;
use run_paths::path::Path;
use std::alloc::Global;

/// What is sought: a run that yields the events given, or one that has no more, in which so many
/// silent firings may stand in a row, with so many firings tried.
#[derive(Clone, Copy)]
pub struct Task<'t> {
    pub given: &'t [Event],
    pub exact: bool,
    pub silent: u32,
    pub budget: u32,
}

/// A walk on its way: how many firings were tried, whether something passed its limit, the events of
/// the last firing and how many of them were given, and room for what a world answers.
#[derive(Drop)]
pub struct Walk {
    pub path: Path<Move, Firing>,
    pub tried: u32,
    pub passed: bool,
    pub offers: Vec<Firing>,
    pub outs: Vec<Event>,
    pub used: usize,
}

/// What comes of a firing that is done: it leads on, or to a run that is sought, or neither.
#[derive(Clone, Copy, PartialEq, Eq)]
pub enum Landed {
    On,
    Found,
    Off,
}

/// What comes of a step: the walk goes on, or it stands at a run that is sought, or the budget is
/// used up and a firing is left, or nothing is left.
#[derive(Clone, Copy, PartialEq, Eq)]
pub enum Step {
    Going,
    Found,
    Over,
    Done,
}

impl Walk {
    /// The walk at its start, which sent these events.
    pub fn new(alloc: Global, outs: Vec<Event>) -> Walk
        ensures path { view_of result.path ≡ first_view 0 }
        ensures tried { result.tried ≡ 0 }
        ensures passed { result.passed ≡ false }
        ensures outs { result.outs ≡ outs }
        ensures used { result.used ≡ 0 }
    {
        Walk {
            path: Path::new(alloc, 0),
            tried: 0,
            passed: false,
            offers: Vec::new(alloc),
            outs,
            used: 0,
        }
    }
}
