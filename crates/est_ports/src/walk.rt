//! Where a walk along the lists of ports stands.
ghost use Rattle.std.specs.Prelude.{◌≡◌, [], Some, None, length, IfOk, OnOk};
ghost use Rattle.std.specs.Option.{option_or};
ghost use Rattle.run_paths.specs.Paths.{view_of, first_view};
ghost use Rattle.est_ports.specs.inside.Walk.{HasRaised};

use crate::left::{Rest, Used, renew};
use est_meaning::event::Event;
use est_meaning::firing::Firing;
use est_syntax::est_items::Items;
use mean_ports::lists::PortLists;
use mean_ports::moves::PortMove;
use run_paths::path::{Best, Path};
use std::alloc::{AllocError, Global};

/// What is searched for: a run that explains a merge of the lists, in which so many silent firings
/// may stand in a row, with so many tries.
#[derive(Clone, Copy)]
pub struct Task<'t> {
    pub lists: &'t PortLists,
    pub silent: u32,
    pub budget: u32,
}

/// After these moves, which use this up, so many events, the block of this firing, or a guard,
/// passes its limit.
#[derive(Drop)]
pub struct Passed {
    pub run: Items<PortMove>,
    pub used: Items<Used>,
    pub events: u32,
    pub firing: Option<Firing>,
}

/// A walk on its way, with how many moves were tried and how many blocks fired, and room for what
/// is listed.
#[derive(Drop)]
pub struct Walk {
    pub path: Path<PortMove, PortMove>,
    pub rest: Rest,
    pub best: Best<PortMove>,
    pub best_used: Best<Used>,
    pub passed: Option<Passed>,
    pub tried: u32,
    pub fired: u32,
    pub tries: Vec<PortMove>,
    pub offers: Vec<Firing>,
    pub outs: Vec<Event>,
}

/// What comes of a step: the walk goes on, or it has found a run that uses the lists up, or the
/// budget is used up and a move is left, or nothing is left.
#[derive(Clone, Copy, PartialEq, Eq)]
pub enum Step {
    Going,
    Accepting,
    Over,
    Done,
}

impl Walk {
    /// The walk at its start, whose events are so many.
    pub fn new(alloc: Global, rest: Rest, matched: u32) -> Walk
        ensures path { view_of result.path ≡ first_view matched }
        ensures rest { result.rest ≡ rest }
        ensures best { result.best.yields ≡ matched }
        ensures common { result.best.common ≡ 0 }
        ensures tail { result.best.tail.items ≡ [] }
        ensures used_common { result.best_used.common ≡ matched }
        ensures used_tail { result.best_used.tail.items ≡ [] }
        ensures passed { result.passed ≡ None }
        ensures tried { result.tried ≡ 0 }
        ensures fired { result.fired ≡ 0 }
    {
        Walk {
            path: Path::new(alloc, matched),
            rest,
            best: Best {
                yields: matched,
                common: 0,
                tail: Vec::new(alloc),
            },
            best_used: Best {
                yields: matched,
                common: matched as usize,
                tail: Vec::new(alloc),
            },
            passed: None,
            tried: 0,
            fired: 0,
            tries: Vec::new(alloc),
            offers: Vec::new(alloc),
            outs: Vec::new(alloc),
        }
    }

    /// Notes that after the run of the path this firing, or a guard, passes its limit, if nothing
    /// did before.
    pub fn note(&mut self, alloc: Global, firing: Option<Firing>) -> Result<(), AllocError>
        ensures tried { self.new.tried ≡ self.old.tried }
        ensures fires { self.new.fired ≡ self.old.fired }
        ensures noted { OnOk result
            (self.new ≡ record self.old {
              passed = option_or self.old.passed
                  (Some (record {
                    run = self.old.path.moves.items;
                    used = self.old.rest.used.items;
                    events = self.old.path.top.matched;
                    firing = firing;
                  }));
            }) }
    {
        if self.passed.is_none() {
            self.passed = Some(Passed {
                run: Items {
                    items: self.path.moves.to_vec(alloc)?,
                },
                used: Items {
                    items: self.rest.used.to_vec(alloc)?,
                },
                events: self.path.top.matched,
                firing,
            });
        }
        Ok(())
    }

    /// The run of the path with this move more yields so many events, which are all that are used
    /// up: where these are more than before, it is the best.
    pub fn reach(&mut self, last: PortMove, yields: u32) -> Result<(), AllocError>
        ensures tried { self.new.tried ≡ self.old.tried }
        ensures fires { self.new.fired ≡ self.old.fired }
        ensures raised { OnOk result (HasRaised self.old self.new last yields) }
    {
        if yields > self.best.yields {
            renew(&mut self.best_used, yields, self.rest.used.len());
            self.best.reach(self.path.moves.len(), last, yields)?;
        }
        Ok(())
    }
}
