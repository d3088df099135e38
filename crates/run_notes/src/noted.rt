//! What is noted of the runs of a search.

use crate::way::{Reached, Way};
use est_meaning::event::{Event, Events};
use est_meaning::firing::Firing;
use est_meaning::run::{Move, Run};
use est_meaning::trace::{Expected, agrees};
use est_syntax::est_items::{Items, Twin};
use std::alloc::{AllocError, Global};

// So many different events are kept at most.
const MOST_KEPT: usize = 64;

/// What was seen so far in the runs of a search along a trace, in which so many firings may be
/// silent in a row: the run that reached the most events, and what left in place of the next one.
#[derive(Drop)]
pub(crate) struct Noted<'t> {
    trace: &'t [Expected],
    silent: u32,
    // Where the search stands, and how it came there.
    here: Reached,
    way: Way,
    // The most that have happened, whether a run ends there, and what left in place of the next.
    most: usize,
    is_end: bool,
    others: Vec<Event>,
    are_more: bool,
    // After how many events at most a run was cut off since too many firings were silent.
    cut: Option<usize>,
    // Whether a block or a guard passed the limit of statements.
    is_limited: bool,
    // That memory ran out for one of these.
    failed: Option<AllocError>,
}

/// What is known of the runs of a search that yield the most events of a trace: how many these are,
/// the first such run, what leaves in place of the next event, and whether a run ends there, so that
/// something may arrive or time pass instead. Each event stands once, and there may be more than
/// are kept. `cut` is after how many events at most a run was cut off since too many firings in a
/// row were silent, where one was, and `is_limited` says that a block or a guard passed the limit of
/// statements.
#[derive(Drop)]
pub struct Others {
    pub happened: usize,
    pub run: Run,
    pub is_end: bool,
    pub events: Events,
    pub are_more: bool,
    pub cut: Option<usize>,
    pub is_limited: bool,
}

// For how many events these are those with which the rest of a trace begins.
fn fitting(rest: &[Expected], outs: &[Event]) -> usize {
    let mut many: usize = 0;
    for (event, expected) in outs.iter().zip(rest.iter()) {
        if !agrees(expected, event) {
            return many;
        }
        many = many.saturating_add(1);
    }
    many
}

// Whether an event is one of these.
fn is_among(event: &Event, events: &[Event]) -> bool {
    for other in events {
        if event.is(other) {
            return true;
        }
    }
    false
}

impl<'t> Noted<'t> {
    /// Nothing is noted of this trace.
    pub(crate) fn new(alloc: Global, trace: &'t [Expected], silent: u32) -> Noted<'t> {
        Noted {
            trace,
            silent,
            here: Reached {
                happened: 0,
                silent: 0,
            },
            way: Way::new(alloc),
            most: 0,
            is_end: false,
            others: Vec::new(alloc),
            are_more: false,
            cut: None,
            is_limited: false,
            failed: None,
        }
    }

    // Keeps why memory ran out, if it did.
    fn keep(&mut self, done: Result<(), AllocError>) {
        if let Err(error) = done {
            self.failed = Some(error);
        }
    }

    // So many events have happened, and a run may end there.
    fn reach(&mut self, happened: usize, is_end: bool) {
        self.here.happened = happened;
        if happened > self.most {
            self.most = happened;
            self.is_end = false;
            self.others.clear();
            self.are_more = false;
            self.way.keep();
        }
        if is_end && happened == self.most {
            self.is_end = true;
        }
    }

    // Keeps an event that leaves where the trace has another one or none.
    fn add(&mut self, alloc: Global, event: &Event) -> Result<(), AllocError> {
        if self.here.happened < self.most || is_among(event, &self.others) {
            return Ok(());
        }
        if self.others.len() >= MOST_KEPT {
            self.are_more = true;
            return Ok(());
        }
        let event = event.twin(alloc)?;
        self.others.push(event)?;
        Ok(())
    }

    // Makes a move.
    fn enter(&mut self, made: Move) {
        let done = self.way.enter(made, self.here);
        self.keep(done);
    }

    // Counts a firing in which nothing leaves.
    fn wait(&mut self) {
        self.here.silent = self.here.silent.saturating_add(1);
        if self.here.silent > self.silent {
            let before = self.cut.unwrap_or(0);
            self.cut = Some(before.max(self.here.happened));
        }
    }

    /// Notes what leaves at the start.
    pub(crate) fn begin(&mut self, alloc: Global, outs: &[Event]) {
        let rest = &self.trace[self.here.happened.min(self.trace.len())..];
        let many = fitting(rest, outs);
        let happened = self.here.happened.saturating_add(many);
        self.reach(happened, many >= outs.len());
        let done = match outs.get(many) {
            None => Ok(()),
            Some(other) => self.add(alloc, other),
        };
        self.keep(done);
    }

    /// Notes a firing in which this leaves.
    pub(crate) fn leave(&mut self, alloc: Global, firing: &Firing, outs: &[Event]) {
        self.enter(Move::Fire(*firing));
        if outs.is_empty() {
            self.wait();
        } else {
            self.here.silent = 0;
        }
        self.begin(alloc, outs);
    }

    /// Notes that the next event is taken.
    pub(crate) fn take(&mut self) {
        self.enter(Move::Take);
        self.here.silent = 0;
        let happened = self.here.happened.saturating_add(1);
        self.reach(happened, true);
    }

    /// Notes that a block or a guard passed the limit of statements.
    pub(crate) fn pass_limit(&mut self) {
        self.is_limited = true;
    }

    /// Notes that the last move is undone.
    pub(crate) fn back(&mut self) {
        match self.way.undo() {
            Ok(Some(before)) => self.here = before,
            Ok(None) => (),
            Err(error) => self.failed = Some(error),
        }
    }

    /// What was noted.
    pub(crate) fn others(self, alloc: Global) -> Result<Others, AllocError> {
        let Noted {
            trace: _,
            silent: _,
            here: _,
            way,
            most,
            is_end,
            others,
            are_more,
            cut,
            is_limited,
            failed,
        } = self;
        let run = match failed {
            Some(error) => Err(error),
            None => way.best(alloc),
        };
        drop(way);
        match run {
            Err(error) => {
                drop(others);
                Err(error)
            }
            Ok(run) => Ok(Others {
                happened: most,
                run,
                is_end,
                events: Items { items: others },
                are_more,
                cut,
                is_limited,
            }),
        }
    }
}
