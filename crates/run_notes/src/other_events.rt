//! The search once more, with what is seen on its way.
ghost use Rattle.std.specs.Prelude.{◌≡◌, ◌+◌, ◌≤◌, ◌^◌, [], IfOk, IfSome, IsTrue};
ghost use Rattle.est_syntax.specs.declared.specification.Spec.{Spec};
ghost use Rattle.est_meaning.specs.mean_blocks.Outcome.{Done};
ghost use Rattle.est_meaning.specs.mean_blocks.TextByPlace.{text_of};
ghost use Rattle.est_meaning.specs.AllowedEvents.{IsAllowedTrace};
ghost use Rattle.est_meaning.specs.FiringSteps.{start_of};
ghost use Rattle.est_meaning.specs.Task.{setup_of};
ghost use Rattle.est_search.specs.Verdict.{IsLeastUnyielded};
ghost use Rattle.run_notes.specs.Refusals.{IsRefusedAt};

use crate::noted::{Noted, Others};
use crate::watching::Watching;
use est_meaning::event::Event;
use est_meaning::run::Limits;
use est_meaning::trace::Trace;
use est_meaning::world::World;
use est_search::explain::explain;
use est_search::verdict::Verdict;
use std::alloc::{AllocError, Global};

/// How a search ends.
#[derive(Clone, Copy, PartialEq, Eq)]
pub enum End {
    /// A run explains the trace.
    Accepted,
    /// No run within the limits yields one event more than the best.
    Refused,
    /// More firings are to be tried than the budget allows.
    OverFirings,
    /// A block or a guard passes the limit of statements.
    OverAction,
}

/// How a search ends, and what is known of its runs.
#[derive(Drop)]
pub struct Found {
    pub end: End,
    pub others: Others,
}

/// How the search for a run that explains a trace ends, and what leaves in place of the first event
/// that no run of the specification yields within the limits, where there is one; or else in the
/// runs that were tried. The world stands at the start of each specification of which it speaks.
pub fn next_events<W: World + Drop>(
    alloc: Global,
    world: W,
    start_outs: &[Event],
    trace: &Trace,
    limits: &Limits,
) -> Result<Option<Found>, AllocError>
    requires start { (spec : Spec) → W.speaks world spec
        → start_of limits.now.statements (text_of spec)
        ≡ Done start_outs.now (W.stack world spec).now }
    requires bottom { (spec : Spec) → W.speaks world spec → (W.stack world spec).below ≡ [] }
    requires limit { W.limit world ≡ limits.now.statements }
    requires room { W.fired world ≤ 2 ^ 63 }
    requires allowed { (spec : Spec) → W.speaks world spec → IsAllowedTrace spec trace.now }
    ensures { IfOk result (λ found. IfSome found (λ found. found.end ≡ End.Refused
        → (spec : Spec) → W.speaks world spec
        → IsLeastUnyielded (setup_of limits.now.statements limits.now.silent trace.now
        (W.stack world spec) start_outs.now spec) (found.others.happened + 1))) }
{
    let mut watching = Watching {
        world,
        noted: Noted::new(alloc, trace.events().as_slice(), limits.silent),
    };
    watching.noted.begin(alloc, start_outs);
    let found = explain(alloc, &mut watching, start_outs, trace, limits);
    let Watching { world, noted } = watching;
    drop(world);
    match found {
        Ok(verdict) => found_of(alloc, verdict, noted),
        Err(error) => {
            drop(noted);
            Err(error)
        }
    }
}

// How a verdict ends a search, and the number of the event at which it refuses the trace.
fn end_of(verdict: &Verdict) -> (End, u32)
    ensures { result.0 ≡ End.Refused → IsRefusedAt result.1 verdict.now }
{
    match verdict {
        Verdict::Accepted { .. } => (End::Accepted, 0),
        Verdict::Refused { at, .. } => (End::Refused, *at),
        Verdict::OverFirings { .. } => (End::OverFirings, 0),
        Verdict::OverAction { .. } => (End::OverAction, 0),
    }
}

// Whether the event after so many is the one of this number.
fn is_next(happened: usize, at: u32) -> bool
    ensures { IsTrue result → at ≡ happened + 1 }
{
    at > 0 && at as usize - 1 == happened
}

// How the search ended, and what was noted. Of a trace that is refused elsewhere nothing is known.
fn found_of(alloc: Global, verdict: Verdict, noted: Noted<'_>) -> Result<Option<Found>, AllocError>
    ensures { IfOk result (λ found. IfSome found (λ found. found.end ≡ End.Refused
        → IsRefusedAt (found.others.happened + 1) verdict)) }
{
    let (end, at) = end_of(&verdict);
    drop(verdict);
    let others = noted.others(alloc)?;
    if end == End::Refused && !is_next(others.happened, at) {
        drop(others);
        return Ok(None);
    }
    Ok(Some(Found { end, others }))
}
