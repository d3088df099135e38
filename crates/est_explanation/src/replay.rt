//! Replays of explanations.
ghost use Rattle.std.specs.Prelude.{◌≡◌, ℕ, ◌+◌, ◌-◌, ◌<◌, ◌≤◌, ◌^◌, ◌↔◌, ◌⊎◌};
ghost use Rattle.std.specs.Prelude.{List, length, take, drop, IsTrue, IfOk};
ghost use Rattle.est_syntax.specs.declared.specification.Spec.{Spec};
ghost use Rattle.est_syntax.specs.Least.{IsIn};
ghost use Rattle.est_meaning.specs.mean_blocks.Outcome.{Done};
ghost use Rattle.est_meaning.specs.mean_blocks.TextByPlace.{text_of};
ghost use Rattle.est_meaning.specs.AllowedEvents.{IsAllowedTrace, most_events};
ghost use Rattle.est_meaning.specs.Agreement.{AgreeFirst};
ghost use Rattle.est_meaning.specs.FiringSteps.{start_of};
ghost use Rattle.est_meaning.specs.SituationStacks.{Keeps};
ghost use Rattle.est_meaning.specs.Task.{IsSetup, setup_of};
ghost use Rattle.est_meaning.specs.Run.{Setup};
ghost use Rattle.est_explanation.specs.Replay.{IsAnswer, most_moves};
ghost use Rattle.est_explanation.specs.inside.Standing.{IsReady, HasMoved, HasLanded};
ghost use Rattle.est_explanation.specs.inside.Standing.{IsMet, IsEnding, asked_of, place_of};

use crate::verdict::{Replayed, Why};
use est_meaning::answers::{Fired, Offers};
use est_meaning::ending::ends_at;
use est_meaning::event::Event;
use est_meaning::firing::Firing;
use est_meaning::run::Move;
use est_meaning::trace::{Expected, Trace, agrees};
use est_meaning::world::World;
use std::alloc::{AllocError, Global};

/// What is replayed: moves along a trace and their claim, where so many silent firings may stand in
/// a row.
#[derive(Clone, Copy)]
pub struct Replaying<'t> {
    pub trace: &'t Trace,
    pub moves: &'t [Move],
    pub claim: u32,
    pub silent: u32,
}

// What a move is checked against: the trace, how many silent firings may stand in a row, and how
// many events are compared at most.
#[derive(Clone, Copy)]
struct Checks<'t> {
    trace: &'t Trace,
    silent: u32,
    asked: usize,
}

// How many events there are so far, and how many silent firings stand last in a row.
#[derive(Clone, Copy)]
struct Standing {
    events: usize,
    silent_in_row: u32,
}

// What came of a move: where the replay then stands, or the first check that fails.
#[derive(Clone, Copy)]
enum Moved {
    Passed(Standing),
    Failed(Why),
}

// Whether a trace begins with these events.
fn begins_with(trace: &[Expected], events: &[Event]) -> bool
    ensures { IsTrue result ↔ AgreeFirst trace.now events.now }
{
    if events.len() > trace.len() {
        return false;
    }
    for (index, event) in events.iter().enumerate() {
        if !agrees(&trace[index], event) {
            return false;
        }
    }
    true
}

// Whether these events, of which so many happened before, agree with the rest of the trace up to a
// number of all events.
fn agree(trace: &[Expected], so_far: usize, outs: &[Event], asked: usize) -> bool
    requires { so_far ≤ length trace.now }
    ensures { IsTrue result
        ↔ AgreeFirst (drop so_far trace.now) (take (asked - so_far) outs.now) }
{
    let compared = outs.len().min(asked.saturating_sub(so_far));
    begins_with(&trace[so_far..], &outs[..compared])
}

// How many events are compared at most where these moves are left.
fn asked(trace: &[Expected], claim: u32, left: &[Move]) -> usize
    ensures { result ≡ asked_of (length trace.now) claim left.now }
{
    match left {
        [] => claim as usize,
        [_, ..] => trace.len() + 1,
    }
}

// Whether a firing is one of these.
fn is_among(firing: &Firing, firings: &[Firing]) -> bool
    ensures { IsTrue result ↔ IsIn firing.now firings.now }
{
    for other in firings {
        if other == firing {
            return true;
        }
    }
    false
}

// Takes the next event of the trace.
fn take_next<W: World>(
    alloc: Global,
    world: &mut W,
    checks: &Checks<'_>,
    at: Standing,
) -> Result<Moved, AllocError>
    ghost setup: { Spec → Setup }
    requires within { at.events ≤ length checks.now.trace.now.events }
    requires ready { (spec : Spec) → W.speaks world.old spec
        → (events : List Event) × IsReady (setup spec) spec (W.limit world.old)
        checks.now.silent checks.now.trace.now (W.stack world.old spec) at events }
    ensures keeps { Keeps W.speaks W.limit world.old world.new }
    ensures fired { W.fired world.new ≡ W.fired world.old }
    ensures moved { IfOk result
        (λ moved. (spec : Spec) → W.speaks world.old spec → (events : List Event)
        → IsReady (setup spec) spec (W.limit world.old) checks.now.silent
        checks.now.trace.now (W.stack world.old spec) at events
        → HasMoved (setup spec) checks.now.asked
        (place_of (W.stack world.old spec) events at) Move.Take
        (W.stack world.new spec).now moved) }
{
    let trace = checks.trace.events().as_slice();
    if at.events >= trace.len() {
        return Ok(Moved::Failed(Why::NoEvent));
    }
    let Expected::Known(event) = &trace[at.events] else {
        return Ok(Moved::Failed(Why::NoEvent));
    };
    match event {
        Event::Leaves(_) => return Ok(Moved::Failed(Why::NoEvent)),
        Event::Arrives(_) => world.arrive(alloc, event)?,
        Event::Passes(units) => world.pass(alloc, u64::from(*units))?,
    }
    Ok(Moved::Passed(Standing {
        events: at.events + 1,
        silent_in_row: 0,
    }))
}

// Goes on after a firing with these events.
fn land(checks: &Checks<'_>, at: Standing, outs: &[Event]) -> Moved
    requires { at.events ≤ length checks.now.trace.now.events }
    ensures { HasLanded checks.now.trace.now.events checks.now.silent checks.now.asked at outs.now
        result }
{
    if !agree(
        checks.trace.events().as_slice(),
        at.events,
        outs,
        checks.asked,
    ) {
        return Moved::Failed(Why::WrongOutput);
    }
    let events = at.events + outs.len();
    match outs {
        [] => {
            if at.silent_in_row < checks.silent {
                Moved::Passed(Standing {
                    events,
                    silent_in_row: at.silent_in_row + 1,
                })
            } else {
                Moved::Failed(Why::TooSilent)
            }
        }
        [_, ..] => Moved::Passed(Standing {
            events,
            silent_in_row: 0,
        }),
    }
}

// Fires a transition, where it is one of the possible firings.
fn fire<W: World>(
    alloc: Global,
    world: &mut W,
    checks: &Checks<'_>,
    at: Standing,
    firing: &Firing,
) -> Result<Moved, AllocError>
    ghost setup: { Spec → Setup }
    requires within { at.events ≤ length checks.now.trace.now.events }
    requires room { W.fired world.old < 2 ^ 64 - 1 }
    requires ready { (spec : Spec) → W.speaks world.old spec
        → (events : List Event) × IsReady (setup spec) spec (W.limit world.old)
        checks.now.silent checks.now.trace.now (W.stack world.old spec) at events }
    ensures keeps { Keeps W.speaks W.limit world.old world.new }
    ensures fired { W.fired world.new ≤ W.fired world.old + 1 }
    ensures moved { IfOk result
        (λ moved. (spec : Spec) → W.speaks world.old spec → (events : List Event)
        → IsReady (setup spec) spec (W.limit world.old) checks.now.silent
        checks.now.trace.now (W.stack world.old spec) at events
        → HasMoved (setup spec) checks.now.asked
        (place_of (W.stack world.old spec) events at) (Move.Fire firing.now)
        (W.stack world.new spec).now moved) }
{
    let mut firings = Vec::new(alloc);
    match world.options(alloc, &mut firings)? {
        Offers::Unsettled => return Ok(Moved::Failed(Why::Limit)),
        Offers::Settled => {}
    }
    if !is_among(firing, &firings) {
        return Ok(Moved::Failed(Why::NotOffered));
    }
    let mut outs = Vec::new(alloc);
    match world.fire(alloc, firing, &mut outs)? {
        Fired::Done => Ok(land(checks, at, &outs)),
        Fired::Fault(fault) => Ok(Moved::Failed(Why::Fault(fault))),
        Fired::Limit => Ok(Moved::Failed(Why::Limit)),
    }
}

// Makes a move.
fn make<W: World>(
    alloc: Global,
    world: &mut W,
    checks: &Checks<'_>,
    at: Standing,
    next: &Move,
) -> Result<Moved, AllocError>
    ghost setup: { Spec → Setup }
    requires within { at.events ≤ length checks.now.trace.now.events }
    requires room { W.fired world.old < 2 ^ 64 - 1 }
    requires ready { (spec : Spec) → W.speaks world.old spec
        → (events : List Event) × IsReady (setup spec) spec (W.limit world.old)
        checks.now.silent checks.now.trace.now (W.stack world.old spec) at events }
    ensures keeps { Keeps W.speaks W.limit world.old world.new }
    ensures fired { W.fired world.new ≤ W.fired world.old + 1 }
    ensures moved { IfOk result
        (λ moved. (spec : Spec) → W.speaks world.old spec → (events : List Event)
        → IsReady (setup spec) spec (W.limit world.old) checks.now.silent
        checks.now.trace.now (W.stack world.old spec) at events
        → HasMoved (setup spec) checks.now.asked
        (place_of (W.stack world.old spec) events at) next.now
        (W.stack world.new spec).now moved) }
{
    match next {
        Move::Take => take_next(alloc, world, checks, at),
        Move::Fire(firing) => fire(alloc, world, checks, at, firing),
    }
}

// Whether so many events meet the claim, if those up to the claim agree with the trace.
fn is_met<W: World>(
    alloc: Global,
    world: &mut W,
    replaying: &Replaying<'_>,
    events: usize,
) -> Result<bool, AllocError>
    requires { length replaying.now.trace.now.events ≤ most_events }
    ensures keeps { Keeps W.speaks W.limit world.old world.new }
    ensures fired { W.fired world.new ≡ W.fired world.old }
    ensures met { IfOk result (λ met. (spec : Spec) → W.speaks world.old spec
        → IsTrue met ↔ IsMet replaying.now.trace.now (W.limit world.old) (text_of spec)
        (W.stack world.old spec).now replaying.now.claim events) }
{
    let claim = replaying.claim as usize;
    let all = replaying.trace.events().len();
    if claim <= all {
        return Ok(claim <= events);
    }
    let whole = all + 1;
    if claim != whole {
        return Ok(false);
    }
    ends_at(alloc, world, replaying.trace, events)
}

// What is answered after the last move, with so many events.
fn end<W: World>(
    alloc: Global,
    world: &mut W,
    replaying: &Replaying<'_>,
    events: usize,
) -> Result<Replayed, AllocError>
    requires short { length replaying.now.trace.now.events ≤ most_events }
    requires few { length replaying.now.moves.now ≤ most_moves }
    ensures keeps { Keeps W.speaks W.limit world.old world.new }
    ensures fired { W.fired world.new ≡ W.fired world.old }
    ensures ending { IfOk result (λ answer. (spec : Spec) → W.speaks world.old spec
        → IsEnding replaying.now.trace.now (W.limit world.old) (text_of spec)
        (W.stack world.old spec).now replaying.now.claim (length replaying.now.moves.now) events
        answer) }
{
    let met = is_met(alloc, world, replaying, events)?;
    if met {
        Ok(Replayed::Confirmed {
            events: replaying.claim,
        })
    } else {
        Ok(Replayed::Rejected {
            at: replaying.moves.len() as u32 + 1,
            why: Why::NotAll,
        })
    }
}

// Replays moves one after the other until a check fails.
fn replay_moves<W: World>(
    alloc: Global,
    world: &mut W,
    start_outs: &[Event],
    replaying: &Replaying<'_>,
) -> Result<Replayed, AllocError>
    ghost setup: { Spec → Setup }
    requires room { W.fired world.old ≤ 2 ^ 63 }
    requires few { length replaying.now.moves.now ≤ most_moves }
    requires short { length replaying.now.trace.now.events ≤ most_events }
    requires start { (spec : Spec) → W.speaks world.old spec
        → IsSetup (setup spec) spec (W.limit world.old) replaying.now.silent replaying.now.trace.now
        (W.stack world.old spec) start_outs.now }
    ensures keeps { Keeps W.speaks W.limit world.old world.new }
    ensures fired { W.fired world.new ≤ W.fired world.old + length replaying.now.moves.now }
    ensures answer { IfOk result
        (λ answer. (spec : Spec) → W.speaks world.old spec
        → IsAnswer (setup spec) replaying.now.moves.now replaying.now.claim answer) }
{
    let trace = replaying.trace.events().as_slice();
    let moves = replaying.moves;
    let claim = replaying.claim;
    let silent = replaying.silent;
    if !agree(trace, 0, start_outs, asked(trace, claim, moves)) {
        return Ok(Replayed::Rejected {
            at: 0,
            why: Why::WrongOutput,
        });
    }
    let mut at = Standing {
        events: start_outs.len(),
        silent_in_row: 0,
    };
    for (index, next) in moves.iter().enumerate() {
        let compared = asked(trace, claim, &moves[index + 1..]);
        let checks = Checks {
            trace: replaying.trace,
            silent,
            asked: compared,
        };
        match make(alloc, world, &checks, at, next)? {
            Moved::Passed(next) => at = next,
            Moved::Failed(why) => {
                return Ok(Replayed::Rejected {
                    at: index as u32 + 1,
                    why,
                });
            }
        }
        world.forget();
    }
    end(alloc, world, replaying, at.events)
}

/// Replays moves on a world that stands at the start of each specification of which it
/// speaks. The answer is the only one that fits (`laws::one_answer`). Each move is made once, and
/// for each firing the possible firings are listed once; after the last move they are where all of
/// a trace is claimed that ends quiet.
pub fn replay_in<W: World>(
    alloc: Global,
    world: &mut W,
    start_outs: &[Event],
    replaying: &Replaying<'_>,
) -> Result<Replayed, AllocError>
    requires start { (spec : Spec) → W.speaks world.old spec
        → start_of (W.limit world.old) (text_of spec)
        ≡ Done start_outs.now (W.stack world.old spec).now }
    requires room { W.fired world.old ≤ 2 ^ 63 }
    requires allowed { (spec : Spec) → W.speaks world.old spec
        → IsAllowedTrace spec replaying.now.trace.now }
    requires few { length replaying.now.moves.now ≤ most_moves }
    ensures keeps { Keeps W.speaks W.limit world.old world.new }
    ensures fired { W.fired world.new ≤ W.fired world.old + length replaying.now.moves.now }
    ensures answer { IfOk result
        (λ answer. (spec : Spec) → W.speaks world.old spec
        → IsAnswer (setup_of (W.limit world.old) replaying.now.silent replaying.now.trace.now
        (W.stack world.old spec) start_outs.now spec) replaying.now.moves.now replaying.now.claim
        answer) }
{
    replay_moves(alloc, world, start_outs, replaying)
}
