//! The steps of a search.
ghost use Rattle.std.specs.Prelude.{◌≡◌, ℕ, ◌+◌, ◌-◌, ◌<◌, ◌≤◌, ◌*◌, ◌^◌, ◌⊎◌, false, [], length};
ghost use Rattle.std.specs.Prelude.{IfOk, OnErr, OnOk, MatchBool};
ghost use Rattle.est_syntax.specs.declared.specification.Spec.{Spec};
ghost use Rattle.est_meaning.specs.mean_blocks.TextByPlace.{text_of};
ghost use Rattle.est_meaning.specs.AllowedEvents.{IsAllowed, most_events};
ghost use Rattle.est_meaning.specs.OutsideEvents.{units_of, after_event};
ghost use Rattle.est_meaning.specs.SituationStacks.{Keeps, SameStack, pushed};
ghost use Rattle.est_meaning.specs.Run.{Setup, IsFromOutside};
ghost use Rattle.est_meaning.specs.Trials.{IsTrial, HasMany};
ghost use Rattle.run_paths.specs.Bottoms.{SameBottom};
ghost use Rattle.run_paths.specs.Paths.{view_of};
ghost use Rattle.est_search.specs.inside.Path.{stage_after};
ghost use Rattle.est_search.specs.inside.Walk.{IsWalk, IsReady, IsTrying, IsFound};
ghost use Rattle.est_search.specs.inside.Walk.{HasLanded, StepIs, load, work};

use crate::agreement::agreed;
use crate::walk::{Landed, Step, Task, Walk};
use est_meaning::answers::{Fired, Offers};
use est_meaning::ending::ends_at;
use est_meaning::event::Event;
use est_meaning::firing::Firing;
use est_meaning::run::Move;
use est_meaning::trace::Expected;
use est_meaning::world::World;
use run_paths::path::Stage;
use run_paths::silence::silent_with;
use std::alloc::{AllocError, Global};

// Lets an event happen that comes from outside. The answer says whether it does.
fn happen<W: World>(alloc: Global, world: &mut W, event: &Event) -> Result<bool, AllocError>
    requires allowed { (spec : Spec) → W.speaks world.old spec → IsAllowed spec event.now }
    requires time { (spec : Spec) → W.speaks world.old spec → IsFromOutside event.now
        → (W.stack world.old spec).now.clock + units_of event.now ≤ 10 ^ 15 }
    ensures keeps { Keeps W.speaks W.limit world.old world.new }
    ensures fired { W.fired world.new ≡ W.fired world.old }
    ensures outside { IfOk result
        (λ outside. MatchBool outside (IsFromOutside event.now) (IsFromOutside event.now → ⊥)) }
    ensures happened { IfOk result (λ outside. (spec : Spec) → W.speaks world.old spec
        → MatchBool outside (W.stack world.new spec ≡ pushed (after_event (text_of spec)
        (W.stack world.old spec).now event.now) (W.stack world.old spec))
        (W.stack world.new spec ≡ W.stack world.old spec)) }
    ensures err { OnErr result (SameStack W.speaks W.stack world.old world.new) }
{
    match event {
        Event::Leaves(_) => Ok(false),
        Event::Arrives(_) => {
            world.arrive(alloc, event)?;
            Ok(true)
        }
        Event::Passes(units) => {
            world.pass(alloc, u64::from(*units))?;
            Ok(true)
        }
    }
}

// Takes the next event, if it is known and comes from outside. The answer says whether the run then
// explains the trace.
fn take_next<W: World>(
    alloc: Global,
    world: &mut W,
    task: &Task<'_>,
    walk: &mut Walk,
) -> Result<bool, AllocError>
    ghost setup: { Spec → Setup }
    requires fresh { walk.old.path.stage ≡ Stage.Fresh }
    requires few { length task.now.trace.now.events ≤ most_events }
    requires ready { (spec : Spec) → W.speaks world.old spec
        → IsReady (setup spec) spec (W.limit world.old) task.now.silent task.now.trace.now
        (W.stack world.old spec) walk.old }
    ensures keeps { Keeps W.speaks W.limit world.old world.new }
    ensures fired { W.fired world.new ≡ W.fired world.old }
    ensures tried { walk.new.tried ≡ walk.old.tried }
    ensures bottom { SameBottom W.speaks W.stack world.old world.new }
    ensures load { IfOk result
        (λ _. load (length task.now.trace.now.events) (view_of walk.new.path)
        < load (length task.now.trace.now.events) (view_of walk.old.path)) }
    ensures ok { IfOk result (λ found. (spec : Spec) → W.speaks world.old spec
        → IsFound (setup spec) (W.stack world.new spec) found walk.new) }
{
    let trace = task.trace.events().as_slice();
    let matched = walk.path.top.matched;
    walk.path.stage = Stage::Taken;
    if matched as usize >= trace.len() {
        return Ok(false);
    }
    let Expected::Known(event) = &trace[matched as usize] else {
        return Ok(false);
    };
    if !happen(alloc, world, event)? {
        return Ok(false);
    }
    let found = ends_at(alloc, world, task.trace, matched as usize + 1)?;
    walk.best
        .reach(walk.path.moves.len(), Move::Take, matched + 1)?;
    walk.path.enter(Move::Take, matched + 1, 0)?;
    Ok(found)
}

// Lists the possible firings.
fn list_options<W: World>(
    alloc: Global,
    world: &mut W,
    task: &Task<'_>,
    walk: &mut Walk,
) -> Result<(), AllocError>
    ghost setup: { Spec → Setup }
    requires taken { walk.old.path.stage ≡ Stage.Taken }
    requires ready { (spec : Spec) → W.speaks world.old spec
        → IsReady (setup spec) spec (W.limit world.old) task.now.silent task.now.trace.now
        (W.stack world.old spec) walk.old }
    ensures keeps { Keeps W.speaks W.limit world.old world.new }
    ensures fired { W.fired world.new ≡ W.fired world.old }
    ensures tried { walk.new.tried ≡ walk.old.tried }
    ensures bottom { SameBottom W.speaks W.stack world.old world.new }
    ensures load { IfOk result
        (λ _. load (length task.now.trace.now.events) (view_of walk.new.path)
        < load (length task.now.trace.now.events) (view_of walk.old.path)) }
    ensures ok { IfOk result (λ _. (spec : Spec) → W.speaks world.old spec
        → IsFound (setup spec) (W.stack world.new spec) false walk.new) }
{
    match world.options(alloc, &mut walk.offers)? {
        Offers::Settled => {
            walk.path.list(Stage::Listed, &mut walk.offers)?;
            Ok(())
        }
        Offers::Unsettled => {
            let events = walk.path.top.matched;
            walk.notes.pass(alloc, &walk.path.moves, events, None)?;
            walk.path.list(Stage::Listed, &mut walk.offers)?;
            Ok(())
        }
    }
}

// Goes on after a firing that is done, if it leads on.
fn land(task: &Task<'_>, walk: &mut Walk, firing: Firing) -> Result<Landed, AllocError>
    requires few { length task.now.trace.now.events ≤ most_events }
    requires within { walk.old.path.top.matched ≤ length task.now.trace.now.events }
    ensures tried { walk.new.tried ≡ walk.old.tried }
    ensures load { IfOk result
        (λ _. load (length task.now.trace.now.events) (view_of walk.new.path)
        < load (length task.now.trace.now.events) (view_of walk.old.path)
        + (3 * length task.now.trace.now.events + 5)) }
    ensures landed { IfOk result
        (λ landed. HasLanded task.now.trace.now.events task.now.silent walk.old walk.new firing
        landed) }
{
    let Some(silent) = silent_with(walk.path.top.silent, &walk.outs, task.silent) else {
        return Ok(Landed::Off);
    };
    let trace = task.trace.events().as_slice();
    let matched = walk.path.top.matched as usize;
    let many = agreed(trace, matched, &walk.outs);
    let yields = (matched + many) as u32;
    walk.best
        .reach(walk.path.moves.len(), Move::Fire(firing), yields)?;
    if many < walk.outs.len() {
        return Ok(Landed::Off);
    }
    walk.path.enter(Move::Fire(firing), yields, silent)?;
    Ok(Landed::On)
}

// Tries a firing. The answer says whether the run then explains the trace.
fn try_firing<W: World>(
    alloc: Global,
    world: &mut W,
    task: &Task<'_>,
    walk: &mut Walk,
    firing: Firing,
) -> Result<bool, AllocError>
    ghost setup: { Spec → Setup }
    requires budget { walk.old.tried < 2 ^ 32 - 1 }
    requires room { W.fired world.old < 2 ^ 64 - 1 }
    requires few { length task.now.trace.now.events ≤ most_events }
    requires trying { (spec : Spec) → W.speaks world.old spec
        → IsTrying (setup spec) spec (W.limit world.old) task.now.silent task.now.trace.now
        (W.stack world.old spec) walk.old firing }
    ensures keeps { Keeps W.speaks W.limit world.old world.new }
    ensures fired { W.fired world.new ≡ W.fired world.old + 1 }
    ensures tried { walk.new.tried ≡ walk.old.tried + 1 }
    ensures bottom { SameBottom W.speaks W.stack world.old world.new }
    ensures load { IfOk result
        (λ _. load (length task.now.trace.now.events) (view_of walk.new.path)
        < load (length task.now.trace.now.events) (view_of walk.old.path)
        + (3 * length task.now.trace.now.events + 5)) }
    ensures many { OnErr result ((spec : Spec) → W.speaks world.old spec
        → HasMany (IsTrial (setup spec)) walk.new.tried) }
    ensures ok { IfOk result (λ found. (spec : Spec) → W.speaks world.old spec
        → IsFound (setup spec) (W.stack world.new spec) found walk.new) }
{
    walk.tried += 1;
    match world.fire(alloc, &firing, &mut walk.outs)? {
        Fired::Fault(fault) => {
            walk.notes.fault(alloc, &walk.path.moves, firing, fault)?;
            Ok(false)
        }
        Fired::Limit => {
            let events = walk.path.top.matched;
            walk.notes
                .pass(alloc, &walk.path.moves, events, Some(firing))?;
            Ok(false)
        }
        Fired::Done => match land(task, walk, firing)? {
            Landed::Off => {
                world.back();
                Ok(false)
            }
            Landed::On => {
                let found = ends_at(alloc, world, task.trace, walk.path.top.matched as usize)?;
                Ok(found)
            }
        },
    }
}

// How far the run before a move is dealt with.
fn stage_before(made: Move) -> Stage
    ensures { result ≡ stage_after made }
{
    match made {
        Move::Take => Stage::Taken,
        Move::Fire(_) => Stage::Listed,
    }
}

// Goes back to the run before the last move, if there is one.
fn go_back<W: World>(world: &mut W, walk: &mut Walk) -> Result<Step, AllocError>
    ghost setup: { Spec → Setup }
    requires listed { walk.old.path.stage ≡ Stage.Listed }
    requires spent { (walk.old.path.top.left ≡ 0) ⊎ (walk.old.path.tries.items ≡ []) }
    requires on_way { (spec : Spec) → W.speaks world.old spec
        → IsWalk (setup spec) (W.stack world.old spec) walk.old }
    ensures keeps { Keeps W.speaks W.limit world.old world.new }
    ensures fired { W.fired world.new ≡ W.fired world.old }
    ensures tried { walk.new.tried ≡ walk.old.tried }
    ensures bottom { SameBottom W.speaks W.stack world.old world.new }
    ensures load { IfOk result
        (λ step. step ≡ Step.Going → (n : ℕ) → load n (view_of walk.new.path) < load n (view_of
        walk.old.path)) }
    ensures over { IfOk result (λ step. step ≡ Step.Over → ⊥) }
    ensures ok { IfOk result (λ step. (spec : Spec) → W.speaks world.old spec
        → StepIs (setup spec) (W.stack world.new spec) step walk.new) }
{
    let Some(undone) = walk.path.undo() else {
        return Ok(Step::Done);
    };
    walk.path.stage = stage_before(undone);
    world.back();
    walk.best.keep(walk.path.moves.len(), undone)?;
    Ok(Step::Going)
}

// Tries the next firing that is left, or goes back where none is.
fn try_next<W: World>(
    alloc: Global,
    world: &mut W,
    task: &Task<'_>,
    walk: &mut Walk,
) -> Result<Step, AllocError>
    ghost setup: { Spec → Setup }
    requires listed { walk.old.path.stage ≡ Stage.Listed }
    requires within { walk.old.tried ≤ task.now.budget }
    requires room { W.fired world.old + task.now.budget < 2 ^ 64 + walk.old.tried }
    requires few { length task.now.trace.now.events ≤ most_events }
    requires ready { (spec : Spec) → W.speaks world.old spec
        → IsReady (setup spec) spec (W.limit world.old) task.now.silent task.now.trace.now
        (W.stack world.old spec) walk.old }
    ensures keeps { Keeps W.speaks W.limit world.old world.new }
    ensures fired { W.fired world.new + walk.old.tried ≡ W.fired world.old + walk.new.tried }
    ensures tried { walk.old.tried ≤ walk.new.tried }
    ensures within { walk.new.tried ≤ task.now.budget }
    ensures bottom { SameBottom W.speaks W.stack world.old world.new }
    ensures work { IfOk result (λ step. step ≡ Step.Going
        → work (length task.now.trace.now.events) task.now.budget walk.new
        < work (length task.now.trace.now.events) task.now.budget walk.old) }
    ensures over { IfOk result (λ step. step ≡ Step.Over → walk.new.tried ≡ task.now.budget) }
    ensures many { OnErr result ((spec : Spec) → W.speaks world.old spec
        → HasMany (IsTrial (setup spec)) walk.new.tried) }
    ensures ok { IfOk result (λ step. (spec : Spec) → W.speaks world.old spec
        → StepIs (setup spec) (W.stack world.new spec) step walk.new) }
{
    let Some(firing) = walk.path.next_try() else {
        return go_back(world, walk);
    };
    if walk.tried >= task.budget {
        return Ok(Step::Over);
    }
    if try_firing(alloc, world, task, walk, firing)? {
        Ok(Step::Accepting)
    } else {
        Ok(Step::Going)
    }
}

/// One step of a search.
pub fn turn<W: World>(
    alloc: Global,
    world: &mut W,
    task: &Task<'_>,
    walk: &mut Walk,
) -> Result<Step, AllocError>
    ghost setup: { Spec → Setup }
    requires within { walk.old.tried ≤ task.now.budget }
    requires room { W.fired world.old + task.now.budget < 2 ^ 64 + walk.old.tried }
    requires few { length task.now.trace.now.events ≤ most_events }
    requires ready { (spec : Spec) → W.speaks world.old spec
        → IsReady (setup spec) spec (W.limit world.old) task.now.silent task.now.trace.now
        (W.stack world.old spec) walk.old }
    ensures keeps { Keeps W.speaks W.limit world.old world.new }
    ensures fired { W.fired world.new + walk.old.tried ≡ W.fired world.old + walk.new.tried }
    ensures tried { walk.old.tried ≤ walk.new.tried }
    ensures within { walk.new.tried ≤ task.now.budget }
    ensures bottom { SameBottom W.speaks W.stack world.old world.new }
    ensures work { IfOk result (λ step. step ≡ Step.Going
        → work (length task.now.trace.now.events) task.now.budget walk.new
        < work (length task.now.trace.now.events) task.now.budget walk.old) }
    ensures over { IfOk result (λ step. step ≡ Step.Over → walk.new.tried ≡ task.now.budget) }
    ensures many { OnErr result ((spec : Spec) → W.speaks world.old spec
        → HasMany (IsTrial (setup spec)) walk.new.tried) }
    ensures ok { IfOk result (λ step. (spec : Spec) → W.speaks world.old spec
        → StepIs (setup spec) (W.stack world.new spec) step walk.new) }
{
    match walk.path.stage {
        Stage::Fresh => {
            if take_next(alloc, world, task, walk)? {
                Ok(Step::Accepting)
            } else {
                Ok(Step::Going)
            }
        }
        Stage::Taken => {
            list_options(alloc, world, task, walk)?;
            Ok(Step::Going)
        }
        Stage::Listed => try_next(alloc, world, task, walk),
    }
}
