//! The steps of a walk.
ghost use Rattle.std.specs.Prelude.{◌≡◌, ℕ, ◌+◌, ◌-◌, ◌<◌, ◌≤◌, ◌*◌, ◌^◌, ◌⊎◌, Bool, false, [], length};
ghost use Rattle.std.specs.Prelude.{IfOk, OnErr, OnOk, MatchBool};
ghost use Rattle.est_syntax.specs.declared.specification.Spec.{Spec};
ghost use Rattle.est_meaning.specs.mean_blocks.TextByPlace.{text_of};
ghost use Rattle.est_meaning.specs.AllowedEvents.{IsAllowed, most_events};
ghost use Rattle.est_meaning.specs.OutsideEvents.{units_of, after_event};
ghost use Rattle.est_meaning.specs.SituationStacks.{Keeps, SameStack, pushed};
ghost use Rattle.est_meaning.specs.Run.{Setup, IsFromOutside};
ghost use Rattle.est_meaning.specs.Trials.{IsTrial, HasMany};
ghost use Rattle.run_paths.specs.Paths.{view_of};
ghost use Rattle.est_search.specs.inside.Path.{stage_after};
ghost use Rattle.est_search.specs.inside.Walk.{load};
ghost use Rattle.est_watch.specs.inside.Walk.{IsReady, IsTrying, IsLeaving, IsFoundOr};
ghost use Rattle.est_watch.specs.inside.Walk.{HasLanded, StepIs, work};

use crate::agreement::agreed;
use crate::walk::{Landed, Step, Task, Walk};
use est_meaning::answers::{Fired, Offers};
use est_meaning::event::Event;
use est_meaning::firing::Firing;
use est_meaning::run::Move;
use est_meaning::world::World;
use run_paths::path::Stage;
use run_paths::silence::silent_with;
use std::alloc::{AllocError, Global};

// Lets an event happen that comes from outside. The answer says whether it does.
fn happen<W: World>(alloc: Global, world: &mut W, event: &Event) -> Result<bool, AllocError>
    requires allowed { (spec : Spec) → W.speaks world.old spec → IsAllowed spec event.now }
    requires time { (spec : Spec) → W.speaks world.old spec → IsFromOutside event.now
        → (W.stack world.old spec).now.clock + units_of event.now ≤ 10 ^ 15 }
    ensures keeps { Keeps W.speaks W.limit world.old world.new }
    ensures fired { W.fired world.new ≡ W.fired world.old }
    ensures outside { IfOk result
        (λ outside. MatchBool outside (IsFromOutside event.now) (IsFromOutside event.now → ⊥)) }
    ensures happened { IfOk result (λ outside. (spec : Spec) → W.speaks world.old spec
        → MatchBool outside (W.stack world.new spec ≡ pushed (after_event (text_of spec)
        (W.stack world.old spec).now event.now) (W.stack world.old spec))
        (W.stack world.new spec ≡ W.stack world.old spec)) }
    ensures err { OnErr result (SameStack W.speaks W.stack world.old world.new) }
{
    match event {
        Event::Leaves(_) => Ok(false),
        Event::Arrives(_) => {
            world.arrive(alloc, event)?;
            Ok(true)
        }
        Event::Passes(units) => {
            world.pass(alloc, u64::from(*units))?;
            Ok(true)
        }
    }
}

// Takes the next event, if it comes from outside. The answer says whether it was the last one.
fn take_next<W: World>(
    alloc: Global,
    world: &mut W,
    task: &Task<'_>,
    walk: &mut Walk,
) -> Result<bool, AllocError>
    ghost setup: { Spec → Setup }
    requires fresh { walk.old.path.stage ≡ Stage.Fresh }
    requires few { length task.now.given.now ≤ most_events }
    requires ready { (spec : Spec) → W.speaks world.old spec
        → IsReady (setup spec) task.now.exact spec (W.limit world.old) task.now.silent
        task.now.given.now (W.stack world.old spec) walk.old }
    ensures keeps { Keeps W.speaks W.limit world.old world.new }
    ensures fired { W.fired world.new ≡ W.fired world.old }
    ensures tried { walk.new.tried ≡ walk.old.tried }
    ensures load { IfOk result
        (λ _. load (length task.now.given.now) (view_of walk.new.path)
        < load (length task.now.given.now) (view_of walk.old.path)) }
    ensures ok { IfOk result (λ found. (spec : Spec) → W.speaks world.old spec
        → IsFoundOr (setup spec) task.now.exact (W.stack world.new spec) found walk.new) }
{
    let matched = walk.path.top.matched;
    walk.path.stage = Stage::Taken;
    if !happen(alloc, world, &task.given[matched as usize])? {
        return Ok(false);
    }
    walk.path.enter(Move::Take, matched + 1, 0)?;
    walk.used = walk.outs.len();
    if matched as usize + 1 < task.given.len() {
        Ok(false)
    } else {
        Ok(true)
    }
}

// Lists the possible firings.
fn list_options<W: World>(
    alloc: Global,
    world: &mut W,
    task: &Task<'_>,
    walk: &mut Walk,
) -> Result<(), AllocError>
    ghost setup: { Spec → Setup }
    requires taken { walk.old.path.stage ≡ Stage.Taken }
    requires ready { (spec : Spec) → W.speaks world.old spec
        → IsReady (setup spec) task.now.exact spec (W.limit world.old) task.now.silent
        task.now.given.now (W.stack world.old spec) walk.old }
    ensures keeps { Keeps W.speaks W.limit world.old world.new }
    ensures fired { W.fired world.new ≡ W.fired world.old }
    ensures tried { walk.new.tried ≡ walk.old.tried }
    ensures load { IfOk result
        (λ _. load (length task.now.given.now) (view_of walk.new.path)
        < load (length task.now.given.now) (view_of walk.old.path)) }
    ensures ok { IfOk result (λ _. (spec : Spec) → W.speaks world.old spec
        → IsFoundOr (setup spec) task.now.exact (W.stack world.new spec) false walk.new) }
{
    match world.options(alloc, &mut walk.offers)? {
        Offers::Settled => {
            walk.path.list(Stage::Listed, &mut walk.offers)?;
            Ok(())
        }
        Offers::Unsettled => {
            walk.passed = true;
            walk.path.list(Stage::Listed, &mut walk.offers)?;
            Ok(())
        }
    }
}

// Goes on after a firing that is done, if it leads on or to a run that is sought.
fn land(task: &Task<'_>, walk: &mut Walk, firing: Firing) -> Result<Landed, AllocError>
    requires few { length task.now.given.now ≤ most_events }
    requires within { walk.old.path.top.matched ≤ length task.now.given.now }
    ensures tried { walk.new.tried ≡ walk.old.tried }
    ensures passed { walk.new.passed ≡ walk.old.passed }
    ensures load { IfOk result
        (λ _. load (length task.now.given.now) (view_of walk.new.path)
        < load (length task.now.given.now) (view_of walk.old.path)
        + (3 * length task.now.given.now + 5)) }
    ensures landed { IfOk result
        (λ landed. HasLanded task.now.exact task.now.given.now task.now.silent walk.old walk.new
        firing landed) }
{
    let Some(silent) = silent_with(walk.path.top.silent, &walk.outs, task.silent) else {
        return Ok(Landed::Off);
    };
    let matched = walk.path.top.matched as usize;
    let many = agreed(task.given, matched, &walk.outs);
    let yields = (matched + many) as u32;
    if matched + many < task.given.len() {
        if many < walk.outs.len() {
            return Ok(Landed::Off);
        }
        walk.path.enter(Move::Fire(firing), yields, silent)?;
        walk.used = many;
        return Ok(Landed::On);
    }
    if task.exact {
        if many < walk.outs.len() {
            return Ok(Landed::Off);
        }
    }
    walk.path.enter(Move::Fire(firing), yields, silent)?;
    walk.used = many;
    Ok(Landed::Found)
}

// Tries a firing. The answer says whether the run is then one that is sought.
fn try_firing<W: World>(
    alloc: Global,
    world: &mut W,
    task: &Task<'_>,
    walk: &mut Walk,
    firing: Firing,
) -> Result<bool, AllocError>
    ghost setup: { Spec → Setup }
    requires budget { walk.old.tried < 2 ^ 32 - 1 }
    requires room { W.fired world.old < 2 ^ 64 - 1 }
    requires few { length task.now.given.now ≤ most_events }
    requires trying { (spec : Spec) → W.speaks world.old spec
        → IsTrying (setup spec) task.now.exact spec (W.limit world.old) task.now.silent
        task.now.given.now (W.stack world.old spec) walk.old firing }
    ensures keeps { Keeps W.speaks W.limit world.old world.new }
    ensures fired { W.fired world.new ≡ W.fired world.old + 1 }
    ensures tried { walk.new.tried ≡ walk.old.tried + 1 }
    ensures load { IfOk result
        (λ _. load (length task.now.given.now) (view_of walk.new.path)
        < load (length task.now.given.now) (view_of walk.old.path)
        + (3 * length task.now.given.now + 5)) }
    ensures many { OnErr result ((spec : Spec) → W.speaks world.old spec
        → HasMany (IsTrial (setup spec)) walk.new.tried) }
    ensures ok { IfOk result (λ found. (spec : Spec) → W.speaks world.old spec
        → IsFoundOr (setup spec) task.now.exact (W.stack world.new spec) found walk.new) }
{
    walk.tried += 1;
    match world.fire(alloc, &firing, &mut walk.outs)? {
        Fired::Fault(_) => Ok(false),
        Fired::Limit => {
            walk.passed = true;
            Ok(false)
        }
        Fired::Done => match land(task, walk, firing)? {
            Landed::Off => {
                world.back();
                Ok(false)
            }
            Landed::On => Ok(false),
            Landed::Found => Ok(true),
        },
    }
}

// How far the run before a move is dealt with.
fn stage_before(made: Move) -> Stage
    ensures { result ≡ stage_after made }
{
    match made {
        Move::Take => Stage::Taken,
        Move::Fire(_) => Stage::Listed,
    }
}

/// Goes back to the run before the last move, if there is one.
pub fn go_back<W: World>(world: &mut W, task: &Task<'_>, walk: &mut Walk) -> Step
    ghost setup: { Spec → Setup }
    requires leaving { (spec : Spec) → W.speaks world.old spec
        → IsLeaving (setup spec) task.now.exact (W.stack world.old spec) (view_of walk.old.path)
        walk.old.tried walk.old.passed }
    ensures keeps { Keeps W.speaks W.limit world.old world.new }
    ensures fired { W.fired world.new ≡ W.fired world.old }
    ensures tried { walk.new.tried ≡ walk.old.tried }
    ensures load { (n : ℕ) → result ≡ Step.Going
        → load n (view_of walk.new.path) < 1 + 2 * length (view_of walk.old.path).lower }
    ensures over { result ≡ Step.Over → ⊥ }
    ensures found { result ≡ Step.Found → ⊥ }
    ensures ok { (spec : Spec) → W.speaks world.old spec
        → StepIs (setup spec) task.now.exact (W.stack world.new spec) result walk.new }
{
    let _exact = task.exact;
    let Some(undone) = walk.path.undo() else {
        return Step::Done;
    };
    walk.path.stage = stage_before(undone);
    world.back();
    Step::Going
}

// Tries the next firing that is left, or goes back where none is.
fn try_next<W: World>(
    alloc: Global,
    world: &mut W,
    task: &Task<'_>,
    walk: &mut Walk,
) -> Result<Step, AllocError>
    ghost setup: { Spec → Setup }
    requires listed { walk.old.path.stage ≡ Stage.Listed }
    requires within { walk.old.tried ≤ task.now.budget }
    requires room { W.fired world.old + task.now.budget < 2 ^ 64 + walk.old.tried }
    requires few { length task.now.given.now ≤ most_events }
    requires ready { (spec : Spec) → W.speaks world.old spec
        → IsReady (setup spec) task.now.exact spec (W.limit world.old) task.now.silent
        task.now.given.now (W.stack world.old spec) walk.old }
    ensures keeps { Keeps W.speaks W.limit world.old world.new }
    ensures fired { W.fired world.new + walk.old.tried ≡ W.fired world.old + walk.new.tried }
    ensures tried { walk.old.tried ≤ walk.new.tried }
    ensures within { walk.new.tried ≤ task.now.budget }
    ensures work { IfOk result (λ step. step ≡ Step.Going
        → work (length task.now.given.now) task.now.budget walk.new
        < work (length task.now.given.now) task.now.budget walk.old) }
    ensures over { IfOk result (λ step. step ≡ Step.Over → walk.new.tried ≡ task.now.budget) }
    ensures many { OnErr result ((spec : Spec) → W.speaks world.old spec
        → HasMany (IsTrial (setup spec)) walk.new.tried) }
    ensures ok { IfOk result (λ step. (spec : Spec) → W.speaks world.old spec
        → StepIs (setup spec) task.now.exact (W.stack world.new spec) step walk.new) }
{
    let Some(firing) = walk.path.next_try() else {
        return Ok(go_back(world, task, walk));
    };
    if walk.tried >= task.budget {
        return Ok(Step::Over);
    }
    if try_firing(alloc, world, task, walk, firing)? {
        Ok(Step::Found)
    } else {
        Ok(Step::Going)
    }
}

/// One step of a walk.
pub fn turn<W: World>(
    alloc: Global,
    world: &mut W,
    task: &Task<'_>,
    walk: &mut Walk,
) -> Result<Step, AllocError>
    ghost setup: { Spec → Setup }
    requires within { walk.old.tried ≤ task.now.budget }
    requires room { W.fired world.old + task.now.budget < 2 ^ 64 + walk.old.tried }
    requires few { length task.now.given.now ≤ most_events }
    requires ready { (spec : Spec) → W.speaks world.old spec
        → IsReady (setup spec) task.now.exact spec (W.limit world.old) task.now.silent
        task.now.given.now (W.stack world.old spec) walk.old }
    ensures keeps { Keeps W.speaks W.limit world.old world.new }
    ensures fired { W.fired world.new + walk.old.tried ≡ W.fired world.old + walk.new.tried }
    ensures tried { walk.old.tried ≤ walk.new.tried }
    ensures within { walk.new.tried ≤ task.now.budget }
    ensures work { IfOk result (λ step. step ≡ Step.Going
        → work (length task.now.given.now) task.now.budget walk.new
        < work (length task.now.given.now) task.now.budget walk.old) }
    ensures over { IfOk result (λ step. step ≡ Step.Over → walk.new.tried ≡ task.now.budget) }
    ensures many { OnErr result ((spec : Spec) → W.speaks world.old spec
        → HasMany (IsTrial (setup spec)) walk.new.tried) }
    ensures ok { IfOk result (λ step. (spec : Spec) → W.speaks world.old spec
        → StepIs (setup spec) task.now.exact (W.stack world.new spec) step walk.new) }
{
    match walk.path.stage {
        Stage::Fresh => {
            if take_next(alloc, world, task, walk)? {
                Ok(Step::Found)
            } else {
                Ok(Step::Going)
            }
        }
        Stage::Taken => {
            list_options(alloc, world, task, walk)?;
            Ok(Step::Going)
        }
        Stage::Listed => try_next(alloc, world, task, walk),
    }
}
