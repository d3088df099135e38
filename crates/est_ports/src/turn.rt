//! The steps of a walk along the lists of ports.
ghost use Rattle.std.specs.Prelude.{◌≡◌, ◌+◌, ◌-◌, ◌<◌, ◌≤◌, ◌^◌, ◌⊎◌, List, [], length, map};
ghost use Rattle.std.specs.Prelude.{IfOk, OnErr, OnOk};
ghost use Rattle.est_syntax.specs.declared.specification.Spec.{Spec};
ghost use Rattle.est_meaning.specs.Run.{Setup};
ghost use Rattle.est_meaning.specs.SituationStacks.{Keeps};
ghost use Rattle.mean_ports.specs.declared.moves.PortMove.{PortMove};
ghost use Rattle.mean_ports.specs.HowMany.{HasMany};
ghost use Rattle.mean_ports.specs.PortTrials.{IsFiringTrial};
ghost use Rattle.run_paths.specs.Bottoms.{SameBottom};
ghost use Rattle.run_paths.specs.Paths.{view_of};
ghost use Rattle.est_ports.specs.inside.Walk.{AddsArrivals, AddsTakes, IsReady, IsTrying, IsFired};
ghost use Rattle.est_ports.specs.inside.Walk.{IsDeparting, HasListed, HasGoneOn};
ghost use Rattle.est_ports.specs.inside.Walk.{StepIs, load, work};

use crate::left::Rest;
use crate::walk::{Step, Task, Walk};
use est_meaning::answers::{Fired, Offers};
use est_meaning::event::Event;
use est_meaning::firing::Firing;
use est_meaning::world::World;
use mean_ports::lists::PortLists;
use mean_ports::moves::PortMove;
use run_paths::path::Stage;
use run_paths::silence::silent_with;
use std::alloc::{AllocError, Global};

// Adds the move that takes the arrival that is next at a port, if there is one.
fn add_arrival(
    rest: &Rest,
    lists: &PortLists,
    port: usize,
    into: &mut Vec<PortMove>,
) -> Result<(), AllocError>
    ensures { OnOk result ((old : List PortMove)
        → AddsArrivals lists.now rest.now port old into.old.items
        → AddsArrivals lists.now rest.now (port + 1) old into.new.items) }
{
    if let Some(_event) = rest.arrival(lists, port) {
        into.push(PortMove::TakeAt(port as u32))?;
    }
    Ok(())
}

// Adds the moves that take the arrivals that are next at their ports.
fn add_arrivals(rest: &Rest, lists: &PortLists, into: &mut Vec<PortMove>) -> Result<(), AllocError>
    ensures { OnOk result (AddsArrivals lists.now rest.now (length rest.now.cursors.items)
        into.old.items into.new.items) }
{
    for port in 0..rest.cursors.len() {
        add_arrival(rest, lists, port, into)?;
    }
    Ok(())
}

// Adds the moves that take what may come next from outside.
fn add_takes(rest: &Rest, lists: &PortLists, into: &mut Vec<PortMove>) -> Result<(), AllocError>
    ensures { OnOk result (AddsTakes lists.now rest.now into.old.items into.new.items) }
{
    add_arrivals(rest, lists, into)?;
    if let Some(_units) = rest.passing(lists) {
        into.push(PortMove::Pass)?;
    }
    Ok(())
}

// The moves that fire these.
fn firings(offers: &[Firing], into: &mut Vec<PortMove>) -> Result<(), AllocError>
    ensures { OnOk result (into.new.items ≡ map PortMove.Fire offers.now) }
{
    into.clear();
    for firing in offers {
        into.push(PortMove::Fire(*firing))?;
    }
    Ok(())
}

// Lists the firings that are offered, and after them what may come next from outside.
fn list_all(task: &Task<'_>, walk: &mut Walk) -> Result<(), AllocError>
    ensures tried { walk.new.tried ≡ walk.old.tried }
    ensures fires { walk.new.fired ≡ walk.old.fired }
    ensures listed { OnOk result (HasListed task.now.lists.now walk.old walk.new) }
{
    firings(&walk.offers, &mut walk.tries)?;
    add_takes(&walk.rest, task.lists, &mut walk.tries)?;
    walk.path.list(Stage::Listed, &mut walk.tries)
}

// Lists the moves that are defined. That a guard passes its limit is noted, and no firing is listed
// then.
fn list_moves<W: World>(
    alloc: Global,
    world: &mut W,
    task: &Task<'_>,
    walk: &mut Walk,
) -> Result<(), AllocError>
    ghost setup: { Spec → Setup }
    requires fresh { walk.old.path.stage ≡ Stage.Fresh }
    requires ready { (spec : Spec) → W.speaks world.old spec
        → IsReady (setup spec) spec (W.limit world.old) task.now.silent task.now.lists.now
        (W.stack world.old spec) walk.old }
    ensures keeps { Keeps W.speaks W.limit world.old world.new }
    ensures fired { W.fired world.new ≡ W.fired world.old }
    ensures tried { walk.new.tried ≡ walk.old.tried }
    ensures fires { walk.new.fired ≡ walk.old.fired }
    ensures bottom { SameBottom W.speaks W.stack world.old world.new }
    ensures load { OnOk result (load (view_of walk.new.path) < load (view_of walk.old.path)) }
    ensures ok { OnOk result ((spec : Spec) → W.speaks world.old spec
        → StepIs (setup spec) task.now.lists.now (W.stack world.new spec) Step.Going walk.new) }
{
    match world.options(alloc, &mut walk.offers)? {
        Offers::Settled => list_all(task, walk),
        Offers::Unsettled => {
            walk.note(alloc, None)?;
            list_all(task, walk)
        }
    }
}

// Goes back to the run before the last move, if there is one.
fn go_back<W: World>(world: &mut W, task: &Task<'_>, walk: &mut Walk) -> Result<Step, AllocError>
    ghost setup: { Spec → Setup }
    requires listed { walk.old.path.stage ≡ Stage.Listed }
    requires spent { (walk.old.path.top.left ≡ 0) ⊎ (walk.old.path.tries.items ≡ []) }
    requires ready { (spec : Spec) → W.speaks world.old spec
        → IsReady (setup spec) spec (W.limit world.old) task.now.silent task.now.lists.now
        (W.stack world.old spec) walk.old }
    ensures keeps { Keeps W.speaks W.limit world.old world.new }
    ensures fired { W.fired world.new ≡ W.fired world.old }
    ensures tried { walk.new.tried ≡ walk.old.tried }
    ensures fires { walk.new.fired ≡ walk.old.fired }
    ensures bottom { SameBottom W.speaks W.stack world.old world.new }
    ensures load { IfOk result (λ step. step ≡ Step.Going
        → load (view_of walk.new.path) < load (view_of walk.old.path)) }
    ensures over { IfOk result (λ step. step ≡ Step.Over → ⊥) }
    ensures ok { IfOk result (λ step. (spec : Spec) → W.speaks world.old spec
        → StepIs (setup spec) task.now.lists.now (W.stack world.new spec) step walk.new) }
{
    let Some(undone) = walk.path.undo() else {
        return Ok(Step::Done);
    };
    world.back();
    walk.best.keep(walk.path.moves.len(), undone)?;
    let height = walk.path.top.matched as usize;
    walk.rest.back_to(task.lists, height, &mut walk.best_used)?;
    Ok(Step::Going)
}

// Goes on after a move, with so many events, all of them used up.
fn go_on(
    task: &Task<'_>,
    walk: &mut Walk,
    made: PortMove,
    matched: u32,
    silent: u32,
) -> Result<Step, AllocError>
    ensures tried { walk.new.tried ≡ walk.old.tried }
    ensures fires { walk.new.fired ≡ walk.old.fired }
    ensures load { OnOk result (load (view_of walk.new.path) < load (view_of walk.old.path) + 3) }
    ensures over { IfOk result (λ step. step ≡ Step.Over → ⊥) }
    ensures gone { IfOk result
        (λ step. HasGoneOn task.now.lists.now walk.old walk.new made matched silent step) }
{
    walk.reach(made, matched)?;
    walk.path.enter(made, matched, silent)?;
    let done = walk.rest.is_all_used(task.lists);
    if done {
        Ok(Step::Accepting)
    } else {
        Ok(Step::Going)
    }
}

// Tries to take the next event of a port.
fn try_take<W: World>(
    alloc: Global,
    world: &mut W,
    task: &Task<'_>,
    walk: &mut Walk,
    port: u32,
) -> Result<Step, AllocError>
    ghost setup: { Spec → Setup }
    requires trying { (spec : Spec) → W.speaks world.old spec
        → IsTrying (setup spec) spec (W.limit world.old) task.now.silent task.now.lists.now
        (W.stack world.old spec) walk.old (PortMove.TakeAt port) }
    ensures keeps { Keeps W.speaks W.limit world.old world.new }
    ensures fired { W.fired world.new ≡ W.fired world.old }
    ensures tried { walk.new.tried ≡ walk.old.tried }
    ensures fires { walk.new.fired ≡ walk.old.fired }
    ensures bottom { SameBottom W.speaks W.stack world.old world.new }
    ensures load { OnOk result (load (view_of walk.new.path) < load (view_of walk.old.path) + 3) }
    ensures over { IfOk result (λ step. step ≡ Step.Over → ⊥) }
    ensures ok { IfOk result (λ step. (spec : Spec) → W.speaks world.old spec
        → StepIs (setup spec) task.now.lists.now (W.stack world.new spec) step walk.new) }
{
    let Some(event) = walk.rest.arrival(task.lists, port as usize) else {
        return Ok(Step::Going);
    };
    world.arrive(alloc, event)?;
    walk.rest.take(task.lists, port)?;
    let matched = walk.path.top.matched + 1;
    go_on(task, walk, PortMove::TakeAt(port), matched, 0)
}

// Tries to let the time pass that ends the phase.
fn try_pass<W: World>(
    alloc: Global,
    world: &mut W,
    task: &Task<'_>,
    walk: &mut Walk,
) -> Result<Step, AllocError>
    ghost setup: { Spec → Setup }
    requires trying { (spec : Spec) → W.speaks world.old spec
        → IsTrying (setup spec) spec (W.limit world.old) task.now.silent task.now.lists.now
        (W.stack world.old spec) walk.old PortMove.Pass }
    ensures keeps { Keeps W.speaks W.limit world.old world.new }
    ensures fired { W.fired world.new ≡ W.fired world.old }
    ensures tried { walk.new.tried ≡ walk.old.tried }
    ensures fires { walk.new.fired ≡ walk.old.fired }
    ensures bottom { SameBottom W.speaks W.stack world.old world.new }
    ensures load { OnOk result (load (view_of walk.new.path) < load (view_of walk.old.path) + 3) }
    ensures over { IfOk result (λ step. step ≡ Step.Over → ⊥) }
    ensures ok { IfOk result (λ step. (spec : Spec) → W.speaks world.old spec
        → StepIs (setup spec) task.now.lists.now (W.stack world.new spec) step walk.new) }
{
    let Some(units) = walk.rest.passing(task.lists) else {
        return Ok(Step::Going);
    };
    world.pass(alloc, u64::from(units))?;
    walk.rest.pass(task.lists)?;
    let matched = walk.path.top.matched + 1;
    go_on(task, walk, PortMove::Pass, matched, 0)
}

// Goes back after a firing that is done, of whose events some are not the next ones of their ports.
fn depart<W: World>(
    world: &mut W,
    task: &Task<'_>,
    walk: &mut Walk,
    firing: Firing,
    matched: u32,
) -> Result<Step, AllocError>
    ghost setup: { Spec → Setup }
    requires departing { (spec : Spec) → W.speaks world.old spec
        → IsDeparting (setup spec) spec (W.limit world.old) task.now.silent task.now.lists.now
        (W.stack world.old spec) walk.old firing matched }
    ensures keeps { Keeps W.speaks W.limit world.old world.new }
    ensures fired { W.fired world.new ≡ W.fired world.old }
    ensures tried { walk.new.tried ≡ walk.old.tried }
    ensures fires { walk.new.fired ≡ walk.old.fired }
    ensures bottom { SameBottom W.speaks W.stack world.old world.new }
    ensures path { OnOk result (view_of walk.new.path ≡ view_of walk.old.path) }
    ensures over { IfOk result (λ step. step ≡ Step.Over → ⊥) }
    ensures ok { IfOk result (λ step. (spec : Spec) → W.speaks world.old spec
        → StepIs (setup spec) task.now.lists.now (W.stack world.new spec) step walk.new) }
{
    walk.reach(PortMove::Fire(firing), matched)?;
    let height = walk.path.top.matched as usize;
    walk.rest.back_to(task.lists, height, &mut walk.best_used)?;
    world.back();
    Ok(Step::Going)
}

// Goes on after a firing that is done, if it leads on.
fn land<W: World>(
    world: &mut W,
    task: &Task<'_>,
    walk: &mut Walk,
    firing: Firing,
) -> Result<Step, AllocError>
    ghost setup: { Spec → Setup }
    requires fired { (spec : Spec) → W.speaks world.old spec
        → IsFired (setup spec) spec (W.limit world.old) task.now.silent task.now.lists.now
        (W.stack world.old spec) walk.old firing }
    ensures keeps { Keeps W.speaks W.limit world.old world.new }
    ensures fired { W.fired world.new ≡ W.fired world.old }
    ensures tried { walk.new.tried ≡ walk.old.tried }
    ensures fires { walk.new.fired ≡ walk.old.fired }
    ensures bottom { SameBottom W.speaks W.stack world.old world.new }
    ensures load { OnOk result (load (view_of walk.new.path) < load (view_of walk.old.path) + 3) }
    ensures over { IfOk result (λ step. step ≡ Step.Over → ⊥) }
    ensures ok { IfOk result (λ step. (spec : Spec) → W.speaks world.old spec
        → StepIs (setup spec) task.now.lists.now (W.stack world.new spec) step walk.new) }
{
    let Some(silent) = silent_with(walk.path.top.silent, &walk.outs, task.silent) else {
        world.back();
        return Ok(Step::Going);
    };
    let many = walk.rest.use_up(task.lists, &walk.outs)?;
    let matched = (walk.path.top.matched as usize + many) as u32;
    if many < walk.outs.len() {
        return depart(world, task, walk, firing, matched);
    }
    go_on(task, walk, PortMove::Fire(firing), matched, silent)
}

// Tries a firing.
fn try_firing<W: World>(
    alloc: Global,
    world: &mut W,
    task: &Task<'_>,
    walk: &mut Walk,
    firing: Firing,
) -> Result<Step, AllocError>
    ghost setup: { Spec → Setup }
    requires budget { walk.old.fired < 2 ^ 32 - 1 }
    requires room { W.fired world.old < 2 ^ 64 - 1 }
    requires trying { (spec : Spec) → W.speaks world.old spec
        → IsTrying (setup spec) spec (W.limit world.old) task.now.silent task.now.lists.now
        (W.stack world.old spec) walk.old (PortMove.Fire firing) }
    ensures keeps { Keeps W.speaks W.limit world.old world.new }
    ensures fired { W.fired world.new ≡ W.fired world.old + 1 }
    ensures tried { walk.new.tried ≡ walk.old.tried }
    ensures fires { walk.new.fired ≡ walk.old.fired + 1 }
    ensures bottom { SameBottom W.speaks W.stack world.old world.new }
    ensures load { OnOk result (load (view_of walk.new.path) < load (view_of walk.old.path) + 3) }
    ensures over { IfOk result (λ step. step ≡ Step.Over → ⊥) }
    ensures many { OnErr result ((spec : Spec) → W.speaks world.old spec
        → HasMany (IsFiringTrial (setup spec) task.now.lists.now) walk.new.fired) }
    ensures ok { IfOk result (λ step. (spec : Spec) → W.speaks world.old spec
        → StepIs (setup spec) task.now.lists.now (W.stack world.new spec) step walk.new) }
{
    walk.fired += 1;
    match world.fire(alloc, &firing, &mut walk.outs)? {
        Fired::Fault(_) => Ok(Step::Going),
        Fired::Limit => {
            walk.note(alloc, Some(firing))?;
            Ok(Step::Going)
        }
        Fired::Done => land(world, task, walk, firing),
    }
}

// Tries a move.
fn try_move<W: World>(
    alloc: Global,
    world: &mut W,
    task: &Task<'_>,
    walk: &mut Walk,
    next: PortMove,
) -> Result<Step, AllocError>
    ghost setup: { Spec → Setup }
    requires budget { walk.old.fired < 2 ^ 32 - 1 }
    requires room { W.fired world.old < 2 ^ 64 - 1 }
    requires trying { (spec : Spec) → W.speaks world.old spec
        → IsTrying (setup spec) spec (W.limit world.old) task.now.silent task.now.lists.now
        (W.stack world.old spec) walk.old next }
    ensures keeps { Keeps W.speaks W.limit world.old world.new }
    ensures fired { W.fired world.new + walk.old.fired ≡ W.fired world.old + walk.new.fired }
    ensures tried { walk.new.tried ≡ walk.old.tried }
    ensures grows { walk.old.fired ≤ walk.new.fired }
    ensures few { walk.new.fired ≤ walk.old.fired + 1 }
    ensures bottom { SameBottom W.speaks W.stack world.old world.new }
    ensures load { OnOk result (load (view_of walk.new.path) < load (view_of walk.old.path) + 3) }
    ensures over { IfOk result (λ step. step ≡ Step.Over → ⊥) }
    ensures many { OnErr result ((spec : Spec) → W.speaks world.old spec
        → HasMany (IsFiringTrial (setup spec) task.now.lists.now) walk.new.fired) }
    ensures ok { IfOk result (λ step. (spec : Spec) → W.speaks world.old spec
        → StepIs (setup spec) task.now.lists.now (W.stack world.new spec) step walk.new) }
{
    match next {
        PortMove::TakeAt(port) => try_take(alloc, world, task, walk, port),
        PortMove::Pass => try_pass(alloc, world, task, walk),
        PortMove::Fire(firing) => try_firing(alloc, world, task, walk, firing),
    }
}

// Tries the next move that is left, or goes back where none is.
fn try_next<W: World>(
    alloc: Global,
    world: &mut W,
    task: &Task<'_>,
    walk: &mut Walk,
) -> Result<Step, AllocError>
    ghost setup: { Spec → Setup }
    requires listed { walk.old.path.stage ≡ Stage.Listed }
    requires within { walk.old.tried ≤ task.now.budget }
    requires fewer { walk.old.fired ≤ walk.old.tried }
    requires room { W.fired world.old + task.now.budget < 2 ^ 64 + walk.old.fired }
    requires ready { (spec : Spec) → W.speaks world.old spec
        → IsReady (setup spec) spec (W.limit world.old) task.now.silent task.now.lists.now
        (W.stack world.old spec) walk.old }
    ensures keeps { Keeps W.speaks W.limit world.old world.new }
    ensures fired { W.fired world.new + walk.old.fired ≡ W.fired world.old + walk.new.fired }
    ensures grows { walk.old.fired ≤ walk.new.fired }
    ensures within { walk.new.tried ≤ task.now.budget }
    ensures fewer { walk.new.fired ≤ walk.new.tried }
    ensures bottom { SameBottom W.speaks W.stack world.old world.new }
    ensures work { IfOk result (λ step. step ≡ Step.Going
        → work task.now.budget walk.new < work task.now.budget walk.old) }
    ensures over { IfOk result (λ step. step ≡ Step.Over → walk.new.tried ≡ task.now.budget) }
    ensures many { OnErr result ((spec : Spec) → W.speaks world.old spec
        → HasMany (IsFiringTrial (setup spec) task.now.lists.now) walk.new.fired) }
    ensures ok { IfOk result (λ step. (spec : Spec) → W.speaks world.old spec
        → StepIs (setup spec) task.now.lists.now (W.stack world.new spec) step walk.new) }
{
    let Some(next) = walk.path.next_try() else {
        return go_back(world, task, walk);
    };
    if walk.tried >= task.budget {
        return Ok(Step::Over);
    }
    walk.tried += 1;
    try_move(alloc, world, task, walk, next)
}

/// One step of a walk.
pub fn turn<W: World>(
    alloc: Global,
    world: &mut W,
    task: &Task<'_>,
    walk: &mut Walk,
) -> Result<Step, AllocError>
    ghost setup: { Spec → Setup }
    requires within { walk.old.tried ≤ task.now.budget }
    requires fewer { walk.old.fired ≤ walk.old.tried }
    requires room { W.fired world.old + task.now.budget < 2 ^ 64 + walk.old.fired }
    requires ready { (spec : Spec) → W.speaks world.old spec
        → IsReady (setup spec) spec (W.limit world.old) task.now.silent task.now.lists.now
        (W.stack world.old spec) walk.old }
    ensures keeps { Keeps W.speaks W.limit world.old world.new }
    ensures fired { W.fired world.new + walk.old.fired ≡ W.fired world.old + walk.new.fired }
    ensures grows { walk.old.fired ≤ walk.new.fired }
    ensures within { walk.new.tried ≤ task.now.budget }
    ensures fewer { walk.new.fired ≤ walk.new.tried }
    ensures bottom { SameBottom W.speaks W.stack world.old world.new }
    ensures work { IfOk result (λ step. step ≡ Step.Going
        → work task.now.budget walk.new < work task.now.budget walk.old) }
    ensures over { IfOk result (λ step. step ≡ Step.Over → walk.new.tried ≡ task.now.budget) }
    ensures many { OnErr result ((spec : Spec) → W.speaks world.old spec
        → HasMany (IsFiringTrial (setup spec) task.now.lists.now) walk.new.fired) }
    ensures ok { IfOk result (λ step. (spec : Spec) → W.speaks world.old spec
        → StepIs (setup spec) task.now.lists.now (W.stack world.new spec) step walk.new) }
{
    match walk.path.stage {
        Stage::Fresh => {
            list_moves(alloc, world, task, walk)?;
            Ok(Step::Going)
        }
        Stage::Taken => unreachable!(),
        Stage::Listed => try_next(alloc, world, task, walk),
    }
}
