//! The search for a run that explains some merge of the traces of its ports.
ghost use Rattle.std.specs.Prelude.{◌≡◌, ◌+◌, ◌-◌, ◌≤◌, ◌<◌, ◌^◌, [], map, IfOk};
ghost use Rattle.est_syntax.specs.declared.specification.Spec.{Spec};
ghost use Rattle.est_meaning.specs.mean_blocks.Outcome.{Done};
ghost use Rattle.est_meaning.specs.mean_blocks.TextByPlace.{text_of};
ghost use Rattle.est_meaning.specs.FiringSteps.{start_of};
ghost use Rattle.est_meaning.specs.RecordedTraces.{known_trace};
ghost use Rattle.est_meaning.specs.Run.{Setup};
ghost use Rattle.est_meaning.specs.SituationStacks.{Keeps, SameStack};
ghost use Rattle.est_meaning.specs.Task.{setup_of};
ghost use Rattle.mean_ports.specs.HowMany.{HasMany};
ghost use Rattle.mean_ports.specs.Merges.{AreAllowedLists};
ghost use Rattle.mean_ports.specs.PortRunLaws.{plain_move};
ghost use Rattle.mean_ports.specs.PortTrials.{IsFiringTrial};
ghost use Rattle.mean_ports.specs.PortsVerdict.{IsPortsVerdict};
ghost use Rattle.run_paths.specs.Bottoms.{SameBottom};
ghost use Rattle.est_ports.specs.inside.Walk.{IsReady, StepIs, Concludes, IsAnswered, Answers};
ghost use Rattle.est_ports.specs.inside.Walk.{IsStarting, IsBeginning};

use crate::left::{Rest, kept_list};
use crate::merges::merge_of;
use crate::turn::turn;
use crate::walk::{Step, Task, Walk};
use est_meaning::event::Event;
use est_meaning::run::{Limits, Move};
use est_meaning::world::World;
use est_syntax::est_items::Items;
use mean_ports::lists::PortLists;
use mean_ports::moves::PortMove;
use mean_ports::verdict::PortsVerdict;
use run_paths::path::reversed;
use run_paths::rewinding::rewind;
use std::alloc::{AllocError, Global};

// Goes on until there is an answer.
fn walk_all<W: World>(
    alloc: Global,
    world: &mut W,
    task: &Task<'_>,
    walk: &mut Walk,
) -> Result<Step, AllocError>
    ghost setup: { Spec → Setup }
    requires within { walk.old.tried ≤ task.now.budget }
    requires fewer { walk.old.fired ≤ walk.old.tried }
    requires room { W.fired world.old + task.now.budget < 2 ^ 64 + walk.old.fired }
    requires ready { (spec : Spec) → W.speaks world.old spec
        → IsReady (setup spec) spec (W.limit world.old) task.now.silent task.now.lists.now
        (W.stack world.old spec) walk.old }
    ensures keeps { Keeps W.speaks W.limit world.old world.new }
    ensures fired { W.fired world.new + walk.old.fired ≡ W.fired world.old + walk.new.fired }
    ensures grows { walk.old.fired ≤ walk.new.fired }
    ensures within { walk.new.tried ≤ task.now.budget }
    ensures fewer { walk.new.fired ≤ walk.new.tried }
    ensures bottom { SameBottom W.speaks W.stack world.old world.new }
    ensures going { IfOk result (λ step. step ≡ Step.Going → ⊥) }
    ensures over { IfOk result (λ step. step ≡ Step.Over → walk.new.tried ≡ task.now.budget) }
    ensures many { (spec : Spec) → W.speaks world.old spec
        → HasMany (IsFiringTrial (setup spec) task.now.lists.now) walk.new.fired }
    ensures ok { IfOk result (λ step. (spec : Spec) → W.speaks world.old spec
        → StepIs (setup spec) task.now.lists.now (W.stack world.new spec) step walk.new) }
{
    'walk: loop {
        let step = turn(alloc, world, task, walk)?;
        if step != Step::Going {
            return Ok(step);
        }
    }
}

// The move of a run that a move along the lists is.
fn plain_of(made: PortMove) -> Move
    ensures { result ≡ plain_move made }
{
    match made {
        PortMove::TakeAt(_) => Move::Take,
        PortMove::Pass => Move::Take,
        PortMove::Fire(firing) => Move::Fire(firing),
    }
}

// The moves of a run that these along the lists are.
fn plain(alloc: Global, moves: &[PortMove]) -> Result<Vec<Move>, AllocError>
    ensures { IfOk result (λ list. list.items ≡ map plain_move moves.now) }
{
    let mut list = Vec::new(alloc);
    for made in moves {
        list.push(plain_of(*made))?;
    }
    Ok(list)
}

// The answer where nothing is left to be tried.
fn conclude(alloc: Global, lists: &PortLists, walk: &Walk) -> Result<PortsVerdict, AllocError>
    ensures { IfOk result (λ verdict. Concludes lists.now walk.now verdict) }
{
    match &walk.passed {
        Some(passed) => {
            let run = Items {
                items: plain(alloc, passed.run.as_slice())?,
            };
            Ok(PortsVerdict::OverAction {
                merge: merge_of(alloc, lists, passed.used.as_slice())?,
                run,
                events: passed.events,
                firing: passed.firing,
            })
        }
        None => refuse(alloc, lists, walk),
    }
}

// The answer where no limit is passed either.
fn refuse(alloc: Global, lists: &PortLists, walk: &Walk) -> Result<PortsVerdict, AllocError>
    requires { walk.now.passed ≡ None }
    ensures { IfOk result (λ verdict. Concludes lists.now walk.now verdict) }
{
    let used = kept_list(alloc, &walk.rest.used, &walk.best_used)?;
    let merge = merge_of(alloc, lists, &used)?;
    let mut moves = plain(alloc, &walk.best.tail)?;
    Ok(PortsVerdict::Refused {
        most: walk.best.yields,
        merge,
        run: reversed(alloc, &mut moves)?,
    })
}

// The answer where a run uses the lists up.
fn accept(alloc: Global, lists: &PortLists, walk: &Walk) -> Result<PortsVerdict, AllocError>
    ensures { IfOk result (λ verdict. IsAnswered lists.now walk.now verdict) }
{
    let run = Items {
        items: plain(alloc, &walk.path.moves)?,
    };
    Ok(PortsVerdict::Accepted {
        merge: merge_of(alloc, lists, &walk.rest.used)?,
        run,
    })
}

// The answer where the walk ends so.
fn answer(
    alloc: Global,
    task: &Task<'_>,
    walk: &Walk,
    step: Step,
) -> Result<PortsVerdict, AllocError>
    requires { step ≡ Step.Going → ⊥ }
    ensures { IfOk result
        (λ verdict. Answers task.now.lists.now walk.now task.now.budget step verdict) }
{
    match step {
        Step::Accepting => accept(alloc, task.lists, walk),
        Step::Over => Ok(PortsVerdict::OverTries { tried: task.budget }),
        Step::Going => unreachable!(),
        Step::Done => conclude(alloc, task.lists, walk),
    }
}

// Walks on from a start that has so many events and does not use the lists up.
fn walk_on<W: World>(
    alloc: Global,
    world: &mut W,
    task: &Task<'_>,
    rest: Rest,
    matched: u32,
) -> Result<PortsVerdict, AllocError>
    ghost setup: { Spec → Setup }
    requires room { W.fired world.old ≤ 2 ^ 63 }
    requires beginning { (spec : Spec) → W.speaks world.old spec
        → IsBeginning (setup spec) spec (W.limit world.old) task.now.silent task.now.lists.now
        (W.stack world.old spec) rest matched }
    ensures keeps { Keeps W.speaks W.limit world.old world.new }
    ensures stack { SameStack W.speaks W.stack world.old world.new }
    ensures grows { W.fired world.old ≤ W.fired world.new }
    ensures budget { W.fired world.new ≤ W.fired world.old + task.now.budget }
    ensures size { (spec : Spec) → W.speaks world.old spec
        → HasMany (IsFiringTrial (setup spec) task.now.lists.now)
        (W.fired world.new - W.fired world.old) }
    ensures verdict { IfOk result (λ verdict. (spec : Spec) → W.speaks world.old spec
        → IsPortsVerdict (setup spec) task.now.lists.now task.now.budget verdict) }
{
    let _budget = task.budget;
    let mut walk = Walk::new(alloc, rest, matched);
    let step = walk_all(alloc, world, task, &mut walk);
    rewind(world);
    match step {
        Ok(step) => {
            let verdict = answer(alloc, task, &walk, step);
            drop(walk);
            verdict
        }
        Err(error) => {
            drop(walk);
            Err(error)
        }
    }
}

// Searches from the start on, which has these events.
fn search<W: World>(
    alloc: Global,
    world: &mut W,
    start_outs: &[Event],
    task: &Task<'_>,
) -> Result<PortsVerdict, AllocError>
    ghost setup: { Spec → Setup }
    requires room { W.fired world.old ≤ 2 ^ 63 }
    requires start { (spec : Spec) → W.speaks world.old spec
        → IsStarting (setup spec) spec (W.limit world.old) task.now.silent task.now.lists.now
        (W.stack world.old spec) start_outs.now }
    ensures keeps { Keeps W.speaks W.limit world.old world.new }
    ensures stack { SameStack W.speaks W.stack world.old world.new }
    ensures grows { W.fired world.old ≤ W.fired world.new }
    ensures budget { W.fired world.new ≤ W.fired world.old + task.now.budget }
    ensures size { (spec : Spec) → W.speaks world.old spec
        → HasMany (IsFiringTrial (setup spec) task.now.lists.now)
        (W.fired world.new - W.fired world.old) }
    ensures verdict { IfOk result (λ verdict. (spec : Spec) → W.speaks world.old spec
        → IsPortsVerdict (setup spec) task.now.lists.now task.now.budget verdict) }
{
    let mut rest = Rest::new(alloc, task.lists)?;
    let matched = rest.use_up(task.lists, start_outs)?;
    if matched < start_outs.len() {
        return Ok(PortsVerdict::Refused {
            most: matched as u32,
            merge: merge_of(alloc, task.lists, &rest.used)?,
            run: Items::new(alloc),
        });
    }
    if rest.is_all_used(task.lists) {
        return Ok(PortsVerdict::Accepted {
            merge: merge_of(alloc, task.lists, &rest.used)?,
            run: Items::new(alloc),
        });
    }
    walk_on(alloc, world, task, rest, matched as u32)
}

/// Searches the runs of a specification for one that explains some merge of the traces of its
/// ports. The world stands at the start of each specification of which it speaks, and is left so.
/// The trace of the setup plays no part.
pub fn explain_ports<W: World>(
    alloc: Global,
    world: &mut W,
    start_outs: &[Event],
    lists: &PortLists,
    limits: &Limits,
) -> Result<PortsVerdict, AllocError>
    requires start { (spec : Spec) → W.speaks world.old spec
        → start_of limits.now.statements (text_of spec)
        ≡ Done start_outs.now (W.stack world.old spec).now }
    requires bottom { (spec : Spec) → W.speaks world.old spec
        → (W.stack world.old spec).below ≡ [] }
    requires limit { W.limit world.old ≡ limits.now.statements }
    requires room { W.fired world.old ≤ 2 ^ 63 }
    requires allowed { (spec : Spec) → W.speaks world.old spec → AreAllowedLists spec lists.now }
    ensures keeps { Keeps W.speaks W.limit world.old world.new }
    ensures stack { SameStack W.speaks W.stack world.old world.new }
    ensures grows { W.fired world.old ≤ W.fired world.new }
    ensures budget { W.fired world.new ≤ W.fired world.old + limits.now.budget }
    ensures size { (spec : Spec) → W.speaks world.old spec
        → HasMany (IsFiringTrial (setup_of limits.now.statements limits.now.silent (known_trace [])
        (W.stack world.old spec) start_outs.now spec) lists.now)
        (W.fired world.new - W.fired world.old) }
    ensures verdict { IfOk result (λ verdict. (spec : Spec) → W.speaks world.old spec
        → IsPortsVerdict (setup_of limits.now.statements limits.now.silent (known_trace [])
        (W.stack world.old spec) start_outs.now spec) lists.now limits.now.budget verdict) }
{
    let task = Task {
        lists,
        silent: limits.silent,
        budget: limits.budget,
    };
    search(alloc, world, start_outs, &task)
}
