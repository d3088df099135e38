//! The search for a run that explains a trace.
ghost use Rattle.std.specs.Prelude.{◌≡◌, ℕ, ◌+◌, ◌-◌, ◌<◌, ◌≤◌, ◌^◌, [], length, IfOk};
ghost use Rattle.est_syntax.specs.declared.specification.Spec.{Spec};
ghost use Rattle.est_meaning.specs.mean_blocks.Outcome.{Done};
ghost use Rattle.est_meaning.specs.mean_blocks.TextByPlace.{text_of};
ghost use Rattle.est_meaning.specs.AllowedEvents.{IsAllowedTrace, most_events};
ghost use Rattle.est_meaning.specs.FiringSteps.{start_of};
ghost use Rattle.est_meaning.specs.SituationStacks.{Keeps, SameStack};
ghost use Rattle.est_meaning.specs.Run.{Setup};
ghost use Rattle.est_meaning.specs.Task.{setup_of};
ghost use Rattle.est_meaning.specs.Trials.{IsTrial, HasMany};
ghost use Rattle.est_search.specs.Verdict.{IsVerdict, IsWithinTried};
ghost use Rattle.run_paths.specs.Bottoms.{SameBottom};
ghost use Rattle.est_search.specs.inside.Walk.{IsReady, StepIs};
ghost use Rattle.est_search.specs.inside.Walk.{Concludes, Answers, IsStarting, IsBeginning};

use crate::agreement::agreed;
use crate::turn::turn;
use crate::verdict::Verdict;
use crate::walk::{Notes, Step, Task, Walk};
use est_meaning::ending::ends_at;
use est_meaning::event::Event;
use est_meaning::run::Limits;
use est_meaning::trace::Trace;
use est_meaning::world::World;
use est_syntax::est_items::Items;
use run_paths::path::reversed;
use run_paths::rewinding::rewind;
use std::alloc::{AllocError, Global};

// Goes on until there is an answer.
fn walk_all<W: World>(
    alloc: Global,
    world: &mut W,
    task: &Task<'_>,
    walk: &mut Walk,
) -> Result<Step, AllocError>
    ghost setup: { Spec → Setup }
    requires within { walk.old.tried ≤ task.now.budget }
    requires room { W.fired world.old + task.now.budget < 2 ^ 64 + walk.old.tried }
    requires few { length task.now.trace.now.events ≤ most_events }
    requires ready { (spec : Spec) → W.speaks world.old spec
        → IsReady (setup spec) spec (W.limit world.old) task.now.silent task.now.trace.now
        (W.stack world.old spec) walk.old }
    ensures keeps { Keeps W.speaks W.limit world.old world.new }
    ensures fired { W.fired world.new + walk.old.tried ≡ W.fired world.old + walk.new.tried }
    ensures within { walk.new.tried ≤ task.now.budget }
    ensures bottom { SameBottom W.speaks W.stack world.old world.new }
    ensures going { IfOk result (λ step. step ≡ Step.Going → ⊥) }
    ensures over { IfOk result (λ step. step ≡ Step.Over → walk.new.tried ≡ task.now.budget) }
    ensures many { (spec : Spec) → W.speaks world.old spec
        → HasMany (IsTrial (setup spec)) walk.new.tried }
    ensures ok { IfOk result (λ step. (spec : Spec) → W.speaks world.old spec
        → StepIs (setup spec) (W.stack world.new spec) step walk.new) }
{
    'walk: loop {
        let step = turn(alloc, world, task, walk)?;
        if step != Step::Going {
            return Ok(step);
        }
    }
}

// The answer where nothing is left to be tried.
fn conclude(alloc: Global, walk: Walk) -> Result<Verdict, AllocError>
    requires { walk.best.yields ≤ most_events }
    ensures { IfOk result (λ verdict. Concludes walk verdict) }
{
    let Walk {
        mut best,
        notes,
        ..
    } = walk;
    let Notes { passed, faulted } = notes;
    match passed {
        Some(passed) => Ok(Verdict::OverAction {
            run: passed.run,
            events: passed.events,
            firing: passed.firing,
        }),
        None => Ok(Verdict::Refused {
            at: best.yields + 1,
            run: reversed(alloc, &mut best.tail)?,
            faulted,
        }),
    }
}

// The answer where the search ends so.
fn answer(alloc: Global, walk: Walk, budget: u32, step: Step) -> Result<Verdict, AllocError>
    requires ended { step ≡ Step.Going → ⊥ }
    requires few { step ≡ Step.Done → walk.best.yields ≤ most_events }
    ensures { IfOk result (λ verdict. Answers walk budget step verdict) }
{
    match step {
        Step::Accepting => Ok(Verdict::Accepted {
            run: Items {
                items: walk.path.moves,
            },
        }),
        Step::Over => {
            drop(walk);
            Ok(Verdict::OverFirings { tried: budget })
        }
        Step::Going => unreachable!(),
        Step::Done => conclude(alloc, walk),
    }
}

// Searches on from a start that has so many events of the trace and does not explain it.
fn search_on<W: World>(
    alloc: Global,
    world: &mut W,
    task: &Task<'_>,
    matched: u32,
) -> Result<Verdict, AllocError>
    ghost setup: { Spec → Setup }
    requires room { W.fired world.old ≤ 2 ^ 63 }
    requires few { length task.now.trace.now.events ≤ most_events }
    requires beginning { (spec : Spec) → W.speaks world.old spec
        → IsBeginning (setup spec) spec (W.limit world.old) task.now.silent task.now.trace.now
        (W.stack world.old spec) matched }
    ensures keeps { Keeps W.speaks W.limit world.old world.new }
    ensures stack { SameStack W.speaks W.stack world.old world.new }
    ensures grows { W.fired world.old ≤ W.fired world.new }
    ensures budget { W.fired world.new ≤ W.fired world.old + task.now.budget }
    ensures size { (spec : Spec) → W.speaks world.old spec
        → HasMany (IsTrial (setup spec)) (W.fired world.new - W.fired world.old) }
    ensures verdict { IfOk result (λ verdict. (spec : Spec) → W.speaks world.old spec
        → IsVerdict (setup spec) task.now.budget verdict) }
    ensures tried { IfOk result (λ verdict. (spec : Spec) → W.speaks world.old spec
        → IsWithinTried (setup spec) verdict (W.fired world.new - W.fired world.old)) }
{
    let budget = task.budget;
    let mut walk = Walk::new(alloc, matched);
    let step = walk_all(alloc, world, task, &mut walk);
    rewind(world);
    match step {
        Ok(step) => answer(alloc, walk, budget, step),
        Err(error) => {
            drop(walk);
            Err(error)
        }
    }
}

// Searches from the start on, which has these events.
fn search<W: World>(
    alloc: Global,
    world: &mut W,
    start_outs: &[Event],
    task: &Task<'_>,
) -> Result<Verdict, AllocError>
    ghost setup: { Spec → Setup }
    requires room { W.fired world.old ≤ 2 ^ 63 }
    requires few { length task.now.trace.now.events ≤ most_events }
    requires start { (spec : Spec) → W.speaks world.old spec
        → IsStarting (setup spec) spec (W.limit world.old) task.now.silent task.now.trace.now
        (W.stack world.old spec) start_outs.now }
    ensures keeps { Keeps W.speaks W.limit world.old world.new }
    ensures stack { SameStack W.speaks W.stack world.old world.new }
    ensures grows { W.fired world.old ≤ W.fired world.new }
    ensures budget { W.fired world.new ≤ W.fired world.old + task.now.budget }
    ensures size { (spec : Spec) → W.speaks world.old spec
        → HasMany (IsTrial (setup spec)) (W.fired world.new - W.fired world.old) }
    ensures verdict { IfOk result (λ verdict. (spec : Spec) → W.speaks world.old spec
        → IsVerdict (setup spec) task.now.budget verdict) }
    ensures tried { IfOk result (λ verdict. (spec : Spec) → W.speaks world.old spec
        → IsWithinTried (setup spec) verdict (W.fired world.new - W.fired world.old)) }
{
    let trace = task.trace.events().as_slice();
    let matched = agreed(trace, 0, start_outs);
    if matched < start_outs.len() {
        return Ok(Verdict::Refused {
            at: matched as u32 + 1,
            run: Items::new(alloc),
            faulted: None,
        });
    }
    let whole = ends_at(alloc, world, task.trace, matched)?;
    if whole {
        return Ok(Verdict::Accepted {
            run: Items::new(alloc),
        });
    }
    search_on(alloc, world, task, matched as u32)
}

/// Searches the runs of a specification for one that explains the trace. The world stands at the
/// start of each specification of which it speaks, and is left so. The verdict is the only one
/// (`laws::one_verdict`). No more blocks are fired than there are trials.
pub fn explain<W: World>(
    alloc: Global,
    world: &mut W,
    start_outs: &[Event],
    trace: &Trace,
    limits: &Limits,
) -> Result<Verdict, AllocError>
    requires start { (spec : Spec) → W.speaks world.old spec
        → start_of limits.now.statements (text_of spec)
        ≡ Done start_outs.now (W.stack world.old spec).now }
    requires bottom { (spec : Spec) → W.speaks world.old spec
        → (W.stack world.old spec).below ≡ [] }
    requires limit { W.limit world.old ≡ limits.now.statements }
    requires room { W.fired world.old ≤ 2 ^ 63 }
    requires allowed { (spec : Spec) → W.speaks world.old spec → IsAllowedTrace spec trace.now }
    ensures keeps { Keeps W.speaks W.limit world.old world.new }
    ensures stack { SameStack W.speaks W.stack world.old world.new }
    ensures grows { W.fired world.old ≤ W.fired world.new }
    ensures budget { W.fired world.new ≤ W.fired world.old + limits.now.budget }
    ensures size { (spec : Spec) → W.speaks world.old spec
        → HasMany (IsTrial (setup_of limits.now.statements limits.now.silent trace.now
        (W.stack world.old spec) start_outs.now spec)) (W.fired world.new - W.fired world.old) }
    ensures verdict { IfOk result (λ verdict. (spec : Spec) → W.speaks world.old spec
        → IsVerdict (setup_of limits.now.statements limits.now.silent trace.now
        (W.stack world.old spec) start_outs.now spec) limits.now.budget verdict) }
    ensures tried { IfOk result (λ verdict. (spec : Spec) → W.speaks world.old spec
        → IsWithinTried (setup_of limits.now.statements limits.now.silent trace.now
        (W.stack world.old spec) start_outs.now spec) verdict
        (W.fired world.new - W.fired world.old)) }
{
    let task = Task {
        trace,
        silent: limits.silent,
        budget: limits.budget,
    };
    search(alloc, world, start_outs, &task)
}
