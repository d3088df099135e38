//! Verdicts while a trace is recorded.
ghost use Rattle.std.specs.Prelude.{◌≡◌, ℕ, ◌+◌, ◌-◌, ◌<◌, ◌≤◌, ◌^◌, ◌⊎◌, Bool, true, false, [], ◌∷◌, ◌++◌};
ghost use Rattle.std.specs.Prelude.{List, length, IfOk, OnErr, OnOk};
ghost use Rattle.est_syntax.specs.declared.specification.Spec.{Spec};
ghost use Rattle.est_meaning.specs.mean_blocks.Outcome.{Done};
ghost use Rattle.est_meaning.specs.mean_blocks.TextByPlace.{text_of};
ghost use Rattle.est_meaning.specs.AllowedEvents.{IsAllowed, most_events};
ghost use Rattle.est_meaning.specs.FiringSteps.{start_of};
ghost use Rattle.est_meaning.specs.RecordedTraces.{known_trace};
ghost use Rattle.est_meaning.specs.SituationStacks.{Keeps};
ghost use Rattle.est_meaning.specs.Run.{Setup};
ghost use Rattle.est_meaning.specs.Task.{setup_of, Suits};
ghost use Rattle.est_meaning.specs.Trials.{IsTrial, HasMany};
ghost use Rattle.mean_watch.specs.Watching.{IsWatched, IsFinished};
ghost use Rattle.est_watch.specs.Watchers.{given_to, tried_by, IsWatching, StaysSo, state_after};
ghost use Rattle.run_paths.specs.Paths.{view_of};
ghost use Rattle.est_watch.specs.inside.Walk.{IsReady, IsLeaving, StepIs, AnswerIs};

use crate::turn::{go_back, turn};
use crate::walk::{Step, Task, Walk};
use est_meaning::event::Event;
use est_meaning::run::Limits;
use est_meaning::world::World;
use mean_watch::watched::Watched;
use std::alloc::{AllocError, Global};

/// Whether a watcher goes on: it is open, or closed with its last answer, or out of memory.
#[derive(Clone, Copy, PartialEq, Eq)]
pub enum State {
    Open,
    Closed(Watched),
    Spent,
}

/// A search whose trace is told event by event. It owns its world, which stands at the run that
/// yields the events so far.
#[derive(Drop)]
pub struct Watcher<W> {
    alloc: Global,
    world: W,
    limits: Limits,
    given: Vec<Event>,
    walk: Walk,
    state: State,
}

// Goes on until there is an answer.
fn walk_all<W: World>(
    alloc: Global,
    world: &mut W,
    task: &Task<'_>,
    walk: &mut Walk,
) -> Result<Step, AllocError>
    ghost setup: { Spec → Setup }
    requires within { walk.old.tried ≤ task.now.budget }
    requires room { W.fired world.old + task.now.budget < 2 ^ 64 + walk.old.tried }
    requires few { length task.now.given.now ≤ most_events }
    requires ready { (spec : Spec) → W.speaks world.old spec
        → IsReady (setup spec) task.now.exact spec (W.limit world.old) task.now.silent
        task.now.given.now (W.stack world.old spec) walk.old }
    ensures keeps { Keeps W.speaks W.limit world.old world.new }
    ensures fired { W.fired world.new + walk.old.tried ≡ W.fired world.old + walk.new.tried }
    ensures within { walk.new.tried ≤ task.now.budget }
    ensures going { IfOk result (λ step. step ≡ Step.Going → ⊥) }
    ensures over { IfOk result (λ step. step ≡ Step.Over → walk.new.tried ≡ task.now.budget) }
    ensures many { (spec : Spec) → W.speaks world.old spec
        → HasMany (IsTrial (setup spec)) walk.new.tried }
    ensures ok { IfOk result (λ step. (spec : Spec) → W.speaks world.old spec
        → StepIs (setup spec) task.now.exact (W.stack world.new spec) step walk.new) }
{
    'walk: loop {
        let step = turn(alloc, world, task, walk)?;
        if step != Step::Going {
            return Ok(step);
        }
    }
}

// The answer where a walk stops so.
fn answer(walk: &Walk, step: Step) -> Watched
    requires { step ≡ Step.Going → ⊥ }
    ensures found { step ≡ Step.Found → result ≡ Watched.Possible }
    ensures over { step ≡ Step.Over → result ≡ Watched.OverFirings }
    ensures none { step ≡ Step.Done → walk.now.passed ≡ false → result ≡ Watched.Impossible }
    ensures passed { step ≡ Step.Done → walk.now.passed ≡ true → result ≡ Watched.OverAction }
{
    match step {
        Step::Going => unreachable!(),
        Step::Found => Watched::Possible,
        Step::Over => Watched::OverFirings,
        Step::Done => {
            if walk.passed {
                Watched::OverAction
            } else {
                Watched::Impossible
            }
        }
    }
}

// How an answer to an event leaves a watcher.
fn left_by(answer: Watched) -> State
    ensures { result ≡ state_after answer }
{
    match answer {
        Watched::Possible => State::Open,
        Watched::Impossible => State::Closed(Watched::Impossible),
        Watched::OverFirings => State::Closed(Watched::OverFirings),
        Watched::OverAction => State::Closed(Watched::OverAction),
    }
}

impl<W: World> Watcher<W> {
    /// A watcher of the runs from a start with these events. The world stands at the start of each
    /// specification of which it speaks.
    pub fn new(alloc: Global, world: W, start_outs: Vec<Event>, limits: Limits) -> Watcher<W>
        requires start { (spec : Spec) → W.speaks world spec
            → start_of limits.statements (text_of spec)
            ≡ Done start_outs.items (W.stack world spec).now }
        requires bottom { (spec : Spec) → W.speaks world spec → (W.stack world spec).below ≡ [] }
        requires limit { W.limit world ≡ limits.statements }
        requires room { W.fired world ≤ 2 ^ 63 }
        ensures given { given_to result ≡ [] }
        ensures world { result.world ≡ world }
        ensures tried { tried_by result ≡ 0 }
        ensures limits { result.limits ≡ limits }
        ensures open { result.state ≡ State.Open }
        ensures watching { IsWatching W.speaks W.stack W.limit W.fired
            (λ spec. setup_of limits.statements limits.silent (known_trace [])
            (W.stack world spec) start_outs.items spec) result }
    {
        let walk = Walk::new(alloc, start_outs);
        Watcher {
            alloc,
            world,
            limits,
            given: Vec::new(alloc),
            walk,
            state: State::Open,
        }
    }

    /// Whether some bounded run yields the events given and this one. After an answer other than
    /// `Possible` the same is answered again, and the event does not count as given.
    pub fn event(&mut self, event: Event) -> Result<Watched, AllocError>
        ghost setup: { Spec → Setup }
        requires few { length (given_to self.old) < most_events }
        requires allowed { (spec : Spec) → W.speaks self.old.world spec → IsAllowed spec event }
        requires watching { IsWatching W.speaks W.stack W.limit W.fired setup self.old }
        ensures keeps { Keeps W.speaks W.limit self.old.world self.new.world }
        ensures limits { self.new.limits ≡ self.old.limits }
        ensures fired { W.fired self.new.world + tried_by self.old
            ≡ W.fired self.old.world + tried_by self.new }
        ensures watching { IsWatching W.speaks W.stack W.limit W.fired setup self.new }
        ensures stays { StaysSo self.old self.new result self.old.state }
        ensures given { OnOk result (self.old.state ≡ State.Open
            → given_to self.new ≡ given_to self.old ++ event ∷ []) }
        ensures state { IfOk result (λ answer. self.old.state ≡ State.Open
            → self.new.state ≡ state_after answer) }
        ensures answer { IfOk result (λ answer. self.old.state ≡ State.Open
            → (spec : Spec) → W.speaks self.old.world spec
            → IsWatched (setup spec) self.old.limits.budget (given_to self.old ++ event ∷ [])
            answer) }
        ensures spent { OnErr result (self.new.state ≡ State.Spent) }
    {
        match self.state {
            State::Closed(answer) => {
                drop(event);
                Ok(answer)
            }
            State::Spent => {
                drop(event);
                Err(AllocError)
            }
            State::Open => match self.give(event) {
                Ok(answer) => {
                    self.state = left_by(answer);
                    Ok(answer)
                }
                Err(error) => {
                    self.state = State::Spent;
                    Err(error)
                }
            },
        }
    }

    /// Whether some bounded run explains the events given, where these are all. After it nothing more
    /// is given.
    pub fn finish(&mut self) -> Result<Watched, AllocError>
        ghost setup: { Spec → Setup }
        requires watching { IsWatching W.speaks W.stack W.limit W.fired setup self.old }
        ensures keeps { Keeps W.speaks W.limit self.old.world self.new.world }
        ensures limits { self.new.limits ≡ self.old.limits }
        ensures fired { W.fired self.new.world + tried_by self.old
            ≡ W.fired self.old.world + tried_by self.new }
        ensures watching { IsWatching W.speaks W.stack W.limit W.fired setup self.new }
        ensures stays { StaysSo self.old self.new result self.old.state }
        ensures given { given_to self.new ≡ given_to self.old }
        ensures state { IfOk result (λ answer. self.old.state ≡ State.Open
            → self.new.state ≡ State.Closed answer) }
        ensures answer { IfOk result (λ answer. self.old.state ≡ State.Open
            → (spec : Spec) → W.speaks self.old.world spec
            → IsFinished (setup spec) self.old.limits.budget (given_to self.old) answer) }
        ensures spent { OnErr result (self.new.state ≡ State.Spent) }
    {
        match self.state {
            State::Closed(answer) => Ok(answer),
            State::Spent => Err(AllocError),
            State::Open => match self.end() {
                Ok(answer) => {
                    self.state = State::Closed(answer);
                    Ok(answer)
                }
                Err(error) => {
                    self.state = State::Spent;
                    Err(error)
                }
            },
        }
    }

    // Gives one event more: where the last firing sent it, nothing is tried.
    fn give(&mut self, event: Event) -> Result<Watched, AllocError>
        ghost setup: { Spec → Setup }
        requires open { self.old.state ≡ State.Open }
        requires few { length (given_to self.old) < most_events }
        requires allowed { (spec : Spec) → W.speaks self.old.world spec → IsAllowed spec event }
        requires watching { IsWatching W.speaks W.stack W.limit W.fired setup self.old }
        ensures keeps { Keeps W.speaks W.limit self.old.world self.new.world }
        ensures limits { self.new.limits ≡ self.old.limits }
        ensures fired { W.fired self.new.world + tried_by self.old
            ≡ W.fired self.old.world + tried_by self.new }
        ensures watching { IfOk result (λ answer.
            IsWatching W.speaks W.stack W.limit W.fired setup
            (record self.new { state = state_after answer })) }
        ensures spent { OnErr result (IsWatching W.speaks W.stack W.limit W.fired setup
            (record self.new { state = State.Spent })) }
        ensures given { OnOk result (given_to self.new ≡ given_to self.old ++ event ∷ []) }
        ensures answer { IfOk result (λ answer. (spec : Spec) → W.speaks self.old.world spec
            → IsWatched (setup spec) self.old.limits.budget (given_to self.old ++ event ∷ [])
            answer) }
    {
        if self.walk.used >= self.walk.outs.len() {
            self.given.push(event)?;
            return self.go_on(false);
        }
        let sent = event.is(&self.walk.outs[self.walk.used]);
        self.given.push(event)?;
        if !sent {
            return self.leave(false);
        }
        self.walk.used += 1;
        self.walk.path.top.matched += 1;
        Ok(Watched::Possible)
    }

    // Ends: where the last firing sent more than was given, another run is sought.
    fn end(&mut self) -> Result<Watched, AllocError>
        ghost setup: { Spec → Setup }
        requires open { self.old.state ≡ State.Open }
        requires watching { IsWatching W.speaks W.stack W.limit W.fired setup self.old }
        ensures keeps { Keeps W.speaks W.limit self.old.world self.new.world }
        ensures limits { self.new.limits ≡ self.old.limits }
        ensures fired { W.fired self.new.world + tried_by self.old
            ≡ W.fired self.old.world + tried_by self.new }
        ensures watching { IfOk result (λ answer.
            IsWatching W.speaks W.stack W.limit W.fired setup
            (record self.new { state = State.Closed answer })) }
        ensures spent { OnErr result (IsWatching W.speaks W.stack W.limit W.fired setup
            (record self.new { state = State.Spent })) }
        ensures given { given_to self.new ≡ given_to self.old }
        ensures answer { IfOk result (λ answer. (spec : Spec) → W.speaks self.old.world spec
            → IsFinished (setup spec) self.old.limits.budget (given_to self.old) answer) }
    {
        if self.walk.used >= self.walk.outs.len() {
            return Ok(Watched::Possible);
        }
        self.leave(true)
    }

    // Leaves the run at which the walk stands, and goes on to another one that is sought.
    fn leave(&mut self, exact: bool) -> Result<Watched, AllocError>
        ghost setup: { Spec → Setup }
        requires within { self.old.walk.tried ≤ self.old.limits.budget }
        requires room { W.fired self.old.world + self.old.limits.budget
            < 2 ^ 64 + self.old.walk.tried }
        requires few { length (given_to self.old) ≤ most_events }
        requires suits { (spec : Spec) → W.speaks self.old.world spec
            → Suits (setup spec) spec (W.limit self.old.world) self.old.limits.silent
            (known_trace (given_to self.old)) }
        requires leaving { (spec : Spec) → W.speaks self.old.world spec
            → IsLeaving (setup spec) exact (W.stack self.old.world spec)
            (view_of self.old.walk.path) self.old.walk.tried self.old.walk.passed }
        ensures keeps { Keeps W.speaks W.limit self.old.world self.new.world }
        ensures others { (self.new.limits ≡ self.old.limits) × (self.new.given ≡ self.old.given) }
        ensures fired { W.fired self.new.world + self.old.walk.tried
            ≡ W.fired self.old.world + self.new.walk.tried }
        ensures within { self.new.walk.tried ≤ self.old.limits.budget }
        ensures many { (spec : Spec) → W.speaks self.old.world spec
            → HasMany (IsTrial (setup spec)) self.new.walk.tried }
        ensures ok { IfOk result (λ answer. (spec : Spec) → W.speaks self.old.world spec
            → AnswerIs (setup spec) exact self.old.limits.budget
            (W.stack self.new.world spec) self.new.walk answer) }
    {
        let task = Task {
            given: &self.given,
            exact,
            silent: self.limits.silent,
            budget: self.limits.budget,
        };
        match go_back(&mut self.world, &task, &mut self.walk) {
            Step::Done => Ok(answer(&self.walk, Step::Done)),
            _ => self.go_on(exact),
        }
    }

    // Goes on to a run that yields the events given, or explains them.
    fn go_on(&mut self, exact: bool) -> Result<Watched, AllocError>
        ghost setup: { Spec → Setup }
        requires within { self.old.walk.tried ≤ self.old.limits.budget }
        requires room { W.fired self.old.world + self.old.limits.budget
            < 2 ^ 64 + self.old.walk.tried }
        requires few { length (given_to self.old) ≤ most_events }
        requires ready { (spec : Spec) → W.speaks self.old.world spec
            → IsReady (setup spec) exact spec (W.limit self.old.world) self.old.limits.silent
            (given_to self.old) (W.stack self.old.world spec) self.old.walk }
        ensures keeps { Keeps W.speaks W.limit self.old.world self.new.world }
        ensures others { (self.new.limits ≡ self.old.limits) × (self.new.given ≡ self.old.given) }
        ensures fired { W.fired self.new.world + self.old.walk.tried
            ≡ W.fired self.old.world + self.new.walk.tried }
        ensures within { self.new.walk.tried ≤ self.old.limits.budget }
        ensures many { (spec : Spec) → W.speaks self.old.world spec
            → HasMany (IsTrial (setup spec)) self.new.walk.tried }
        ensures ok { IfOk result (λ answer. (spec : Spec) → W.speaks self.old.world spec
            → AnswerIs (setup spec) exact self.old.limits.budget
            (W.stack self.new.world spec) self.new.walk answer) }
    {
        let task = Task {
            given: &self.given,
            exact,
            silent: self.limits.silent,
            budget: self.limits.budget,
        };
        let step = walk_all(self.alloc, &mut self.world, &task, &mut self.walk)?;
        Ok(answer(&self.walk, step))
    }
}
