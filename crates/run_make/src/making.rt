//! Draw by draw.
ghost use Rattle.std.specs.Prelude.{◌≡◌, ◌+◌, ◌-◌, ◌/◌, ◌%◌, ◌<◌, ◌≤◌, ◌^◌, ◌↔◌, ◌⊎◌, []};
ghost use Rattle.std.specs.Prelude.{IsTrue, IfOk, OnOk};
ghost use Rattle.est_syntax.specs.declared.specification.Spec.{Spec};
ghost use Rattle.est_meaning.specs.rule_declares.PortList.{ports_of};
ghost use Rattle.est_meaning.specs.mean_blocks.Outcome.{Done};
ghost use Rattle.est_meaning.specs.mean_blocks.TextByPlace.{text_of};
ghost use Rattle.est_meaning.specs.FiringSteps.{start_of};
ghost use Rattle.est_meaning.specs.OutsideEvents.{later};
ghost use Rattle.est_meaning.specs.SituationStacks.{Keeps};
ghost use Rattle.est_meaning.specs.Run.{silent_after};
ghost use Rattle.run_make.specs.Arrivals.{arrivals_of};
ghost use Rattle.run_make.specs.Recipe.{task_of, DrawsInteraction, IsMade};
ghost use Rattle.run_make.specs.Words.{stream_at};
ghost use Rattle.run_make.specs.inside.Standings.{HasLanded, HasTaken, HasGone, GoesOn};
ghost use Rattle.run_make.specs.inside.Standings.{HasOneMore, TriedAs};
ghost use Rattle.run_make.specs.inside.Standings.{HasArrived, HasHappened, TurnedAs, EndedAs};
ghost use Rattle.run_make.specs.inside.Standings.{MadeOf};

use crate::arrivals::{Arrival, arrivals};
use crate::made::Made;
use crate::recorded::known;
use crate::values::draw_values;
use crate::words::{draw, generator};
use est_meaning::answers::{Fired, Offers};
use est_meaning::event::{Event, Events, Interaction};
use est_meaning::firing::Firing;
use est_meaning::run::{Move, Run};
use est_meaning::world::World;
use est_syntax::est_items::Items;
use rand_pcg::Lcg64Xsh32;
use rule_ports::ports::Ports;
use std::alloc::{AllocError, Global};

/// How a trace is made: what may arrive at these ports, and how many draws in a row may fire
/// without an event.
#[derive(Clone, Copy)]
pub struct Recipe<'p> {
    pub ports: &'p Ports,
    pub arrivals: &'p [Arrival],
    pub silent: u32,
}

/// What is asked for: a trace of a seed, until it has so many events, where so many draws in a row
/// may fire without an event.
#[derive(Clone, Copy)]
pub struct Asked {
    pub seed: u64,
    pub count: u32,
    pub silent: u32,
}

/// How far a trace is made.
#[derive(Drop)]
pub struct Making {
    pub rng: Lcg64Xsh32,
    pub run: Run,
    pub events: Events,
    pub idle: u32,
}

// What came of a word that may ask for a firing.
#[derive(Clone, Copy, PartialEq, Eq)]
enum Tried {
    Made,
    Held,
    Limit,
}

// What came of a draw.
#[derive(Clone, Copy, PartialEq, Eq)]
enum Turn {
    Made,
    Limit,
}

// Whether a word asks for a firing, and the last firings were not idle too often.
fn asks_to_fire(word: u32, idle: u32, silent: u32) -> bool
    ensures { IsTrue result ↔ ((word % 4 < 3) × (idle < silent)) }
{
    word % 4 < 3 && idle < silent
}

// Whether a word lets time pass: it does not ask for an arrival, or nothing can arrive.
fn lets_time_pass(word: u32, arrivals: &[Arrival]) -> bool
    ensures { IsTrue result ↔ ((word % 2 ≡ 1) ⊎ (arrivals.now ≡ [])) }
{
    word % 2 == 1 || arrivals.is_empty()
}

// How many firings are idle after one more with these events.
fn silent_with(before: u32, outs: &[Event]) -> u32
    requires { before < 2 ^ 32 - 1 }
    ensures { result ≡ silent_after before outs.now }
{
    match outs {
        [] => before + 1,
        [_, ..] => 0,
    }
}

impl Making {
    // Puts down a firing with these events.
    fn land(&mut self, firing: Firing, outs: &mut Vec<Event>) -> Result<(), AllocError>
        requires { self.old.idle < 2 ^ 32 - 1 }
        ensures { OnOk result (HasLanded self.old self.new firing outs.old.items) }
    {
        self.idle = silent_with(self.idle, outs.as_slice());
        self.run.push(Move::Fire(firing))?;
        self.events.items.append(outs)
    }

    // Puts down an event from outside.
    fn take(&mut self, event: Event) -> Result<(), AllocError>
        ensures { OnOk result (HasTaken self.old self.new event) }
    {
        self.idle = 0;
        self.run.push(Move::Take)?;
        self.events.push(event)
    }
}

// Draws a word, and fires a transition where the word asks for it and one is possible.
fn try_firing<W: World>(
    alloc: Global,
    world: &mut W,
    silent: u32,
    making: &mut Making,
) -> Result<Tried, AllocError>
    requires room { W.fired world.old < 2 ^ 64 - 1 }
    ensures keeps { Keeps W.speaks W.limit world.old world.new }
    ensures fired { W.fired world.new ≤ W.fired world.old + 1 }
    ensures goes { IfOk result (λ tried. GoesOn silent making.old tried making.new) }
    ensures tried { IfOk result (λ tried. (spec : Spec) → W.speaks world.old spec
        → TriedAs (task_of (W.limit world.old) silent spec) making.old (W.stack world.old spec).now
        tried making.new (W.stack world.new spec).now) }
{
    let word = draw(&mut making.rng);
    if !asks_to_fire(word, making.idle, silent) {
        return Ok(Tried::Held);
    }
    let mut firings = Vec::new(alloc);
    match world.options(alloc, &mut firings)? {
        Offers::Unsettled => return Ok(Tried::Limit),
        Offers::Settled => {}
    }
    if firings.is_empty() {
        return Ok(Tried::Held);
    }
    let firing = firings[(word / 4) as usize % firings.len()];
    let mut outs = Vec::new(alloc);
    match world.fire(alloc, &firing, &mut outs)? {
        Fired::Done => {
            making.land(firing, &mut outs)?;
            Ok(Tried::Made)
        }
        Fired::Fault(_) => {
            making.idle += 1;
            Ok(Tried::Made)
        }
        Fired::Limit => Ok(Tried::Limit),
    }
}

// Draws an interaction that may arrive at a port.
fn draw_interaction(
    alloc: Global,
    rng: &mut Lcg64Xsh32,
    recipe: &Recipe<'_>,
    word: u32,
) -> Result<Interaction, AllocError>
    requires arrivals { recipe.now.arrivals.now ≡ arrivals_of recipe.now.ports.now }
    requires asks { ((word % 2 ≡ 1) ⊎ (recipe.now.arrivals.now ≡ [])) → ⊥ }
    ensures { IfOk result (λ i.
        DrawsInteraction recipe.now.ports.now word (stream_at rng.old) i (stream_at rng.new)) }
{
    let arrivals = recipe.arrivals;
    let Arrival { port, signal } = arrivals[(word / 2) as usize % arrivals.len()];
    match recipe.ports.signals(port) {
        None => unreachable!(),
        Some(signals) => match signals.get(signal as usize) {
            None => unreachable!(),
            Some(found) => {
                let values = draw_values(alloc, rng, &found.kinds)?;
                Ok(Interaction {
                    port,
                    signal,
                    values,
                })
            }
        },
    }
}

// Lets time pass, where a word does so.
fn pass<W: World>(
    alloc: Global,
    world: &mut W,
    making: &mut Making,
    word: u32,
) -> Result<(), AllocError>
    requires clock { (spec : Spec) → W.speaks world.old spec
        → (W.stack world.old spec).now.clock + 10 ≤ 10 ^ 15 }
    ensures keeps { Keeps W.speaks W.limit world.old world.new }
    ensures fired { W.fired world.new ≡ W.fired world.old }
    ensures taken { OnOk result
        (HasTaken making.old making.new (Event.Passes (word / 2 % 10 + 1))) }
    ensures passed { OnOk result ((spec : Spec) → W.speaks world.old spec
        → (W.stack world.new spec).now
        ≡ later (W.stack world.old spec).now (word / 2 % 10 + 1)) }
{
    let units = word / 2 % 10 + 1;
    world.pass(alloc, u64::from(units))?;
    making.take(Event::Passes(units))
}

// Lets an interaction arrive, which the word and those after it draw.
fn arrive<W: World>(
    alloc: Global,
    world: &mut W,
    recipe: &Recipe<'_>,
    making: &mut Making,
    word: u32,
) -> Result<(), AllocError>
    requires arrivals { recipe.now.arrivals.now ≡ arrivals_of recipe.now.ports.now }
    requires ports { (spec : Spec) → W.speaks world.old spec
        → recipe.now.ports.now ≡ ports_of spec }
    requires asks { ((word % 2 ≡ 1) ⊎ (recipe.now.arrivals.now ≡ [])) → ⊥ }
    ensures keeps { Keeps W.speaks W.limit world.old world.new }
    ensures fired { W.fired world.new ≡ W.fired world.old }
    ensures one { OnOk result (HasOneMore making.old making.new) }
    ensures arrived { OnOk result ((spec : Spec) → W.speaks world.old spec
        → HasArrived spec recipe.now.ports.now word making.old (W.stack world.old spec).now
        making.new (W.stack world.new spec).now) }
{
    let interaction = draw_interaction(alloc, &mut making.rng, recipe, word)?;
    let event = Event::Arrives(interaction);
    world.arrive(alloc, &event)?;
    making.take(event)
}

// Draws what the outside does: an interaction arrives, or time passes.
fn happen<W: World>(
    alloc: Global,
    world: &mut W,
    recipe: &Recipe<'_>,
    making: &mut Making,
) -> Result<(), AllocError>
    requires arrivals { recipe.now.arrivals.now ≡ arrivals_of recipe.now.ports.now }
    requires ports { (spec : Spec) → W.speaks world.old spec
        → recipe.now.ports.now ≡ ports_of spec }
    requires clock { (spec : Spec) → W.speaks world.old spec
        → (W.stack world.old spec).now.clock + 10 ≤ 10 ^ 15 }
    ensures keeps { Keeps W.speaks W.limit world.old world.new }
    ensures fired { W.fired world.new ≡ W.fired world.old }
    ensures one { OnOk result (HasOneMore making.old making.new) }
    ensures happened { OnOk result ((spec : Spec) → W.speaks world.old spec
        → HasHappened (task_of (W.limit world.old) recipe.now.silent spec) recipe.now.ports.now
        making.old (W.stack world.old spec).now making.new (W.stack world.new spec).now) }
{
    let word = draw(&mut making.rng);
    if lets_time_pass(word, recipe.arrivals) {
        pass(alloc, world, making, word)
    } else {
        arrive(alloc, world, recipe, making, word)
    }
}

// Makes one draw.
fn draw_once<W: World>(
    alloc: Global,
    world: &mut W,
    recipe: &Recipe<'_>,
    making: &mut Making,
) -> Result<Turn, AllocError>
    requires room { W.fired world.old < 2 ^ 64 - 1 }
    requires arrivals { recipe.now.arrivals.now ≡ arrivals_of recipe.now.ports.now }
    requires ports { (spec : Spec) → W.speaks world.old spec
        → recipe.now.ports.now ≡ ports_of spec }
    requires clock { (spec : Spec) → W.speaks world.old spec
        → (W.stack world.old spec).now.clock + 10 ≤ 10 ^ 15 }
    ensures keeps { Keeps W.speaks W.limit world.old world.new }
    ensures fired { W.fired world.new ≤ W.fired world.old + 1 }
    ensures gone { IfOk result
        (λ turn. turn ≡ Turn.Made → HasGone recipe.now.silent making.old making.new) }
    ensures turned { IfOk result (λ turn. (spec : Spec) → W.speaks world.old spec
        → TurnedAs (task_of (W.limit world.old) recipe.now.silent spec) making.old
        (W.stack world.old spec).now turn making.new (W.stack world.new spec).now) }
{
    match try_firing(alloc, world, recipe.silent, making)? {
        Tried::Made => Ok(Turn::Made),
        Tried::Limit => Ok(Turn::Limit),
        Tried::Held => {
            happen(alloc, world, recipe, making)?;
            Ok(Turn::Made)
        }
    }
}

// Draws until there are as many events, or a limit is passed.
fn make_on<W: World>(
    alloc: Global,
    world: &mut W,
    recipe: &Recipe<'_>,
    making: &mut Making,
    count: u32,
) -> Result<Turn, AllocError>
    requires few { recipe.now.silent < 2 ^ 32 }
    requires none_fired { W.fired world.old ≡ 0 }
    requires idle { making.old.idle ≡ 0 }
    requires arrivals { recipe.now.arrivals.now ≡ arrivals_of recipe.now.ports.now }
    requires ports { (spec : Spec) → W.speaks world.old spec
        → recipe.now.ports.now ≡ ports_of spec }
    requires clock { (spec : Spec) → W.speaks world.old spec
        → (W.stack world.old spec).now.clock ≡ 0 }
    ensures keeps { Keeps W.speaks W.limit world.old world.new }
    ensures ended { IfOk result (λ turn. (spec : Spec) → W.speaks world.old spec
        → EndedAs (task_of (W.limit world.old) recipe.now.silent spec) count making.old
        (W.stack world.old spec).now turn making.new (W.stack world.new spec).now) }
{
    'draws: while making.events.len() < count as usize {
        match draw_once(alloc, world, recipe, making)? {
            Turn::Limit => return Ok(Turn::Limit),
            Turn::Made => world.forget(),
        }
    }
    Ok(Turn::Made)
}

// What is made, where the draws ended so.
fn made_of(alloc: Global, turn: Turn, making: Making) -> Result<Made, AllocError>
    ensures { IfOk result (λ made. MadeOf turn making made) }
{
    let Making {
        rng: _,
        run,
        events,
        idle: _,
    } = making;
    match turn {
        Turn::Made => {
            let trace = known(alloc, events)?;
            Ok(Made::Trace { trace, run })
        }
        Turn::Limit => {
            drop(events);
            Ok(Made::Limit { run })
        }
    }
}

/// Makes a trace on a world that stands at the start of each specification of which it speaks, with
/// these events and at these ports. Each draw lists the possible firings at most once, and earlier
/// situations are let go of, which no clause says.
pub fn make_in<W: World>(
    alloc: Global,
    world: &mut W,
    start_outs: Events,
    ports: &Ports,
    asked: &Asked,
) -> Result<Made, AllocError>
    requires start { (spec : Spec) → W.speaks world.old spec
        → start_of (W.limit world.old) (text_of spec)
        ≡ Done start_outs (W.stack world.old spec).now }
    requires ports { (spec : Spec) → W.speaks world.old spec → ports.now ≡ ports_of spec }
    requires none_fired { W.fired world.old ≡ 0 }
    ensures keeps { Keeps W.speaks W.limit world.old world.new }
    ensures made { IfOk result (λ made. (spec : Spec) → W.speaks world.old spec
        → IsMade (task_of (W.limit world.old) asked.now.silent spec) asked.now.seed
        asked.now.count made) }
{
    let arrivals = arrivals(alloc, ports)?;
    let recipe = Recipe {
        ports,
        arrivals: &arrivals,
        silent: asked.silent,
    };
    let rng = generator(asked.seed);
    let run = Items::new(alloc);
    let mut making = Making {
        rng,
        run,
        events: start_outs,
        idle: 0,
    };
    match make_on(alloc, world, &recipe, &mut making, asked.count) {
        Ok(turn) => made_of(alloc, turn, making),
        Err(error) => {
            drop(making);
            Err(error)
        }
    }
}
