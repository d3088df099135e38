//! Which transitions have a stamp, and since when they are enabled.
ghost use Rattle.std.specs.Prelude.{◌≡◌, Some, IfOk, OnOk, false};
ghost use Rattle.std.specs.Option.{option_map_or};
ghost use Rattle.est_meaning.specs.mean_blocks.declared.situation.Row.{Row};
ghost use Rattle.plain_frames.specs.plain_systems.HeldSystems.{stamped, situation_of};
ghost use Rattle.est_meaning.specs.ClauseContexts.{FullTransition};
ghost use Rattle.est_meaning.specs.TransitionChoices.{choice_by};
ghost use Rattle.est_meaning.specs.DelayStamps.{is_waiting, is_fired, since};
ghost use Rattle.plain_guards.specs.plain_transitions.WrittenTransitions.{IsWritten};
ghost use Rattle.plain_steps.specs.inside.StampLists.{clocked};

use est_meaning::firing::Firing;
use plain_clauses::candidate::Candidate;
use plain_frames::plain_systems::system::{Stamps, System, Working};
use plain_guards::judging::judge;
use plain_transitions::behaviour::Behaviour;
use std::alloc::{AllocError, Global};

// Whether it is this transition that fired.
fn is_fired(fired: Option<Firing>, instance: u32, transition: u32) -> bool
    ensures { result ≡ is_fired fired (clocked instance transition) }
{
    match fired {
        None => false,
        Some(firing) => firing.instance == instance && firing.transition == transition,
    }
}

// The stamp of a transition.
fn stamp_of(stamps: &Stamps, instance: u32, transition: u32) -> Option<u64>
    ensures { result ≡ stamped stamps.now (clocked instance transition) }
{
    match stamps.as_slice().iter().find(|stamp| instance == stamp.instance
        && transition == stamp.transition)
    {
        None => None,
        Some(stamp) => Some(stamp.since),
    }
}

/// Since when a transition is enabled that is so now.
pub fn since(fired: Option<Firing>, system: &System, instance: u32, transition: u32) -> u64
    ensures { result ≡ since fired (situation_of system.now) (clocked instance transition) }
{
    if is_fired(fired, instance, transition) {
        return system.clock;
    }
    match stamp_of(system.stamps.get(), instance, transition) {
        None => system.clock,
        Some(stamp) => stamp,
    }
}

/// Whether a transition has a delay and is enabled.
pub fn is_timed(
    alloc: Global,
    behaviour: &Behaviour,
    limit: u32,
    candidate: &Candidate,
    working: &mut Working,
) -> Result<bool, AllocError>
    ensures timed { IfOk result (λ timed. (r : Row) (x : FullTransition)
        → r.number ≡ candidate.now.instance → r.state ≡ candidate.now.state
        → IsWritten behaviour.now.outline x candidate.now.transition.now → timed
        ≡ option_map_or (is_waiting limit behaviour.now (situation_of working.old.system))
        (choice_by behaviour.now r candidate.now.number 1 x) false) }
    ensures system { OnOk result
        (situation_of working.new.system ≡ situation_of working.old.system) }
{
    if candidate.transition.delay.is_none() {
        return Ok(false);
    }
    let Some(chosen) = behaviour.chosen(alloc, candidate.transition, 1)? else {
        return Ok(false);
    };
    let verdict = judge(alloc, behaviour.text(), limit, candidate, chosen, working)?;
    Ok(verdict.enabled)
}
