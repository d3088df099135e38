//! Firings.
ghost use Rattle.std.specs.Prelude.{◌≡◌, Some};
ghost use Rattle.est_meaning.specs.mean_blocks.KeepingLaws.{AreNumbered};
ghost use Rattle.plain_frames.specs.plain_systems.HeldSystems.{situation_of};
ghost use Rattle.est_meaning.specs.DelayStamps.{restamped};
ghost use Rattle.est_meaning.specs.FiringSteps.{outcome};
ghost use Rattle.plain_steps.specs.SteppedSystems.{Steps};
ghost use Rattle.plain_steps.specs.inside.FiredChoices.{Leads};

use crate::choice::fire_choice;
use crate::ending::{end, stepped};
use crate::step::Stepped;
use est_meaning::firing::Firing;
use est_meaning::mean_blocks::fault::BlockFault;
use est_meaning::mean_blocks::stop::Stop;
use est_syntax::est_items::Items;
use plain_clauses::candidate::Candidate;
use plain_frames::plain_systems::rows::row_of;
use plain_frames::plain_systems::system::{System, Working};
use plain_outside::outside::Outside;
use plain_transitions::behaviour::Behaviour;
use std::alloc::{AllocError, Global};

// What comes of a firing, but for the stamps.
fn fire_in(
    alloc: Global,
    behaviour: &Behaviour,
    limit: u32,
    firing: &Firing,
    working: &mut Working,
) -> Result<(), Stop>
    ensures { Leads behaviour.now (restamped limit behaviour.now (Some firing.now))
        (outcome limit behaviour.now (situation_of working.old.system) firing.now)
        result working.new }
{
    let Some(row) = row_of(&working.system, firing.instance) else {
        return Err(Stop::Fault(BlockFault::Undefined));
    };
    let Some(transition) = behaviour.transition(row.body, firing.transition) else {
        return Err(Stop::Fault(BlockFault::Undefined));
    };
    let candidate = Candidate {
        instance: firing.instance,
        state: row.state,
        number: firing.transition,
        transition,
    };
    fire_choice(alloc, behaviour, limit, &candidate, firing.choice, working)
}

/// What comes of a firing.
pub fn fire(
    alloc: Global,
    behaviour: &Behaviour,
    outside: &Outside,
    limit: u32,
    firing: &Firing,
    system: System,
) -> Result<Stepped, Stop>
    requires outside { outside.now ≡ behaviour.now }
    requires numbered { AreNumbered (situation_of system) }
    ensures { Steps (outcome limit behaviour.now (situation_of system) firing.now) result }
{
    let mut working = Working {
        system,
        outs: Items::new(alloc),
        frames: Items::new(alloc),
    };
    fire_in(alloc, behaviour, limit, firing, &mut working)?;
    let events = end(
        alloc,
        behaviour,
        outside,
        limit,
        Some(*firing),
        &mut working,
    )?;
    Ok(stepped(working, events))
}
