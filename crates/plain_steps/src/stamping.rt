//! Since when transitions with a delay are enabled.
ghost use Rattle.std.specs.Prelude.{◌≡◌, ◌+◌, ◌++◌, [], None, OnOk};
ghost use Rattle.est_meaning.specs.mean_blocks.GlobalSituation.{Clocked};
ghost use Rattle.est_meaning.specs.mean_blocks.KeepingLaws.{AreNumbered};
ghost use Rattle.plain_frames.specs.plain_systems.HeldSystems.{situation_of, stamped};
ghost use Rattle.est_meaning.specs.DelayStamps.{restamped, stamp_after};
ghost use Rattle.plain_steps.specs.inside.StampLists.{IsLiving, AreOfInstance, clocked, stamp_list};
ghost use Rattle.plain_steps.specs.inside.StampLists.{stamps_until};

use crate::living::{Living, living_at};
use crate::timing::{is_timed, since};
use est_meaning::firing::Firing;
use est_syntax::est_items::{Items, Shared};
use plain_clauses::candidate::Candidate;
use plain_frames::plain_systems::system::{Stamp, Stamps, Working};
use plain_transitions::behaviour::Behaviour;
use plain_transitions::fits::Fits;
use std::alloc::{AllocError, Global};

// Puts the stamp of a transition last, if it is to have one.
fn stamp_transition(
    alloc: Global,
    behaviour: &Behaviour,
    limit: u32,
    fired: Option<Firing>,
    living: Living,
    fits: &Fits,
    number: u32,
    stamps: &mut Stamps,
    working: &mut Working,
) -> Result<(), AllocError>
    requires living { IsLiving (situation_of working.old.system) living }
    requires fits { fits.now ≡ record {
      text = behaviour.now;
      body = living.body;
      state = living.state;
    } }
    ensures stamps { OnOk result (stamps.new ≡ stamps.old
        ++ stamp_list (clocked living.number number)
        (stamp_after limit behaviour.now fired (situation_of working.old.system)
        (clocked living.number number))) }
    ensures system { OnOk result
        (situation_of working.new.system ≡ situation_of working.old.system) }
{
    let Some(transition) = fits.transition(number) else {
        return Ok(());
    };
    let candidate = Candidate {
        instance: living.number,
        state: living.state,
        number,
        transition,
    };
    if is_timed(alloc, behaviour, limit, &candidate, working)? {
        let since = since(fired, &working.system, living.number, number);
        stamps.push(Stamp {
            instance: living.number,
            transition: number,
            since,
        })?;
    }
    Ok(())
}

// Puts the stamps of an instance last, which has none there yet. Where no transition of its body has a
// delay, none gets one.
fn stamp_instance(
    alloc: Global,
    behaviour: &Behaviour,
    limit: u32,
    fired: Option<Firing>,
    living: Living,
    stamps: &mut Stamps,
    working: &mut Working,
) -> Result<(), AllocError>
    requires living { IsLiving (situation_of working.old.system) living }
    requires none { (k : Clocked) → k.instance ≡ living.number → stamped stamps.old k ≡ None }
    ensures stamps { OnOk result (AreOfInstance living.number
        (stamp_after limit behaviour.now fired (situation_of working.old.system))
        (stamped stamps.old) (stamped stamps.new)) }
    ensures system { OnOk result
        (situation_of working.new.system ≡ situation_of working.old.system) }
{
    let fits = behaviour.fits(living.body, living.state);
    if !fits.is_timed() {
        return Ok(());
    }
    let mut last = 0;
    while let Some(number) = fits.next(last) {
        stamp_transition(
            alloc, behaviour, limit, fired, living, &fits, number, stamps, working,
        )?;
        last = number;
    }
    Ok(())
}

// Puts the stamps of the instance last whose row stands at a place, after those of the instances
// before it.
fn stamp_row(
    alloc: Global,
    behaviour: &Behaviour,
    limit: u32,
    fired: Option<Firing>,
    at: usize,
    stamps: &mut Stamps,
    working: &mut Working,
) -> Result<(), AllocError>
    requires numbered { AreNumbered (situation_of working.old.system) }
    requires before { (k : Clocked) → stamped stamps.old k
        ≡ stamps_until limit behaviour.now fired (situation_of working.old.system) at k }
    ensures stamps { OnOk result ((k : Clocked) → stamped stamps.new k
        ≡ stamps_until limit behaviour.now fired (situation_of working.old.system) (at + 1) k) }
    ensures system { OnOk result
        (situation_of working.new.system ≡ situation_of working.old.system) }
{
    match living_at(&working.system, at) {
        None => Ok(()),
        Some(living) => stamp_instance(alloc, behaviour, limit, fired, living, stamps, working),
    }
}

// Puts the stamps of all instances in a list without any.
fn stamp_rows(
    alloc: Global,
    behaviour: &Behaviour,
    limit: u32,
    fired: Option<Firing>,
    stamps: &mut Stamps,
    working: &mut Working,
) -> Result<(), AllocError>
    requires numbered { AreNumbered (situation_of working.old.system) }
    requires none { stamps.old ≡ [] }
    ensures stamps { OnOk result ((k : Clocked) → stamped stamps.new k
        ≡ stamp_after limit behaviour.now fired (situation_of working.old.system) k) }
    ensures system { OnOk result
        (situation_of working.new.system ≡ situation_of working.old.system) }
{
    for at in 0..working.system.rows.get().len() {
        stamp_row(alloc, behaviour, limit, fired, at, stamps, working)?;
    }
    Ok(())
}

/// Brings the stamps up to date after a start, or after this fired.
pub fn restamp(
    alloc: Global,
    behaviour: &Behaviour,
    limit: u32,
    fired: Option<Firing>,
    working: &mut Working,
) -> Result<(), AllocError>
    requires { AreNumbered (situation_of working.old.system) }
    ensures { OnOk result (situation_of working.new.system
        ≡ restamped limit behaviour.now fired (situation_of working.old.system)) }
{
    let mut stamps = Items::new(alloc);
    stamp_rows(alloc, behaviour, limit, fired, &mut stamps, working)?;
    working.system.stamps = Shared::new(alloc, stamps)?;
    Ok(())
}
