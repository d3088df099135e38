//! The possible firings of a system, and whether a choice is due.
ghost use Rattle.std.specs.Prelude.{◌≡◌, ◌↔◌, IsTrue, IfOk, OnOk};
ghost use Rattle.est_meaning.specs.mean_blocks.KeepingLaws.{AreNumbered};
ghost use Rattle.plain_guards.specs.plain_systems.HeldSystems.{situation_of};
ghost use Rattle.est_meaning.specs.PossibleFirings.{OffersAre};
ghost use Rattle.est_meaning.specs.QuietSituations.{HasDue};
ghost use Rattle.est_meaning.specs.TransitionSelection.{IsSettled};

use crate::ancestors::keep_unpreceded;
use crate::found::{Found, find};
use est_meaning::answers::Offers;
use est_meaning::firing::Firing;
use plain_systems::system::Working;
use plain_transitions::behaviour::Behaviour;
use std::alloc::{AllocError, Global};

/// Lists the possible firings in order, or says that the situation is not settled. The system of
/// the working state looks as before.
pub fn options(
    alloc: Global,
    behaviour: &Behaviour,
    limit: u32,
    working: &mut Working,
    into: &mut Vec<Firing>,
) -> Result<Offers, AllocError>
    requires { AreNumbered (situation_of working.old.system) }
    ensures offers { IfOk result (λ offers. OffersAre limit behaviour.now
        (situation_of working.old.system) offers into.new.items) }
    ensures system { OnOk result
        (situation_of working.new.system ≡ situation_of working.old.system) }
{
    into.clear();
    let mut found = Found {
        firings: Vec::new(alloc),
        dues: Vec::new(alloc),
    };
    match find(alloc, behaviour, limit, working, &mut found)? {
        Offers::Settled => {}
        Offers::Unsettled => return Ok(Offers::Unsettled),
    }
    keep_unpreceded(alloc, &working.system, &found, into)?;
    Ok(Offers::Settled)
}

/// Whether in a settled situation some choice of some instance is due.
pub fn due_any(
    alloc: Global,
    behaviour: &Behaviour,
    limit: u32,
    working: &mut Working,
) -> Result<bool, AllocError>
    requires numbered { AreNumbered (situation_of working.old.system) }
    requires settled { IsSettled limit behaviour.now (situation_of working.old.system) }
    ensures { IfOk result (λ due. IsTrue due ↔ HasDue limit behaviour.now
        (situation_of working.old.system)) }
{
    let mut found = Found {
        firings: Vec::new(alloc),
        dues: Vec::new(alloc),
    };
    match find(alloc, behaviour, limit, working, &mut found)? {
        Offers::Settled => {}
        Offers::Unsettled => unreachable!(),
    }
    Ok(!found.dues.is_empty())
}
