//! How firings and starts are brought to an end.
ghost use Rattle.std.specs.Prelude.{◌≡◌, IfOk, OnOk};
ghost use Rattle.est_meaning.specs.mean_blocks.KeepingLaws.{AreNumbered};
ghost use Rattle.plain_frames.specs.plain_systems.HeldSystems.{situation_of};
ghost use Rattle.est_meaning.specs.DelayStamps.{restamped};
ghost use Rattle.est_meaning.specs.OutsideEvents.{departures};

use crate::stamping::restamp;
use crate::step::Stepped;
use est_meaning::event::Events;
use est_meaning::firing::Firing;
use plain_frames::plain_systems::system::Working;
use plain_outside::outside::Outside;
use plain_transitions::behaviour::Behaviour;
use std::alloc::{AllocError, Global};

/// The events of what was sent out of the system. The stamps are then up to date.
pub fn end(
    alloc: Global,
    behaviour: &Behaviour,
    outside: &Outside,
    limit: u32,
    fired: Option<Firing>,
    working: &mut Working,
) -> Result<Events, AllocError>
    requires outside { outside.now ≡ behaviour.now }
    requires numbered { AreNumbered (situation_of working.old.system) }
    ensures events { IfOk result
        (λ events. events ≡ departures behaviour.now working.old.outs) }
    ensures system { OnOk result (situation_of working.new.system
        ≡ restamped limit behaviour.now fired (situation_of working.old.system)) }
{
    let events = outside.departures(alloc, &working.outs)?;
    restamp(alloc, behaviour, limit, fired, working)?;
    Ok(events)
}

/// The system of a working state, with these events.
pub fn stepped(working: Working, outs: Events) -> Stepped
    ensures { result ≡ record { system = working.system; outs = outs } }
{
    let Working {
        system,
        outs: sent,
        frames,
    } = working;
    drop(sent);
    drop(frames);
    Stepped { system, outs }
}
