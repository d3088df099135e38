//! Starts.
ghost use Rattle.std.specs.Prelude.{◌≡◌, []};
ghost use Rattle.est_meaning.specs.FiringSteps.{start_of};
ghost use Rattle.plain_steps.specs.SteppedSystems.{Steps};

use crate::ending::{end, stepped};
use crate::step::Stepped;
use est_meaning::mean_blocks::stop::Stop;
use est_syntax::est_items::Items;
use plain_frames::plain_systems::system::Working;
use plain_outside::outside::Outside;
use plain_starts::starting::{Started, start};
use plain_transitions::behaviour::Behaviour;
use std::alloc::Global;

// A working state of what a start leaves, without frames.
fn working_of(alloc: Global, started: Started) -> Working
    ensures { result ≡ record { system = started.system; outs = started.outs; frames = [] } }
{
    let Started { system, outs } = started;
    Working {
        system,
        outs,
        frames: Items::new(alloc),
    }
}

/// What comes of the start of a specification.
pub fn start_of(
    alloc: Global,
    behaviour: &Behaviour,
    outside: &Outside,
    limit: u32,
) -> Result<Stepped, Stop>
    requires { outside.now ≡ behaviour.now }
    ensures { Steps (start_of limit behaviour.now) result }
{
    let started = start(alloc, behaviour.text(), limit)?;
    let mut working = working_of(alloc, started);
    let events = end(alloc, behaviour, outside, limit, None, &mut working)?;
    Ok(stepped(working, events))
}
