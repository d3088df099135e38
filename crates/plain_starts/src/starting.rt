//! The start of a system.

ghost use Rattle.std.specs.Prelude.{◌≡◌};
ghost use Rattle.mean_blocks.specs.StartMeaning.{start_before};
ghost use Rattle.plain_starts.specs.StartedSystems.{Starts};

use crate::before::no_instances;
use est_syntax::est_items::Items;
use mean_blocks::stop::Stop;
use plain_blocks::plain_operands::site::Site;
use plain_blocks::plain_systems::system::{Outs, System, Working};
use plain_blocks::plain_texts::text::Text;
use plain_blocks::statements::statement_of;
use std::alloc::Global;

// How many levels calls and initialize parts may open within one another.
const MOST_LEVELS: u32 = 32;

/// A system that has started, before delays are stamped, with what was sent out of it.
#[derive(Drop)]
pub struct Started {
    pub system: System,
    pub outs: Outs,
}

/// Starts the system of a specification, under a limit on statements.
pub fn start(alloc: Global, text: &Text, limit: u32) -> Result<Started, Stop>
    ensures { Starts (start_before text.now limit) result }
{
    let site = Site {
        text,
        instance: 0,
        function: false,
        levels: MOST_LEVELS,
    };
    let mut working = Working {
        system: no_instances(alloc)?,
        outs: Items::new(alloc),
        frames: Items::new(alloc),
    };
    let mut left = limit;
    statement_of(alloc, &site, &text.spec().first, &mut working, &mut left)?;
    Ok(left_by(working))
}

// What a block leaves.
fn left_by(working: Working) -> Started
    ensures { result ≡ record { system = working.system; outs = working.outs } }
{
    let Working {
        system,
        outs,
        frames,
    } = working;
    drop(frames);
    Started { system, outs }
}
