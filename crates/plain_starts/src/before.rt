//! The system before its first instance is begun.

ghost use Rattle.std.specs.Prelude.{◌≡◌, IfOk};
ghost use Rattle.plain_blocks.specs.plain_systems.HeldSystems.{situation_of};
ghost use Rattle.mean_blocks.specs.StartMeaning.{no_instances};

use est_syntax::est_items::{Items, Shared};
use plain_blocks::plain_systems::system::System;
use std::alloc::{AllocError, Global};

/// The system without instances, at the clock 0.
pub fn no_instances(alloc: Global) -> Result<System, AllocError>
    ensures { IfOk result (λ system. situation_of system ≡ no_instances) }
{
    let rows = Shared::new(alloc, Items::new(alloc))?;
    let peers = Shared::new(alloc, Items::new(alloc))?;
    let downs = Shared::new(alloc, Items::new(alloc))?;
    let queues = Shared::new(alloc, Items::new(alloc))?;
    let stamps = Shared::new(alloc, Items::new(alloc))?;
    Ok(System {
        rows,
        peers,
        downs,
        queues,
        stamps,
        clock: 0,
        next: 1,
    })
}
