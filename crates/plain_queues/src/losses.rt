//! Queues of instances that are released.
ghost use Rattle.std.specs.Prelude.{◌≡◌, OnOk};
ghost use Rattle.plain_texts.specs.mean_blocks.InstanceEffects.{is_among, owner};
ghost use Rattle.plain_systems.specs.HeldSystems.{queue_of, waiting_in};
ghost use Rattle.plain_queues.specs.LostQueues.{queues_without};

use est_syntax::est_items::Shared;
use plain_systems::points::is_among;
use plain_systems::system::{QueueKey, Queues};
use std::alloc::{AllocError, Global};

// The instance of a queue.
fn owner(key: &QueueKey) -> u32
    ensures { result ≡ owner (queue_of key.now) }
{
    match key {
        QueueKey::Own(point) => point.instance,
        QueueKey::Common(instance) => *instance,
    }
}

/// The queues of other instances are left. Errs where memory runs out.
pub fn keep_queues(
    alloc: Global,
    gone: &[u32],
    queues: &mut Shared<Queues>,
) -> Result<(), AllocError>
    ensures { OnOk result (waiting_in queues.new
        ≡ queues_without gone.now (waiting_in queues.old)) }
{
    let queues = queues.own(alloc)?;
    queues
        .items
        .retain(|waiting| !is_among(gone, owner(&waiting.queue)));
    Ok(())
}
