//! Queues that are one, and the queues of interaction points.
ghost use Rattle.std.specs.Prelude.{◌≡◌, IfOk};
ghost use Rattle.plain_texts.specs.mean_blocks.GlobalSituation.{is_point, is_queue};
ghost use Rattle.plain_texts.specs.mean_blocks.QueueEffects.{queue_of};
ghost use Rattle.plain_systems.specs.HeldSystems.{queue_of as queue_by};

use est_syntax::est_items::Twin;
use est_syntax::header::Queue;
use plain_systems::points::is_point;
use plain_systems::system::QueueKey;
use plain_texts::mean_blocks::situation::InteractionPoint;
use plain_texts::text::Text;
use std::alloc::{AllocError, Global};

/// Whether both are one queue.
pub fn is_queue(one: &QueueKey, other: &QueueKey) -> bool
    ensures { result ≡ is_queue (queue_by one.now) (queue_by other.now) }
{
    match (one, other) {
        (QueueKey::Own(one), QueueKey::Own(other)) => is_point(one, other),
        (QueueKey::Common(one), QueueKey::Common(other)) => one == other,
        _ => false,
    }
}

/// The queue of an interaction point.
pub fn queue_of(
    alloc: Global,
    text: &Text,
    point: &InteractionPoint,
) -> Result<QueueKey, AllocError>
    ensures { IfOk result (λ key. queue_by key ≡ queue_of text.now point.now) }
{
    match text.discipline(point.declared) {
        Queue::Individual => {
            let point = point.twin(alloc)?;
            Ok(QueueKey::Own(point))
        }
        Queue::Common => Ok(QueueKey::Common(point.instance)),
    }
}
