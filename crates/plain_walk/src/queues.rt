//! Queues in which little waits.
ghost use Rattle.std.specs.Prelude.{◌≡◌, ◌∷◌, [], IfOk};
ghost use Rattle.est_meaning.specs.mean_blocks.QueueEffects.{queue_of};
ghost use Rattle.plain_frames.specs.plain_systems.HeldSystems.{queue_of as queue_by, waiting_in};
ghost use Rattle.plain_walk.specs.SentItems.{queue_with};

use est_meaning::mean_blocks::situation::Item;
use est_syntax::est_items::{Items, Shared, Twin};
use est_values::Queue;
use plain_frames::plain_systems::system::{Queues, System, Waiting};
use plain_queues::keys::queue_of;
use plain_queues::plain_texts::text::Text;
use std::alloc::{AllocError, Global};

// The queue of an item, in which it waits alone.
fn waiting_of(alloc: Global, text: &Text, item: &Item) -> Result<Waiting, AllocError>
    ensures queue { IfOk result (λ waiting. queue_by waiting.queue
        ≡ queue_of text.now item.now.at) }
    ensures items { IfOk result (λ waiting. waiting.items ≡ item.now ∷ []) }
{
    let queue = queue_of(alloc, text, &item.at)?;
    let mut items = Queue::new(alloc)?;
    let item = item.twin(alloc)?;
    items.put(alloc, item)?;
    Ok(Waiting { queue, items })
}

/// Queues in which nothing waits but this, if it is given.
pub(crate) fn queues_with(
    alloc: Global,
    text: &Text,
    item: &Option<Item>,
) -> Result<Shared<Queues>, AllocError>
    ensures { IfOk result (λ queues. waiting_in queues ≡ queue_with text.now item.now) }
{
    let mut queues = Items::new(alloc);
    match item {
        None => Shared::new(alloc, queues),
        Some(item) => {
            queues.push(waiting_of(alloc, text, item)?)?;
            Shared::new(alloc, queues)
        }
    }
}

/// The queues of a system, which is let go of.
pub(crate) fn queues_of(system: System) -> Shared<Queues>
    ensures { result ≡ system.queues }
{
    let System {
        rows,
        peers,
        downs,
        queues,
        stamps,
        clock: _,
        next: _,
    } = system;
    drop(rows);
    drop(peers);
    drop(downs);
    drop(stamps);
    queues
}
