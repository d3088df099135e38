//! The heads of queues.
ghost use Rattle.std.specs.Prelude.{◌≡◌, IfOk, OnOk, find, option_copied};
ghost use Rattle.plain_texts.specs.mean_blocks.GlobalSituation.{is_queue};
ghost use Rattle.plain_texts.specs.mean_blocks.QueueEffects.{queue_by, head_at, without_head};
ghost use Rattle.plain_systems.specs.HeldSystems.{queue_of as queue_of_key, is_waiting};
ghost use Rattle.plain_systems.specs.HeldSystems.{situation_of};

use crate::keys::queue_of;
use crate::queues::take;
use est_syntax::header::Queue;
use plain_systems::points::is_point;
use plain_systems::system::{QueueKey, Queues, System, Waiting};
use plain_texts::mean_blocks::situation::{InteractionPoint, Item};
use plain_texts::text::Text;
use std::alloc::{AllocError, Global};

// Whether a queue is that of an interaction point of this discipline.
fn is_queue_by(point: &InteractionPoint, discipline: Queue, key: &QueueKey) -> bool
    ensures { result ≡ is_queue (queue_by point.now discipline) (queue_of_key key.now) }
{
    match (discipline, key) {
        (Queue::Individual, QueueKey::Own(other)) => is_point(point, other),
        (Queue::Common, QueueKey::Common(instance)) => point.instance == *instance,
        _ => false,
    }
}

// The queue of an interaction point of this discipline, if it stands there.
fn queue_at<'s>(
    discipline: Queue,
    point: &InteractionPoint,
    queues: &'s Queues,
) -> Option<&'s Waiting>
    ensures { option_copied result ≡ find (is_waiting (queue_by point.now discipline)) queues.now }
{
    queues
        .as_slice()
        .iter()
        .find(|waiting| is_queue_by(point, discipline, &waiting.queue))
}

/// The first item of the queue in which those of an interaction point wait, if there is one. Of a
/// common queue it may belong to another interaction point.
pub fn head_at<'s>(text: &Text, point: &InteractionPoint, system: &'s System) -> Option<&'s Item>
    ensures { option_copied result ≡ head_at text.now point.now (situation_of system.now) }
{
    let discipline = text.discipline(point.declared);
    match queue_at(discipline, point, system.queues.get()) {
        None => None,
        Some(waiting) => waiting.items.head(),
    }
}

/// Takes that item. Errs where memory runs out.
pub fn take_head(
    alloc: Global,
    text: &Text,
    point: &InteractionPoint,
    system: &mut System,
) -> Result<Option<Item>, AllocError>
    ensures item { IfOk result (λ item. item
        ≡ head_at text.now point.now (situation_of system.old)) }
    ensures rest { OnOk result (situation_of system.new
        ≡ without_head text.now point.now (situation_of system.old)) }
{
    let key = queue_of(alloc, text, point)?;
    let taken = take(alloc, &key, &mut system.queues);
    drop(key);
    let item = taken?;
    Ok(item)
}
