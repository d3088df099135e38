//! Queues, and items that wait in them.
ghost use Rattle.std.specs.Prelude.{◌≡◌, ◌∷◌, [], ◌++◌, IfOk, OnOk, Some, map, not, drop};
ghost use Rattle.std.specs.Prelude.{slice_get};
ghost use Rattle.std.specs.List.{filter, position};
ghost use Rattle.plain_texts.specs.mean_blocks.QueueEffects.{belongs, passed_to};
ghost use Rattle.plain_systems.specs.HeldSystems.{queue_of, is_waiting, waiting_in};
ghost use Rattle.plain_queues.specs.ChangedQueues.{transferred, with_items};

use crate::keys::is_queue;
use est_syntax::est_items::{Items, Shared, Twin};
use est_values::Queue;
use plain_systems::points::is_point;
use plain_systems::system::{QueueKey, Queues, Waiting};
use plain_texts::mean_blocks::situation::{InteractionPoint, Item};
use std::alloc::{AllocError, Global};

// Where a queue stands.
fn position(key: &QueueKey, queues: &Queues) -> Option<usize>
    ensures { result ≡ position (is_waiting (queue_of key.now)) queues.now }
{
    queues
        .as_slice()
        .iter()
        .position(|waiting| is_queue(key, &waiting.queue))
}

// A queue in which no item waits.
fn fresh(alloc: Global, key: &QueueKey) -> Result<Waiting, AllocError>
    ensures queue { IfOk result (λ waiting. waiting.queue ≡ key.now) }
    ensures items { IfOk result (λ waiting. waiting.items ≡ []) }
{
    let queue = key.twin(alloc)?;
    let items = Queue::new(alloc)?;
    Ok(Waiting { queue, items })
}

// Where a queue stands, which is put there if it is not.
fn room(alloc: Global, key: &QueueKey, queues: &mut Queues) -> Result<usize, AllocError>
    ensures same { OnOk result (waiting_in queues.new ≡ waiting_in queues.old) }
    ensures there { IfOk result
        (λ at. position (is_waiting (queue_of key.now)) queues.new ≡ Some at) }
{
    match position(key, queues) {
        Some(at) => Ok(at),
        None => {
            let at = queues.len();
            let waiting = fresh(alloc, key)?;
            queues.push(waiting)?;
            Ok(at)
        }
    }
}

// Puts items at the end of a queue.
fn put_all(alloc: Global, items: &[Item], queue: &mut Queue<Item>) -> Result<(), AllocError>
    ensures { OnOk result (queue.new ≡ queue.old ++ items.now) }
{
    for item in items {
        let item = item.twin(alloc)?;
        queue.put(alloc, item)?;
    }
    Ok(())
}

/// Puts an item at the end of a queue. Errs where memory runs out.
pub fn put(
    alloc: Global,
    key: &QueueKey,
    item: Item,
    queues: &mut Shared<Queues>,
) -> Result<(), AllocError>
    ensures { OnOk result (waiting_in queues.new ≡ with_items (queue_of key.now)
        (waiting_in queues.old (queue_of key.now) ++ item ∷ []) (waiting_in queues.old)) }
{
    let queues = queues.own(alloc)?;
    let at = room(alloc, key, queues)?;
    queues.items[at].items.put(alloc, item)?;
    Ok(())
}

/// Puts items at the end of a queue. Errs where memory runs out.
pub fn append(
    alloc: Global,
    key: &QueueKey,
    items: &[Item],
    queues: &mut Shared<Queues>,
) -> Result<(), AllocError>
    ensures { OnOk result (waiting_in queues.new ≡ with_items (queue_of key.now)
        (waiting_in queues.old (queue_of key.now) ++ items.now) (waiting_in queues.old)) }
{
    let queues = queues.own(alloc)?;
    let at = room(alloc, key, queues)?;
    put_all(alloc, items, &mut queues.items[at].items)?;
    Ok(())
}

/// Takes the first item of a queue, if there is one. Errs where memory runs out.
pub fn take(
    alloc: Global,
    key: &QueueKey,
    queues: &mut Shared<Queues>,
) -> Result<Option<Item>, AllocError>
    ensures item { IfOk result (λ item. item
        ≡ slice_get (waiting_in queues.old (queue_of key.now)) 0) }
    ensures rest { OnOk result (waiting_in queues.new ≡ with_items (queue_of key.now)
        (drop 1 (waiting_in queues.old (queue_of key.now))) (waiting_in queues.old)) }
{
    match position(key, queues.get()) {
        None => Ok(None),
        Some(at) => {
            let queues = queues.own(alloc)?;
            let item = queues.items[at].items.take(alloc)?;
            Ok(item)
        }
    }
}

// Items of a queue: those that are yet to be looked at, those that stay, and those that move.
#[derive(Drop)]
struct Parted {
    rest: Queue<Item>,
    stay: Queue<Item>,
    moved: Items<Item>,
}

// A queue, of which nothing is looked at yet.
fn unparted(alloc: Global, queue: &Queue<Item>) -> Result<Parted, AllocError>
    ensures rest { IfOk result (λ parted. parted.rest ≡ queue.now) }
    ensures stay { IfOk result (λ parted. parted.stay ≡ []) }
    ensures moved { IfOk result (λ parted. parted.moved ≡ []) }
{
    let rest = queue.twin(alloc)?;
    let stay = Queue::new(alloc)?;
    Ok(Parted {
        rest,
        stay,
        moved: Items::new(alloc),
    })
}

/// An item that belongs to this interaction point.
pub fn at_point(at: InteractionPoint, item: Item) -> Item
    ensures { result ≡ passed_to at item }
{
    let Item {
        at: before,
        signal,
        values,
    } = item;
    drop(before);
    Item { at, signal, values }
}

// An item that belongs to another interaction point.
fn passed_to(alloc: Global, to: &InteractionPoint, item: Item) -> Result<Item, AllocError>
    ensures { IfOk result (λ passed. passed ≡ passed_to to.now item) }
{
    let Ok(at) = to.twin(alloc) else {
        drop(item);
        return Err(AllocError);
    };
    Ok(at_point(at, item))
}

// An item moves if it belongs to an interaction point, and else stays.
fn part(
    alloc: Global,
    from: &InteractionPoint,
    to: &InteractionPoint,
    item: Item,
    parted: &mut Parted,
) -> Result<(), AllocError>
    ensures rest { OnOk result (parted.new.rest ≡ parted.old.rest) }
    ensures stay { OnOk result (parted.new.stay
        ≡ parted.old.stay ++ filter (λ i. not (belongs from.now i)) (item ∷ [])) }
    ensures moved { OnOk result (parted.new.moved
        ≡ parted.old.moved ++ map (passed_to to.now) (filter (belongs from.now) (item ∷ []))) }
{
    if is_point(from, &item.at) {
        let item = passed_to(alloc, to, item)?;
        parted.moved.push(item)?;
    } else {
        parted.stay.put(alloc, item)?;
    }
    Ok(())
}

// Takes the items that belong to an interaction point out of a queue. They then belong to another.
fn withdraw(
    alloc: Global,
    from: &InteractionPoint,
    to: &InteractionPoint,
    queue: &mut Queue<Item>,
) -> Result<Items<Item>, AllocError>
    ensures stay { OnOk result (queue.new ≡ filter (λ i. not (belongs from.now i)) queue.old) }
    ensures moved { IfOk result (λ moved. moved
        ≡ map (passed_to to.now) (filter (belongs from.now) queue.old)) }
{
    let mut parted = unparted(alloc, queue)?;
    while let Some(item) = parted.rest.take(alloc)? {
        part(alloc, from, to, item, &mut parted)?;
    }
    let Parted {
        rest: _,
        stay,
        moved,
    } = parted;
    *queue = stay;
    Ok(moved)
}

// The same out of the queue that stands under a key.
fn take_out(
    alloc: Global,
    from: &InteractionPoint,
    to: &InteractionPoint,
    key: &QueueKey,
    queues: &mut Shared<Queues>,
) -> Result<Items<Item>, AllocError>
    ensures stay { OnOk result (waiting_in queues.new ≡ with_items (queue_of key.now)
        (filter (λ i. not (belongs from.now i)) (waiting_in queues.old (queue_of key.now)))
        (waiting_in queues.old)) }
    ensures moved { IfOk result (λ moved. moved ≡ map (passed_to to.now)
        (filter (belongs from.now) (waiting_in queues.old (queue_of key.now)))) }
{
    match position(key, queues.get()) {
        None => Ok(Items::new(alloc)),
        Some(at) => {
            let queues = queues.own(alloc)?;
            let moved = withdraw(alloc, from, to, &mut queues.items[at].items)?;
            Ok(moved)
        }
    }
}

/// Items of one interaction point go, in order, to the end of the queue of another, to which they
/// then belong. Errs where memory runs out.
pub fn transfer(
    alloc: Global,
    from: &InteractionPoint,
    out_of: &QueueKey,
    to: &InteractionPoint,
    into: &QueueKey,
    queues: &mut Shared<Queues>,
) -> Result<(), AllocError>
    ensures { OnOk result (waiting_in queues.new ≡ transferred from.now (queue_of out_of.now)
        to.now (queue_of into.now) (waiting_in queues.old)) }
{
    let moved = take_out(alloc, from, to, out_of, queues)?;
    let appended = append(alloc, into, moved.as_slice(), queues);
    drop(moved);
    appended?;
    Ok(())
}
