//! What outputs do.
ghost use Rattle.std.specs.Prelude.{◌≡◌, ◌∷◌, [], None, IfOk, OnOk};
ghost use Rattle.plain_queues.specs.mean_blocks.QueueEffects.{appended};
ghost use Rattle.plain_queues.specs.mean_blocks.OutputEffects.{is_outside};
ghost use Rattle.plain_queues.specs.mean_blocks.OutputEffects.{delivered_at, crossed};
ghost use Rattle.plain_queues.specs.mean_blocks.OutputEffects.{sent};
ghost use Rattle.plain_queues.specs.plain_systems.HeldSystems.{linked, situation_of};
ghost use Rattle.plain_outputs.specs.SentItems.{sent_of};

use est_syntax::est_items::Twin;
use plain_attachments::attachments::{bottom, up};
use plain_attachments::instances::header_of;
use plain_attachments::links::linked;
use plain_points::declared::is_declared;
use plain_queues::keys::queue_of;
use plain_queues::mean_blocks::situation::{InteractionPoint, Item};
use plain_queues::plain_systems::system::{System, Working};
use plain_queues::plain_texts::text::Text;
use plain_queues::queues::{at_point, put};
use std::alloc::{AllocError, Global};

// The number of the root.
const ROOT: u32 = 1;

// Whether an interaction point is an external one of the root.
fn is_outside(
    alloc: Global,
    text: &Text,
    system: &System,
    point: &InteractionPoint,
) -> Result<bool, AllocError>
    ensures { IfOk result (λ outside. outside
        ≡ is_outside text.now (situation_of system.now) point.now) }
{
    if point.instance != ROOT {
        return Ok(false);
    }
    match header_of(text.outline(), system, ROOT) {
        None => Ok(false),
        Some(header) => is_declared(alloc, text.outline(), header, point),
    }
}

// An item goes to the end of the queue of its interaction point.
fn put_at(alloc: Global, text: &Text, item: Item, system: &mut System) -> Result<(), AllocError>
    ensures { OnOk result (situation_of system.new
        ≡ appended text.now item.at (item ∷ []) (situation_of system.old)) }
{
    let Ok(key) = queue_of(alloc, text, &item.at) else {
        drop(item);
        return Err(AllocError);
    };
    let done = put(alloc, &key, item, &mut system.queues);
    drop(key);
    done?;
    Ok(())
}

/// An item goes into the queue of the innermost interaction point below one. Errs where memory runs
/// out.
pub fn deliver_at(
    alloc: Global,
    text: &Text,
    point: &InteractionPoint,
    item: Item,
    system: &mut System,
) -> Result<(), AllocError>
    ensures { OnOk result (situation_of system.new
        ≡ delivered_at text.now point.now item (situation_of system.old)) }
{
    let Ok(at) = bottom(alloc, system, point) else {
        drop(item);
        return Err(AllocError);
    };
    put_at(alloc, text, at_point(at, item), system)?;
    Ok(())
}

// The interaction point to which one is connected, if it is.
fn other_end(
    alloc: Global,
    system: &System,
    point: &InteractionPoint,
) -> Result<Option<InteractionPoint>, AllocError>
    ensures { IfOk result (λ other. other ≡ linked system.now.peers point.now) }
{
    match linked(system.peers.get(), point) {
        None => Ok(None),
        Some(other) => {
            let other = other.twin(alloc)?;
            Ok(Some(other))
        }
    }
}

// An item leaves the system at the top of its climb, or is lost there.
fn leave(
    alloc: Global,
    text: &Text,
    top: InteractionPoint,
    item: Item,
    working: &mut Working,
) -> Result<(), AllocError>
    ensures sent { OnOk result (sent_of working.new
        ≡ crossed text.now item top None (sent_of working.old)) }
    ensures frames { OnOk result (working.new.frames ≡ working.old.frames) }
{
    match is_outside(alloc, text, &working.system, &top) {
        Err(error) => {
            drop(top);
            drop(item);
            Err(error)
        }
        Ok(false) => {
            drop(top);
            drop(item);
            Ok(())
        }
        Ok(true) => {
            working.outs.push(at_point(top, item))?;
            Ok(())
        }
    }
}

/// An item is sent: it climbs from its interaction point, crosses a connection and goes down into a
/// queue, or leaves the system, or is lost. Errs where memory runs out.
pub fn deliver(
    alloc: Global,
    text: &Text,
    item: Item,
    working: &mut Working,
) -> Result<(), AllocError>
    ensures sent { OnOk result (sent_of working.new
        ≡ sent text.now item (sent_of working.old)) }
    ensures frames { OnOk result (working.new.frames ≡ working.old.frames) }
{
    let Ok(top) = up(alloc, text, &working.system, &item.at) else {
        drop(item);
        return Err(AllocError);
    };
    match other_end(alloc, &working.system, &top) {
        Err(error) => {
            drop(top);
            drop(item);
            Err(error)
        }
        Ok(Some(other)) => {
            drop(top);
            let done = deliver_at(alloc, text, &other, item, &mut working.system);
            drop(other);
            done?;
            Ok(())
        }
        Ok(None) => {
            leave(alloc, text, top, item, working)?;
            Ok(())
        }
    }
}
