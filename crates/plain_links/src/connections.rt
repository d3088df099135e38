//! Connections and attachments that statements make and undo.
ghost use Rattle.std.specs.Prelude.{◌≡◌, IfOk, OnOk};
ghost use Rattle.plain_queues.specs.mean_blocks.QueueEffects.{moved};
ghost use Rattle.plain_queues.specs.mean_blocks.LinkEffects.{is_taken, connected};
ghost use Rattle.plain_queues.specs.mean_blocks.LinkEffects.{attached};
ghost use Rattle.plain_queues.specs.mean_blocks.LinkEffects.{disconnected};
ghost use Rattle.plain_queues.specs.mean_blocks.LinkEffects.{detached, detached_above};
ghost use Rattle.plain_queues.specs.mean_blocks.LinkEffects.{detached_end, each};
ghost use Rattle.plain_queues.specs.plain_systems.HeldSystems.{situation_of};
ghost use Rattle.plain_births.specs.plain_frames.HeldFrames.{Leaves};
ghost use Rattle.plain_links.specs.ChangedSystems.{tied, fastened, unfastened};

use est_syntax::est_items::Twin;
use plain_attachments::attachments::{above, bottom};
use plain_attachments::links::{link, linked, unlink};
use plain_queues::keys::queue_of;
use plain_queues::mean_blocks::fault::BlockFault;
use plain_queues::mean_blocks::situation::InteractionPoint;
use plain_queues::mean_blocks::stop::Stop;
use plain_queues::plain_systems::points::is_point;
use plain_queues::plain_systems::system::System;
use plain_queues::plain_texts::text::Text;
use plain_queues::queues::transfer;
use std::alloc::{AllocError, Global};

// Whether an end is taken: it has a connection, or an attachment to its parent.
fn is_taken(
    alloc: Global,
    text: &Text,
    system: &System,
    point: &InteractionPoint,
) -> Result<bool, AllocError>
    ensures { IfOk result (λ taken. taken
        ≡ is_taken text.now (situation_of system.now) point.now) }
{
    if linked(system.peers.get(), point).is_some() {
        return Ok(true);
    }
    Ok(above(alloc, text, system, point)?.is_some())
}

// Ties two interaction points both ways.
fn tie(
    alloc: Global,
    one: &InteractionPoint,
    other: &InteractionPoint,
    system: &mut System,
) -> Result<(), AllocError>
    ensures { OnOk result (situation_of system.new
        ≡ tied one.now other.now (situation_of system.old)) }
{
    link(alloc, other, one, &mut system.peers)?;
    link(alloc, one, other, &mut system.peers)?;
    Ok(())
}

/// Two interaction points are connected.
pub fn connect(
    alloc: Global,
    text: &Text,
    one: &InteractionPoint,
    other: &InteractionPoint,
    system: &mut System,
) -> Result<(), Stop>
    ensures { Leaves (connected text.now one.now other.now (situation_of system.old)) result
        (situation_of system.new) }
{
    if is_point(one, other) {
        return Err(Stop::Fault(BlockFault::SelfLink));
    }
    if is_taken(alloc, text, system, one)? {
        return Err(Stop::Fault(BlockFault::LinkTaken));
    }
    if is_taken(alloc, text, system, other)? {
        return Err(Stop::Fault(BlockFault::LinkTaken));
    }
    tie(alloc, one, other, system)?;
    Ok(())
}

// The items of one interaction point go to the end of the queue of another.
fn move_items(
    alloc: Global,
    text: &Text,
    from: &InteractionPoint,
    to: &InteractionPoint,
    system: &mut System,
) -> Result<(), AllocError>
    ensures { OnOk result (situation_of system.new
        ≡ moved text.now from.now to.now (situation_of system.old)) }
{
    let out_of = queue_of(alloc, text, from)?;
    let into = queue_of(alloc, text, to)?;
    let done = transfer(alloc, from, &out_of, to, &into, &mut system.queues);
    drop(out_of);
    drop(into);
    done?;
    Ok(())
}

// An interaction point is attached to one of a child, whatever ties they have.
fn fasten(
    alloc: Global,
    text: &Text,
    outer: &InteractionPoint,
    inner: &InteractionPoint,
    system: &mut System,
) -> Result<(), AllocError>
    ensures { OnOk result (situation_of system.new
        ≡ fastened text.now outer.now inner.now (situation_of system.old)) }
{
    let innermost = bottom(alloc, system, inner)?;
    let done = move_items(alloc, text, outer, &innermost, system);
    drop(innermost);
    done?;
    link(alloc, outer, inner, &mut system.downs)?;
    Ok(())
}

/// An interaction point is attached to one of a child: its items go to the innermost point below
/// that.
pub fn attach(
    alloc: Global,
    text: &Text,
    outer: &InteractionPoint,
    inner: &InteractionPoint,
    system: &mut System,
) -> Result<(), Stop>
    ensures { Leaves (attached text.now outer.now inner.now (situation_of system.old)) result
        (situation_of system.new) }
{
    if linked(system.downs.get(), outer).is_some() {
        return Err(Stop::Fault(BlockFault::LinkTaken));
    }
    if is_taken(alloc, text, system, inner)? {
        return Err(Stop::Fault(BlockFault::LinkTaken));
    }
    fasten(alloc, text, outer, inner, system)?;
    Ok(())
}

/// An interaction point has no connection any more. Errs where memory runs out.
pub fn disconnect(
    alloc: Global,
    point: &InteractionPoint,
    system: &mut System,
) -> Result<(), AllocError>
    ensures { OnOk result (situation_of system.new
        ≡ disconnected point.now (situation_of system.old)) }
{
    match linked(system.peers.get(), point) {
        None => Ok(()),
        Some(other) => {
            let other = other.twin(alloc)?;
            let first = unlink(alloc, &other, &mut system.peers);
            drop(other);
            first?;
            unlink(alloc, point, &mut system.peers)?;
            Ok(())
        }
    }
}

// An attachment ends, whether there is one or not.
fn loosen(
    alloc: Global,
    text: &Text,
    outer: &InteractionPoint,
    system: &mut System,
) -> Result<(), AllocError>
    ensures { OnOk result (situation_of system.new
        ≡ unfastened text.now outer.now (situation_of system.old)) }
{
    let innermost = bottom(alloc, system, outer)?;
    let done = move_items(alloc, text, &innermost, outer, system);
    drop(innermost);
    done?;
    unlink(alloc, outer, &mut system.downs)?;
    Ok(())
}

/// An interaction point is attached to none of a child any more: the items of the innermost point
/// below come back. Errs where memory runs out.
pub fn detach(
    alloc: Global,
    text: &Text,
    outer: &InteractionPoint,
    system: &mut System,
) -> Result<(), AllocError>
    ensures { OnOk result (situation_of system.new
        ≡ detached text.now outer.now (situation_of system.old)) }
{
    match linked(system.downs.get(), outer) {
        None => Ok(()),
        Some(_) => {
            loosen(alloc, text, outer, system)?;
            Ok(())
        }
    }
}

/// What is attached to an interaction point of a child is detached. Errs where memory runs out.
pub fn detach_above(
    alloc: Global,
    text: &Text,
    inner: &InteractionPoint,
    system: &mut System,
) -> Result<(), AllocError>
    ensures { OnOk result (situation_of system.new
        ≡ detached_above text.now inner.now (situation_of system.old)) }
{
    match above(alloc, text, system, inner)? {
        None => Ok(()),
        Some(outer) => {
            let done = detach(alloc, text, &outer, system);
            drop(outer);
            done?;
            Ok(())
        }
    }
}

/// An interaction point of an instance, or one of a child, is detached. Errs where memory runs out.
pub fn detach_end(
    alloc: Global,
    text: &Text,
    instance: u32,
    point: &InteractionPoint,
    system: &mut System,
) -> Result<(), AllocError>
    ensures { OnOk result (situation_of system.new
        ≡ detached_end text.now instance point.now (situation_of system.old)) }
{
    if instance == point.instance {
        detach(alloc, text, point, system)?;
        Ok(())
    } else {
        detach_above(alloc, text, point, system)?;
        Ok(())
    }
}

/// Interaction points are disconnected in order. Errs where memory runs out.
pub fn disconnect_each(
    alloc: Global,
    points: &[InteractionPoint],
    system: &mut System,
) -> Result<(), AllocError>
    ensures { OnOk result (situation_of system.new
        ≡ each disconnected points.now (situation_of system.old)) }
{
    for point in points {
        disconnect(alloc, point, system)?;
    }
    Ok(())
}

/// Interaction points of an instance, or of a child, are detached in order. Errs where memory runs
/// out.
pub fn detach_each(
    alloc: Global,
    text: &Text,
    instance: u32,
    points: &[InteractionPoint],
    system: &mut System,
) -> Result<(), AllocError>
    ensures { OnOk result (situation_of system.new
        ≡ each (detached_end text.now instance) points.now (situation_of system.old)) }
{
    for point in points {
        detach_end(alloc, text, instance, point, system)?;
    }
    Ok(())
}
