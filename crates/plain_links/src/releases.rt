//! Instances that are released.
ghost use Rattle.std.specs.Prelude.{◌≡◌, OnOk};
ghost use Rattle.plain_queues.specs.mean_blocks.LinkEffects.{each};
ghost use Rattle.plain_queues.specs.mean_blocks.InstanceEffects.{descendants, without};
ghost use Rattle.plain_queues.specs.mean_blocks.InstanceEffects.{untied};
ghost use Rattle.plain_queues.specs.mean_blocks.InstanceEffects.{released};
ghost use Rattle.plain_queues.specs.plain_systems.HeldSystems.{situation_of};
ghost use Rattle.plain_links.specs.ChangedSystems.{all_untied};

use crate::connections::{detach_above, disconnect};
use plain_attachments::instances::external_of;
use plain_attachments::losses::keep_links;
use plain_births::losses::{descendants, keep_rows, keep_stamps};
use plain_queues::losses::keep_queues;
use plain_queues::mean_blocks::situation::InteractionPoint;
use plain_queues::plain_systems::system::System;
use plain_queues::plain_texts::text::Text;
use std::alloc::{AllocError, Global};

// These instances go, with their queues, links and stamps.
fn remove(alloc: Global, gone: &[u32], system: &mut System) -> Result<(), AllocError>
    ensures { OnOk result (situation_of system.new
        ≡ without gone.now (situation_of system.old)) }
{
    keep_rows(alloc, gone, &mut system.rows)?;
    keep_links(alloc, gone, &mut system.peers)?;
    keep_links(alloc, gone, &mut system.downs)?;
    keep_queues(alloc, gone, &mut system.queues)?;
    keep_stamps(alloc, gone, &mut system.stamps)?;
    Ok(())
}

// An external interaction point of a child is detached and disconnected.
fn untie(
    alloc: Global,
    text: &Text,
    point: &InteractionPoint,
    system: &mut System,
) -> Result<(), AllocError>
    ensures { OnOk result (situation_of system.new
        ≡ untied text.now point.now (situation_of system.old)) }
{
    detach_above(alloc, text, point, system)?;
    disconnect(alloc, point, system)?;
    Ok(())
}

// External interaction points of a child are detached and disconnected in order.
fn untie_each(
    alloc: Global,
    text: &Text,
    points: &[InteractionPoint],
    system: &mut System,
) -> Result<(), AllocError>
    ensures { OnOk result (situation_of system.new
        ≡ each (untied text.now) points.now (situation_of system.old)) }
{
    for point in points {
        untie(alloc, text, point, system)?;
    }
    Ok(())
}

// The external interaction points of a child are detached and disconnected.
fn untie_all(alloc: Global, text: &Text, child: u32, system: &mut System) -> Result<(), AllocError>
    ensures { OnOk result (situation_of system.new
        ≡ all_untied text.now child (situation_of system.old)) }
{
    let points = external_of(alloc, text.outline(), system, child)?;
    let done = untie_each(alloc, text, points.as_slice(), system);
    drop(points);
    done?;
    Ok(())
}

/// A child is released: its external interaction points are detached and disconnected, and it goes
/// with its descendants. Errs where memory runs out.
pub fn release(
    alloc: Global,
    text: &Text,
    child: u32,
    system: &mut System,
) -> Result<(), AllocError>
    ensures { OnOk result (situation_of system.new
        ≡ released text.now child (situation_of system.old)) }
{
    untie_all(alloc, text, child, system)?;
    let gone = descendants(alloc, child, system.rows.get())?;
    let done = remove(alloc, gone.as_slice(), system);
    drop(gone);
    done?;
    Ok(())
}
