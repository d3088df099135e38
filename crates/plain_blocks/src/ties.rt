//! What statements do to links, and releases.
ghost use Rattle.std.specs.Prelude.{◌≡◌, ℕ, Ok};
ghost use Rattle.plain_effects.specs.plain_systems.HeldSystems.{state_of};
ghost use Rattle.mean_blocks.specs.AnswersOfCalls.{Answers};
ghost use Rattle.mean_blocks.specs.InstanceEffects.{released};
ghost use Rattle.mean_blocks.specs.LinkEffects.{connected, attached, disconnected, detached_end};
ghost use Rattle.mean_blocks.specs.LinkEffects.{each};
ghost use Rattle.mean_blocks.specs.WorkingState.{changes};

use mean_blocks::situation::InteractionPoint;
use mean_blocks::stop::Stop;
use plain_effects::effects::Points;
use plain_effects::plain_operands::site::Site;
use plain_effects::plain_systems::system::Working;
use plain_links::{connections, releases};
use std::alloc::Global;

/// Two interaction points are connected.
pub fn link(
    alloc: Global,
    site: &Site,
    one: InteractionPoint,
    other: InteractionPoint,
    working: &mut Working,
) -> Result<(), Stop>
    ensures { (n : ℕ) → Answers (changes (connected site.now.text.now one other)
        (state_of working.old n)) result (state_of working.new n) }
{
    let linked = connections::connect(alloc, site.text, &one, &other, &mut working.system);
    drop(one);
    drop(other);
    linked?;
    Ok(())
}

/// An interaction point of this instance is attached to one of a child.
pub fn tie(
    alloc: Global,
    site: &Site,
    outer: InteractionPoint,
    inner: InteractionPoint,
    working: &mut Working,
) -> Result<(), Stop>
    ensures { (n : ℕ) → Answers (changes (attached site.now.text.now outer inner)
        (state_of working.old n)) result (state_of working.new n) }
{
    let attached = connections::attach(alloc, site.text, &outer, &inner, &mut working.system);
    drop(outer);
    drop(inner);
    attached?;
    Ok(())
}

/// Interaction points are disconnected in order.
pub fn unlink(alloc: Global, points: Points, working: &mut Working) -> Result<(), Stop>
    ensures { (n : ℕ) → Answers (changes (λ s. Ok (each disconnected points s))
        (state_of working.old n)) result (state_of working.new n) }
{
    let done = connections::disconnect_each(alloc, points.as_slice(), &mut working.system);
    drop(points);
    done?;
    Ok(())
}

/// Interaction points are detached in order.
pub fn loosen(alloc: Global, site: &Site, points: Points, working: &mut Working) -> Result<(), Stop>
    ensures { (n : ℕ) → Answers (changes
        (λ s. Ok (each (detached_end site.now.text.now site.now.instance) points s))
        (state_of working.old n)) result (state_of working.new n) }
{
    let system = &mut working.system;
    let done = connections::detach_each(alloc, site.text, site.instance, points.as_slice(), system);
    drop(points);
    done?;
    Ok(())
}

/// A child is released with all that goes with it.
pub fn free(alloc: Global, site: &Site, child: u32, working: &mut Working) -> Result<(), Stop>
    ensures { (n : ℕ) → Answers (changes (λ s. Ok (released site.now.text.now child s))
        (state_of working.old n)) result (state_of working.new n) }
{
    releases::release(alloc, site.text, child, &mut working.system)?;
    Ok(())
}
