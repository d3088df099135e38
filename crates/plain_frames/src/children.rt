//! The children that module variables hold.
ghost use Rattle.std.specs.Prelude.{◌≡◌, ℕ, Option, find, option_copied};
ghost use Rattle.std.specs.Option.{option_or};
ghost use Rattle.plain_declared.specs.mean_blocks.GlobalSituation.{is_element, is_holding, held};
ghost use Rattle.plain_declared.specs.mean_blocks.Frames.{found};
ghost use Rattle.plain_declared.specs.mean_blocks.ReachedVariables.{instance_by, living, held_in};
ghost use Rattle.plain_systems.specs.HeldSystems.{situation_of};
ghost use Rattle.plain_frames.specs.HeldFrames.{child_in};

use crate::names::found;
use est_syntax::kind::Ordinals;
use plain_declared::mean_blocks::fault::BlockFault;
use plain_declared::mean_blocks::frame::{Frame, Slot};
use plain_declared::mean_blocks::situation::{Element, Holding};
use plain_systems::rows::{lives, row_of};
use plain_systems::system::System;

/// Whether an element is that of a module variable with these subscripts.
pub fn is_element(declared: u32, index: &Ordinals, element: &Element) -> bool
    ensures { result ≡ is_element (record { declared = declared; index = index.now }) element.now }
{
    if declared == element.declared {
        index.as_slice() == element.index.as_slice()
    } else {
        false
    }
}

// What an element holds.
fn first_holding<'h>(
    declared: u32,
    index: &Ordinals,
    holdings: &'h [Holding],
) -> Option<&'h Holding>
    ensures { option_copied result
        ≡ find (is_holding (record { declared = declared; index = index.now })) holdings.now }
{
    holdings
        .iter()
        .find(|holding| is_element(declared, index, &holding.element))
}

/// The number of the instance that an element was given last, if it was.
pub fn held(declared: u32, index: &Ordinals, holdings: &[Holding]) -> Option<u32>
    ensures { result ≡ held (record { declared = declared; index = index.now }) holdings.now }
{
    match first_holding(declared, index, holdings) {
        None => None,
        Some(holding) => holding.number,
    }
}

// The same for an element of an instance.
fn held_in(system: &System, number: u32, declared: u32, index: &Ordinals) -> Option<u32>
    ensures { result ≡ held_in (situation_of system.now) number
        (record { declared = declared; index = index.now }) }
{
    match row_of(system, number) {
        None => None,
        Some(row) => held(declared, index, row.children.get().as_slice()),
    }
}

/// The instance that the name of an `all` stands for.
pub fn found_instance(frames: &[Frame], declared: u32) -> Option<u32>
    ensures { (other : Option ℕ)
        → instance_by (found declared frames.now) other ≡ option_or result other }
{
    match found(declared, frames) {
        None => None,
        Some((_, slot)) => match slot {
            Slot::Instance(number) => Some(*number),
            _ => None,
        },
    }
}

// An instance that lives.
fn living(system: &System, number: Option<u32>) -> Result<u32, BlockFault>
    ensures { result ≡ living (situation_of system.now) number }
{
    match number {
        None => Err(BlockFault::NoModule),
        Some(number) => {
            if lives(system, number) {
                Ok(number)
            } else {
                Err(BlockFault::NoModule)
            }
        }
    }
}

/// The child that a module variable of an instance holds, by the place of its name and its
/// subscripts.
pub fn child_of(
    system: &System,
    frames: &[Frame],
    instance: u32,
    declared: u32,
    index: &Ordinals,
) -> Result<u32, BlockFault>
    ensures { result ≡ child_in (situation_of system.now) instance frames.now declared index.now }
{
    match found_instance(frames, declared) {
        Some(number) => living(system, Some(number)),
        None => living(system, held_in(system, instance, declared, index)),
    }
}
