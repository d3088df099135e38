//! Places of variables, and the values there.
ghost use Rattle.std.specs.Prelude.{◌≡◌, Ok, Err, IfOk, MatchResult};
ghost use Rattle.plain_declared.specs.mean_blocks.Outcome.{on_ok};
ghost use Rattle.plain_declared.specs.mean_blocks.Frames.{slot_of, value_in, held_by, whole};
ghost use Rattle.plain_declared.specs.mean_blocks.Frames.{place_of};
ghost use Rattle.plain_declared.specs.mean_blocks.Frames.{read_at};
ghost use Rattle.plain_systems.specs.HeldSystems.{situation_of};

use crate::names::{found, value_in};
use est_syntax::est_items::{Items, Twin};
use est_values::parts::part_at;
use est_values::value::Value;
use plain_declared::mean_blocks::fault::BlockFault;
use plain_declared::mean_blocks::frame::{Frame, Holder, Place, Slot};
use plain_systems::rows::row_of;
use plain_systems::system::System;
use std::alloc::{AllocError, Global};

/// The place of a whole variable.
pub fn whole(alloc: Global, holder: Holder, declared: u32) -> Place
    ensures { result ≡ whole holder declared }
{
    Place {
        holder,
        declared,
        path: Items::new(alloc),
    }
}

/// The place of a variable: in the innermost frame that has its name, and after all frames in the
/// instance. Errs where memory runs out.
pub fn place_of(
    alloc: Global,
    instance: u32,
    frames: &[Frame],
    declared: u32,
) -> Result<Place, AllocError>
    ensures { IfOk result (λ place. place ≡ place_of instance frames.now declared) }
{
    match found(declared, frames) {
        None => Ok(whole(alloc, Holder::Instance(instance), declared)),
        Some((number, slot)) => match slot {
            Slot::Place(place) => place.twin(alloc),
            _ => Ok(whole(alloc, Holder::Frame(number), declared)),
        },
    }
}

// The value of a whole variable.
fn value_held<'s>(
    holder: Holder,
    declared: u32,
    system: &'s System,
    frames: &'s [Frame],
) -> Result<&'s Value, BlockFault>
    ensures { MatchResult result
        (λ value. on_ok (held_by holder (situation_of system.now) frames.now)
        (λ frame. value_in (slot_of declared frame)) ≡ Ok value.now)
        (λ fault. on_ok (held_by holder (situation_of system.now) frames.now)
        (λ frame. value_in (slot_of declared frame)) ≡ Err fault) }
{
    match holder {
        Holder::Frame(number) => match frames.get(number) {
            None => Err(BlockFault::Undefined),
            Some(frame) => value_in(declared, frame),
        },
        Holder::Instance(number) => match row_of(system, number) {
            None => Err(BlockFault::NoModule),
            Some(row) => value_in(declared, &row.variables),
        },
    }
}

/// The value at a place.
pub fn read_at<'s>(
    place: &Place,
    system: &'s System,
    frames: &'s [Frame],
) -> Result<&'s Value, BlockFault>
    ensures { MatchResult result
        (λ value. read_at place.now (situation_of system.now) frames.now ≡ Ok value.now)
        (λ fault. read_at place.now (situation_of system.now) frames.now ≡ Err fault) }
{
    let value = value_held(place.holder, place.declared, system, frames)?;
    match part_at(value, place.path.as_slice()) {
        None => Err(BlockFault::Undefined),
        Some(part) => Ok(part),
    }
}
