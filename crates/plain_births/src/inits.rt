//! Instances that are begun by statements.
ghost use Rattle.std.specs.Prelude.{◌≡◌, ◌++◌, IfOk, OnOk};
ghost use Rattle.plain_texts.specs.mean_blocks.AnswersOfCalls.{Says};
ghost use Rattle.plain_texts.specs.mean_blocks.FunctionCalls.{frame_of};
ghost use Rattle.plain_texts.specs.mean_blocks.InstanceEffects.{header_variables, variables_of};
ghost use Rattle.plain_texts.specs.mean_blocks.InstanceEffects.{born};
ghost use Rattle.plain_frames.specs.plain_systems.HeldSystems.{situation_of};
ghost use Rattle.plain_frames.specs.HeldFrames.{Leaves};

use crate::births::place;
use est_syntax::est_items::Items;
use plain_frames::plain_systems::system::System;
use plain_frames::routines::{Slots, frame_of};
use plain_texts::mean_blocks::fault::BlockFault;
use plain_texts::mean_blocks::frame::Frame;
use plain_texts::mean_blocks::situation::Element;
use plain_texts::mean_blocks::stop::Stop;
use plain_texts::plain_declared::declared::{Places, header_at, places_of};
use plain_texts::rule_scope::declaration::Sort;
use plain_texts::rule_scope::outline::Outline;
use plain_texts::text::Text;
use std::alloc::{AllocError, Global};

/// The greatest number of an instance.
pub const MOST_INSTANCES: u32 = 999_999_999;

// The variables that the header of a body declares.
fn header_variables(alloc: Global, outline: &Outline, body: u32) -> Result<Places, AllocError>
    ensures { IfOk result (λ places. places ≡ header_variables outline.now body) }
{
    match header_at(outline, body) {
        None => Ok(Items::new(alloc)),
        Some(header) => places_of(alloc, outline, Sort::Variable, header),
    }
}

// Adds places to others.
fn add_places(more: &[u32], places: &mut Places) -> Result<(), AllocError>
    ensures { OnOk result (places.new ≡ places.old ++ more.now) }
{
    for place in more {
        places.push(*place)?;
    }
    Ok(())
}

// The variables of an instance with a body.
fn variables_of(alloc: Global, outline: &Outline, body: u32) -> Result<Places, AllocError>
    ensures { IfOk result (λ places. places ≡ variables_of outline.now body) }
{
    let mut places = header_variables(alloc, outline, body)?;
    let own = places_of(alloc, outline, Sort::Variable, body)?;
    add_places(own.as_slice(), &mut places)?;
    Ok(places)
}

// The variables of a new instance, of which the first have these values.
fn instance_frame(alloc: Global, outline: &Outline, body: u32, slots: Slots) -> Result<Frame, Stop>
    ensures { Says (frame_of outline.now (variables_of outline.now body) slots) result }
{
    let places = variables_of(alloc, outline, body)?;
    frame_of(alloc, outline, places.as_slice(), slots)
}

/// The next instance begins, whose parameters have these values, in an element of the instance that
/// begins it. That there are too many comes first.
pub fn init(
    alloc: Global,
    text: &Text,
    parent: u32,
    element: &Element,
    body: u32,
    slots: Slots,
    system: &mut System,
) -> Result<(), Stop>
    ensures { Leaves (born text.now parent element.now body slots (situation_of system.old))
        result (situation_of system.new) }
{
    if MOST_INSTANCES < system.next {
        drop(slots);
        return Err(Stop::Fault(BlockFault::TooMany));
    }
    let variables = instance_frame(alloc, text.outline(), body, slots)?;
    place(
        alloc,
        text.outline(),
        parent,
        element,
        body,
        variables,
        system,
    )?;
    Ok(())
}
