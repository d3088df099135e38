//! Interactions that are awaited at interaction points, and their parameters.
ghost use Rattle.std.specs.Prelude.{◌≡◌, IfOk, Some, option_copied};
ghost use Rattle.est_meaning.specs.mean_blocks.FunctionCalls.{bound};
ghost use Rattle.est_meaning.specs.mean_blocks.NamesInRuns.{interaction_of};
ghost use Rattle.est_meaning.specs.mean_blocks.declared.frame.Slot.TheVariants.{Value as held_value};
ghost use Rattle.plain_queues.specs.plain_systems.HeldSystems.{situation_of};
ghost use Rattle.est_meaning.specs.GuardParts.{came_through, arrived_through, parameters_of};
ghost use Rattle.est_meaning.specs.TransitionChoices.{bound_all};
ghost use Rattle.plain_transitions.specs.WrittenTransitions.{IsFixed, awaited_of};
ghost use Rattle.plain_clauses.specs.JudgedClauses.{AreParameters};

use est_meaning::mean_blocks::frame::{Binding, Frame, Slot};
use est_meaning::mean_blocks::situation::{InteractionPoint, Item};
use est_meaning::rule_scope::declaration::Sort;
use est_meaning::rule_scope::outline::Outline;
use est_syntax::est_items::Twin;
use est_values::Chunks;
use est_values::value::{Value, Values};
use plain_queues::heads::head_at;
use plain_queues::plain_declared::declared::places_of;
use plain_queues::plain_systems::points::is_point;
use plain_queues::plain_systems::system::System;
use plain_queues::plain_texts::text::Text;
use plain_transitions::written::{Awaits, Fixed, Written};
use std::alloc::{AllocError, Global};

// Where the interaction is declared that is awaited at what is declared at a place, which is looked
// up where it is not known.
fn signal_of(text: &Text, fixed: Option<Fixed>, awaits: &Awaits, declared: u32) -> Option<u32>
    ensures { IsFixed text.now.outline (Some (awaited_of awaits.now)) fixed
        → result ≡ interaction_of text.now.outline declared awaits.now.signal.now }
{
    if let Some(fixed) = fixed {
        if fixed.point == declared {
            return Some(fixed.signal);
        }
    }
    text.interaction_of(declared, awaits.signal)
}

// Whether an item is the interaction that is awaited, and came through an interaction point.
fn came_through(
    text: &Text,
    fixed: Option<Fixed>,
    awaits: &Awaits,
    point: &InteractionPoint,
    item: &Item,
) -> bool
    ensures { IsFixed text.now.outline (Some (awaited_of awaits.now)) fixed
        → result ≡ came_through text.now.outline awaits.now.signal.now point.now item.now }
{
    if !is_point(point, &item.at) {
        return false;
    }
    match signal_of(text, fixed, awaits, point.declared) {
        None => false,
        Some(declared) => item.signal == declared,
    }
}

/// The item that is awaited at an interaction point, if it is the first of its queue.
pub fn arrived_through<'s>(
    text: &Text,
    fixed: Option<Fixed>,
    awaits: &Awaits,
    point: &InteractionPoint,
    system: &'s System,
) -> Option<&'s Item>
    ensures { IsFixed text.now.outline (Some (awaited_of awaits.now)) fixed
        → option_copied result
        ≡ arrived_through text.now (situation_of system.now) awaits.now.signal.now point.now }
{
    match head_at(text, point, system) {
        None => None,
        Some(item) => {
            if came_through(text, fixed, awaits, point, item) {
                Some(item)
            } else {
                None
            }
        }
    }
}

// A name with a value.
fn bound(alloc: Global, declared: u32, value: &Value) -> Result<Binding, AllocError>
    ensures { IfOk result (λ binding. binding ≡ bound declared (held_value value.now)) }
{
    let value = value.twin(alloc)?;
    Ok(Binding {
        declared,
        slot: Slot::Value(value),
    })
}

// Names with their values.
fn bound_all(alloc: Global, places: &[u32], values: &Values) -> Result<Frame, AllocError>
    ensures { IfOk result (λ frame. frame ≡ bound_all places.now values.now) }
{
    let mut frame = Chunks::new(alloc)?;
    for i in 0..places.len() {
        let Some(value) = values.get(i) else {
            return Ok(frame);
        };
        let binding = bound(alloc, places[i], value)?;
        frame.push(alloc, binding)?;
    }
    Ok(frame)
}

// The parameters of an interaction that are looked up, with the values of an item.
fn parameters_found(alloc: Global, outline: &Outline, item: &Item) -> Result<Frame, AllocError>
    ensures { IfOk result (λ frame. frame ≡ parameters_of outline.now item.now) }
{
    let places = places_of(alloc, outline, Sort::Variable, item.signal)?;
    let frame = bound_all(alloc, places.as_slice(), &item.values);
    drop(places);
    frame
}

/// The parameters of an interaction, with the values of an item. They are looked up where the
/// transition that awaits it does not know them.
pub fn parameters_of(
    alloc: Global,
    outline: &Outline,
    transition: &Written,
    item: &Item,
) -> Result<Frame, AllocError>
    ensures { IfOk result (λ frame. AreParameters outline.now transition.now
        → frame ≡ parameters_of outline.now item.now) }
{
    if let Some(fixed) = transition.fixed {
        if fixed.signal == item.signal {
            return bound_all(alloc, transition.parameters.as_slice(), &item.values);
        }
    }
    parameters_found(alloc, outline, item)
}
