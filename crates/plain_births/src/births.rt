//! Instances that are begun.
ghost use Rattle.std.specs.Prelude.{◌≡◌, ◌++◌, map, Some, IfOk, OnOk};
ghost use Rattle.std.specs.List.{position};
ghost use Rattle.plain_texts.specs.mean_blocks.GlobalSituation.{is_holding, holding, with_row};
ghost use Rattle.plain_texts.specs.mean_blocks.InstanceEffects.{empty_element, empty_elements};
ghost use Rattle.plain_texts.specs.mean_blocks.InstanceEffects.{new_row};
ghost use Rattle.plain_texts.specs.mean_blocks.InstanceEffects.{with_next, holds, in_state};
ghost use Rattle.plain_frames.specs.plain_systems.HeldSystems.{situation_of};
ghost use Rattle.plain_births.specs.NewInstances.{elements_at, elements_of, placed};

use est_syntax::est_items::{Items, Shared, Twin};
use est_syntax::kind::Ordinals;
use plain_frames::children::is_element;
use plain_frames::plain_systems::rows::row_position;
use plain_frames::plain_systems::system::System;
use plain_points::subscripts::indices_of;
use plain_texts::mean_blocks::frame::Frame;
use plain_texts::mean_blocks::situation::{Element, Holding, Holdings, Row};
use plain_texts::plain_declared::declared::places_of;
use plain_texts::rule_scope::declaration::Sort;
use plain_texts::rule_scope::outline::Outline;
use std::alloc::{AllocError, Global};

// Adds the elements of a module variable with these subscripts, which hold nothing.
fn add_each(
    alloc: Global,
    declared: u32,
    indices: &[Ordinals],
    holdings: &mut Holdings,
) -> Result<(), AllocError>
    ensures { OnOk result (holdings.new
        ≡ holdings.old ++ map (empty_element declared) indices.now) }
{
    for index in indices {
        let index = index.twin(alloc)?;
        holdings.push(Holding {
            element: Element { declared, index },
            number: None,
        })?;
    }
    Ok(())
}

// Adds the elements of a module variable, which hold nothing.
fn add_elements(
    alloc: Global,
    outline: &Outline,
    declared: u32,
    holdings: &mut Holdings,
) -> Result<(), AllocError>
    ensures { OnOk result (holdings.new
        ≡ holdings.old ++ empty_elements outline.now declared) }
{
    let indices = indices_of(alloc, outline, declared)?;
    let added = add_each(alloc, declared, indices.as_slice(), holdings);
    drop(indices);
    added?;
    Ok(())
}

// The elements of the module variables at some places.
fn elements_at(alloc: Global, outline: &Outline, places: &[u32]) -> Result<Holdings, AllocError>
    ensures { IfOk result (λ holdings. holdings ≡ elements_at outline.now places.now) }
{
    let mut holdings = Items::new(alloc);
    for place in places {
        add_elements(alloc, outline, *place, &mut holdings)?;
    }
    Ok(holdings)
}

// The elements of the module variables of a body.
fn elements_of(alloc: Global, outline: &Outline, body: u32) -> Result<Shared<Holdings>, AllocError>
    ensures { IfOk result (λ holdings. holdings ≡ elements_of outline.now body) }
{
    let places = places_of(alloc, outline, Sort::ModuleVariable, body)?;
    let holdings = elements_at(alloc, outline, places.as_slice());
    drop(places);
    Shared::new(alloc, holdings?)
}

// A new instance, with nothing in its module variables.
fn new_row(
    alloc: Global,
    outline: &Outline,
    number: u32,
    parent: u32,
    body: u32,
    variables: Frame,
) -> Result<Shared<Row>, AllocError>
    ensures { IfOk result (λ row. row ≡ new_row outline.now number parent body variables) }
{
    let Ok(children) = elements_of(alloc, outline, body) else {
        drop(variables);
        return Err(AllocError);
    };
    let row = Row {
        number,
        parent,
        body,
        state: None,
        variables,
        children,
    };
    Shared::new(alloc, row)
}

// The next instance is put last.
fn add_next(
    alloc: Global,
    outline: &Outline,
    parent: u32,
    body: u32,
    variables: Frame,
    system: &mut System,
) -> Result<(), AllocError>
    ensures { OnOk result (situation_of system.new
        ≡ with_next outline.now parent body variables (situation_of system.old)) }
{
    let row = new_row(alloc, outline, system.next, parent, body, variables)?;
    let rows = system.rows.own(alloc)?;
    rows.push(row)?;
    system.next = system.next.checked_add(1).ok_or(AllocError)?;
    Ok(())
}

// Where an element stands.
fn element_position(element: &Element, holdings: &Holdings) -> Option<usize>
    ensures { result ≡ position (is_holding element.now) holdings.now }
{
    holdings.as_slice().iter().position(|holding| is_element(
        element.declared,
        &element.index,
        &holding.element,
    ))
}

// An element is given an instance, where there is such an element.
fn give(element: &Element, number: u32, holdings: &mut Holdings)
    ensures { holdings.new ≡ holding element.now number holdings.old }
{
    match element_position(element, holdings) {
        None => {}
        Some(at) => holdings.items[at].number = Some(number),
    }
}

// An element of a row is given an instance.
fn hold_in(
    alloc: Global,
    element: &Element,
    number: u32,
    row: &mut Shared<Row>,
) -> Result<(), AllocError>
    ensures { OnOk result (row.new ≡ holds element.now number row.old) }
{
    let row = row.own(alloc)?;
    let holdings = row.children.own(alloc)?;
    give(element, number, holdings);
    Ok(())
}

// An element of an instance is given another instance.
fn hold(
    alloc: Global,
    parent: u32,
    element: &Element,
    number: u32,
    system: &mut System,
) -> Result<(), AllocError>
    ensures { OnOk result (situation_of system.new
        ≡ with_row parent (holds element.now number) (situation_of system.old)) }
{
    match row_position(parent, &system.rows) {
        None => Ok(()),
        Some(at) => {
            let rows = system.rows.own(alloc)?;
            hold_in(alloc, element, number, &mut rows.items[at])?;
            Ok(())
        }
    }
}

/// The next instance is put in an element of the instance that begins it. Errs where
/// memory runs out.
pub fn place(
    alloc: Global,
    outline: &Outline,
    parent: u32,
    element: &Element,
    body: u32,
    variables: Frame,
    system: &mut System,
) -> Result<(), AllocError>
    ensures { OnOk result (situation_of system.new
        ≡ placed outline.now parent element.now body variables (situation_of system.old)) }
{
    let number = system.next;
    add_next(alloc, outline, parent, body, variables, system)?;
    hold(alloc, parent, element, number, system)?;
    Ok(())
}

// An instance is in a state.
fn reach(alloc: Global, instance: u32, state: u32, system: &mut System) -> Result<(), AllocError>
    ensures { OnOk result (situation_of system.new
        ≡ with_row instance (in_state (Some state)) (situation_of system.old)) }
{
    match row_position(instance, &system.rows) {
        None => Ok(()),
        Some(at) => {
            let rows = system.rows.own(alloc)?;
            let row = rows.items[at].own(alloc)?;
            row.state = Some(state);
            Ok(())
        }
    }
}

/// An instance is in a state, where one is named. Errs where memory runs out.
pub fn set_state(
    alloc: Global,
    instance: u32,
    state: Option<u32>,
    system: &mut System,
) -> Result<(), AllocError>
    ensures { OnOk result (situation_of system.new
        ≡ with_row instance (in_state state) (situation_of system.old)) }
{
    match state {
        None => Ok(()),
        Some(state) => {
            reach(alloc, instance, state, system)?;
            Ok(())
        }
    }
}
