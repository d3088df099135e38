//! The interaction points and the children of living instances.
ghost use Rattle.std.specs.Prelude.{◌≡◌, IfOk, Some, None, false};
ghost use Rattle.plain_texts.specs.mean_blocks.InstancePoints.{points_of, header_of, external_of};
ghost use Rattle.plain_texts.specs.mean_blocks.InstancePoints.{is_child};
ghost use Rattle.plain_texts.specs.mean_blocks.InstancePoints.{children_of};
ghost use Rattle.plain_systems.specs.HeldSystems.{situation_of};

use est_syntax::est_items::Items;
use plain_points::declared::{Points, points_of};
use plain_systems::rows::row_of;
use plain_systems::system::System;
use plain_texts::mean_blocks::situation::Row;
use plain_texts::plain_declared::declared::header_at;
use plain_texts::rule_scope::outline::Outline;
use std::alloc::{AllocError, Global};

/// The header of a living instance.
pub fn header_of(outline: &Outline, system: &System, instance: u32) -> Option<u32>
    ensures { result ≡ header_of outline.now (situation_of system.now) instance }
{
    match row_of(system, instance) {
        None => None,
        Some(row) => header_at(outline, row.body),
    }
}

/// The external interaction points of an instance. Errs where memory runs out.
pub fn external_of(
    alloc: Global,
    outline: &Outline,
    system: &System,
    instance: u32,
) -> Result<Points, AllocError>
    ensures { IfOk result (λ points. points
        ≡ external_of outline.now (situation_of system.now) instance) }
{
    match header_of(outline, system, instance) {
        None => Ok(Items::new(alloc)),
        Some(header) => points_of(alloc, outline, instance, header),
    }
}

// Whether an instance is a child of another one and has this header.
fn is_child(outline: &Outline, parent: u32, header: u32, row: &Row) -> bool
    ensures { result ≡ is_child outline.now parent header row.now }
{
    if row.parent == parent {
        match header_at(outline, row.body) {
            None => false,
            Some(own) => own == header,
        }
    } else {
        false
    }
}

/// The children of an instance with a header, in the order of their creation. Errs where memory
/// runs out.
pub fn children_of(
    alloc: Global,
    outline: &Outline,
    system: &System,
    instance: u32,
    header: u32,
) -> Result<Items<u32>, AllocError>
    ensures { IfOk result (λ children. children
        ≡ children_of outline.now (situation_of system.now) instance header) }
{
    let items = system
        .rows
        .get()
        .as_slice()
        .iter()
        .filter(|row| is_child(outline, instance, header, row.get()))
        .map(|row| row.get().number)
        .collect(alloc)?;
    Ok(Items { items })
}
