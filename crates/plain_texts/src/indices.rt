//! The routines and the bodies of a text by the places of their names.

ghost use Rattle.std.specs.Prelude.{◌≡◌, [], ◌∷◌, OnOk, IfOk};
ghost use Rattle.std.specs.List.{flat_map};
ghost use Rattle.est_syntax.specs.declared.body.Part.TheVariants as part;
ghost use Rattle.plain_declared.specs.mean_blocks.TextByPlace.{parts_within};
ghost use Rattle.plain_texts.specs.PartIndices.{IsNoted, IsIndex};

use est_syntax::body::{Body, Part};
use est_syntax::routine::Routine;
use indexmap::IndexMap;
use std::alloc::{AllocError, Global};

/// Routines and bodies, each by the place of its name.
pub(crate) struct Index<'t> {
    pub(crate) routines: IndexMap<u32, &'t Routine>,
    pub(crate) bodies: IndexMap<u32, &'t Body>,
}

// In words, so that where it is let go of there is one call.
impl<'t> Drop for Index<'t> {
    fn drop(self) {
        let Index { routines, bodies } = self;
        drop(routines);
        drop(bodies);
    }
}

// Adds a routine, unless there is one at its place already.
fn add_routine<'t>(routine: &'t Routine, index: &mut Index<'t>) -> Result<(), AllocError>
    ensures { OnOk result (IsNoted (part.Routine routine.now ∷ []) index.old index.new) }
{
    let place = routine.name.place;
    if index.routines.get(&place).is_some() {
        return Ok(());
    }
    index.routines.insert(place, routine)?;
    Ok(())
}

// Adds a body, unless there is one at its place already.
fn add_body<'t>(body: &'t Body, index: &mut Index<'t>) -> Result<(), AllocError>
    ensures { OnOk result (IsNoted (part.Body body.now ∷ []) index.old index.new) }
{
    let place = body.name.place;
    if index.bodies.get(&place).is_some() {
        return Ok(());
    }
    index.bodies.insert(place, body)?;
    Ok(())
}

// Adds a part, and those within it.
#[cycle(parts)]
fn add_part<'t>(part: &'t Part, index: &mut Index<'t>) -> Result<(), AllocError>
    ensures { OnOk result (IsNoted (parts_within part.now) index.old index.new) }
{
    match part {
        Part::Routine(routine) => {
            add_routine(routine, index)?;
            Ok(())
        },
        Part::Body(body) => {
            add_body(body, index)?;
            add_parts(body.parts.as_slice(), index)?;
            Ok(())
        },
        _ => Ok(()),
    }
}

// Adds parts, and those within them.
#[cycle(parts)]
fn add_parts<'t>(parts: &'t [Part], index: &mut Index<'t>) -> Result<(), AllocError>
    ensures { OnOk result (IsNoted (flat_map parts_within parts.now) index.old index.new) }
{
    for part in parts {
        add_part(part, index)?;
    }
    Ok(())
}

/// The index of parts and those within them.
pub(crate) fn index_of<'t>(alloc: Global, parts: &'t [Part]) -> Result<Index<'t>, AllocError>
    ensures { IfOk result (IsIndex (flat_map parts_within parts.now)) }
{
    let mut index = Index {
        routines: IndexMap::new(alloc),
        bodies: IndexMap::new(alloc),
    };
    add_parts(parts, &mut index)?;
    Ok(index)
}
