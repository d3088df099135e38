//! Tables of the bodies of a text, by the places of their names.

ghost use Rattle.std.specs.Prelude.{[], ◌∷◌, IfOk, OnOk};
ghost use Rattle.plain_transitions.specs.inside.BodyTables.{AreTabled, HasTables, bodies_held};

use crate::bodies::bodies_of;
use crate::table::Table;
use est_syntax::body::Body;
use indexmap::IndexMap;
use plain_names::plain_texts::text::Text;
use std::alloc::{AllocError, Global};

/// Tables, each by the place of the name of its body.
pub(crate) type Tables<'t> = IndexMap<u32, Table<'t>>;

// Adds the table of a body, unless there is one at its place already.
fn add_table<'t>(
    alloc: Global,
    text: &Text<'t>,
    body: &Body,
    tables: &mut Tables<'t>,
) -> Result<(), AllocError>
    ensures { OnOk result
        (AreTabled text.now (body.now ∷ []) tables.old.entries tables.new.entries) }
{
    let place = body.name.place;
    if tables.get(&place).is_some() {
        return Ok(());
    }
    let table = Table::new(alloc, text, place)?;
    tables.insert(place, table)?;
    Ok(())
}

// Adds the tables of bodies.
fn add_tables<'t>(
    alloc: Global,
    text: &Text<'t>,
    bodies: &[&Body],
    tables: &mut Tables<'t>,
) -> Result<(), AllocError>
    ensures { OnOk result
        (AreTabled text.now (bodies_held bodies.now) tables.old.entries tables.new.entries) }
{
    for body in bodies {
        add_table(alloc, text, body, tables)?;
    }
    Ok(())
}

/// The tables of the bodies of a text.
pub(crate) fn tables_of<'t>(alloc: Global, text: &Text<'t>) -> Result<Tables<'t>, AllocError>
    ensures { IfOk result (λ tables. HasTables text.now tables.entries) }
{
    let bodies = bodies_of(alloc, text.spec().parts.as_slice())?;
    let mut tables = IndexMap::new(alloc);
    add_tables(alloc, text, bodies.as_slice(), &mut tables)?;
    Ok(tables)
}
