//! The bodies of a text.

ghost use Rattle.std.specs.Prelude.{◌≡◌, ◌++◌, IfOk, OnOk};
ghost use Rattle.std.specs.List.{flat_map};
ghost use Rattle.est_meaning.specs.mean_blocks.TextByPlace.{parts_within};
ghost use Rattle.plain_transitions.specs.inside.BodyTables.{bodies_held, bodies_in};

use est_syntax::body::{Body, Part};
use std::alloc::{AllocError, Global};

// Adds the bodies among a part and those within it.
#[cycle(bodies)]
fn add_part<'t>(part: &'t Part, into: &mut Vec<&'t Body>) -> Result<(), AllocError>
    ensures { OnOk result (bodies_held into.new.items
        ≡ bodies_held into.old.items ++ bodies_in (parts_within part.now)) }
{
    match part {
        Part::Body(body) => {
            into.push(body)?;
            add_parts(body.parts.as_slice(), into)?;
            Ok(())
        },
        _ => Ok(()),
    }
}

// Adds the bodies among parts and those within them.
#[cycle(bodies)]
fn add_parts<'t>(parts: &'t [Part], into: &mut Vec<&'t Body>) -> Result<(), AllocError>
    ensures { OnOk result (bodies_held into.new.items
        ≡ bodies_held into.old.items ++ bodies_in (flat_map parts_within parts.now)) }
{
    for part in parts {
        add_part(part, into)?;
    }
    Ok(())
}

/// The bodies among parts and those within them, in the order of the text.
pub(crate) fn bodies_of<'t>(alloc: Global, parts: &'t [Part]) -> Result<Vec<&'t Body>, AllocError>
    ensures { IfOk result (λ bodies. bodies_held bodies.items
        ≡ bodies_in (flat_map parts_within parts.now)) }
{
    let mut bodies = Vec::new(alloc);
    add_parts(parts, &mut bodies)?;
    Ok(bodies)
}
