//! The names of a header by their places.
ghost use Rattle.std.specs.Prelude.{◌≡◌, [], IfOk, OnOk};
ghost use Rattle.plain_outside.specs.inside.NamedPlaces.{IsAdded, AreFirst};
ghost use Rattle.plain_outside.specs.inside.OutsideParts.{header_names};

use est_meaning::rule_scope::names::Names;
use est_meaning::rule_scope::outline::Outline;
use est_syntax::est_items::Items;
use est_syntax::name::Name;
use indexmap::IndexMap;
use std::alloc::{AllocError, Global};

/// A name of these bytes.
pub(crate) fn name_of(alloc: Global, bytes: &[u8]) -> Result<Name, AllocError>
    ensures { IfOk result (λ name. name.bytes ≡ bytes.now) }
{
    let items = Vec::from_slice(alloc, bytes)?;
    Ok(Name {
        bytes: Items { items },
    })
}

// Keeps a name for its place, unless one is there already.
fn add_name(
    alloc: Global,
    bytes: &[u8],
    place: u32,
    names: &mut IndexMap<u32, Name>,
) -> Result<(), AllocError>
    ensures { OnOk result (IsAdded bytes.now place names.old.entries names.new.entries) }
{
    if names.get(&place).is_some() {
        return Ok(());
    }
    let name = name_of(alloc, bytes)?;
    names.insert(place, name)?;
    Ok(())
}

// Keeps the first name that stands at each place.
fn add_names(
    alloc: Global,
    region: &Names,
    names: &mut IndexMap<u32, Name>,
) -> Result<(), AllocError>
    requires { AreFirst [] names.old.entries }
    ensures { OnOk result (AreFirst region.now names.new.entries) }
{
    for number in 0..region.len() {
        let (bytes, standing) = region.entry(number);
        add_name(alloc, bytes, standing.place, names)?;
    }
    Ok(())
}

/// The first name of a header that stands at each place.
pub fn names_by_place(
    alloc: Global,
    outline: &Outline,
    header: Option<u32>,
) -> Result<IndexMap<u32, Name>, AllocError>
    ensures { IfOk result
        (λ names. AreFirst (header_names outline.now header) names.entries) }
{
    let mut names = IndexMap::new(alloc);
    if let Some(header) = header {
        if let Some(region) = outline.names(header) {
            add_names(alloc, region, &mut names)?;
        }
    }
    Ok(names)
}
