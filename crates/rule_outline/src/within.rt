//! Where the parts of a text stand.

ghost use Rattle.std.specs.Prelude.{◌≡◌, ◌++◌, [], IfOk};
ghost use Rattle.rule_declares.specs.Entries.{outermost, body_regions, in_body, inner, in_region};
ghost use Rattle.rule_declares.specs.Entries.{in_section, with_region};
ghost use Rattle.rule_declares.specs.Contexts.{under};

use est_syntax::est_items::Shared;
use rule_declares::context::{ClauseKind, Given};
use rule_declares::rule_scope::declaration::{Regions, Section, SharedRegions, Within};
use std::alloc::{AllocError, Global};

// One list after another.
fn joined(alloc: Global, ahead: &[u32], behind: &[u32]) -> Result<SharedRegions, AllocError>
    ensures { IfOk result (λ regions. regions ≡ ahead.now ++ behind.now) }
{
    let mut items = Vec::from_slice(alloc, ahead)?;
    items.extend_from_slice(behind)?;
    Shared::new(alloc, Regions { items })
}

/// The parts of a specification.
pub fn outermost(alloc: Global) -> Result<Within, AllocError>
    ensures { IfOk result (λ within. within ≡ outermost) }
{
    let own = joined(alloc, &[0], &[])?;
    let around = joined(alloc, &[], &[])?;
    Ok(Within {
        body: 0,
        region: 0,
        section: Section::Body,
        header: None,
        own,
        around,
    })
}

// The regions of a body: its own, and that of its header.
fn body_regions(alloc: Global, place: u32, header: Option<u32>) -> Result<SharedRegions, AllocError>
    ensures { IfOk result (λ regions. regions ≡ body_regions place header) }
{
    match header {
        None => joined(alloc, &[place], &[]),
        Some(header) => joined(alloc, &[place, header], &[]),
    }
}

/// What stands in a body, which has the names of its header too.
pub fn in_body(
    alloc: Global,
    within: &Within,
    place: u32,
    header: Option<u32>,
) -> Result<Within, AllocError>
    ensures { IfOk result (λ inside. inside ≡ in_body within.now place header) }
{
    let own = body_regions(alloc, place, header)?;
    let around = joined(
        alloc,
        within.own.get().as_slice(),
        within.around.get().as_slice(),
    )?;
    Ok(Within {
        body: place,
        region: place,
        section: Section::Body,
        header,
        own,
        around,
    })
}

/// What stands in a region within the same body.
pub fn inner(alloc: Global, within: &Within, place: u32) -> Result<Within, AllocError>
    ensures { IfOk result (λ inside. inside ≡ inner within.now place) }
{
    let own = joined(alloc, &[place], within.own.get().as_slice())?;
    let around = within.around.share()?;
    Ok(Within {
        body: within.body,
        region: place,
        section: Section::Block,
        header: None,
        own,
        around,
    })
}

/// What a section declares in another region, and is looked up in the same ones.
pub fn in_region(section: Section, within: &Within, place: u32) -> Result<Within, AllocError>
    ensures { IfOk result (λ inside. inside ≡ in_region section within.now place) }
{
    let own = within.own.share()?;
    let around = within.around.share()?;
    Ok(Within {
        body: within.body,
        region: place,
        section,
        header: None,
        own,
        around,
    })
}

/// What another section declares.
pub fn in_section(section: Section, within: &Within) -> Result<Within, AllocError>
    ensures { IfOk result (λ inside. inside ≡ in_section section within.now) }
{
    let own = within.own.share()?;
    let around = within.around.share()?;
    Ok(Within {
        body: within.body,
        region: within.region,
        section,
        header: within.header,
        own,
        around,
    })
}

// The same with one region more, if any.
fn with_region(alloc: Global, region: Option<u32>, within: &Within) -> Result<Within, AllocError>
    ensures { IfOk result (λ inside. inside ≡ with_region region within.now) }
{
    let own = match region {
        None => within.own.share(),
        Some(place) => joined(alloc, &[place], within.own.get().as_slice()),
    }?;
    let around = within.around.share()?;
    Ok(Within {
        body: within.body,
        region: within.region,
        section: within.section,
        header: within.header,
        own,
        around,
    })
}

/// What stands after these clauses of a transition.
pub fn under(alloc: Global, within: &Within, context: &[Given]) -> Result<Within, AllocError>
    ensures { IfOk result (λ inside. inside ≡ under within.now context.now) }
{
    let outer = with_region(alloc, ClauseKind::Any.region(context), within)?;
    with_region(alloc, ClauseKind::When.region(context), &outer)
}
