//! The subscripts of a `when`, each of which is evaluated.
ghost use Rattle.std.specs.Prelude.{◌≡◌, IfOk, [], map, unwrap_or};
ghost use Rattle.est_meaning.specs.mean_blocks.NamesInRuns.{dims_at};
ghost use Rattle.est_meaning.specs.GuardParts.{subscript_of, subscripts_of};
ghost use Rattle.plain_blocks.specs.plain_operands.ExecutionSites.{view_of};
ghost use Rattle.plain_clauses.specs.EvaluatedParts.{held};

use crate::parts::part_of;
use est_syntax::est_items::Items;
use est_syntax::expression::Expr;
use est_syntax::kind::Kind;
use plain_blocks::plain_operands::site::{Site, dims_of};
use plain_clauses::evaluated::{Evaluated, within};
use plain_clauses::plain_systems::system::Working;
use std::alloc::{AllocError, Global};

/// What comes of parts, in their order.
pub type Parts = Items<Evaluated>;

// What comes of a subscript of an index type.
fn subscript_of(
    alloc: Global,
    site: &Site,
    limit: u32,
    kind: &Kind,
    e: &Expr,
    working: &Working,
) -> Result<Evaluated, AllocError>
    ensures { IfOk result (λ part. part
        ≡ held (subscript_of limit kind.now e.now (view_of site.now working.now))) }
{
    let part = part_of(alloc, site, limit, e, working)?;
    Ok(within(kind, part))
}

// What comes of subscripts of index types.
fn subscripts_of(
    alloc: Global,
    site: &Site,
    limit: u32,
    kinds: &[Kind],
    index: &[Expr],
    working: &Working,
) -> Result<Parts, AllocError>
    ensures { IfOk result (λ parts. parts ≡ map held
        (subscripts_of limit kinds.now index.now (view_of site.now working.now))) }
{
    let mut parts = Items::new(alloc);
    for i in 0..index.len() {
        let Some(kind) = kinds.get(i) else {
            return Ok(parts);
        };
        let part = subscript_of(alloc, site, limit, kind, &index[i], working)?;
        parts.push(part)?;
    }
    Ok(parts)
}

/// What comes of the subscripts of what is declared at a place.
pub fn subscripts_at(
    alloc: Global,
    site: &Site,
    limit: u32,
    place: u32,
    index: &[Expr],
    working: &Working,
) -> Result<Parts, AllocError>
    ensures { IfOk result (λ parts. parts ≡ map held
        (subscripts_of limit (unwrap_or (dims_at site.now.text.now.outline place) []) index.now
        (view_of site.now working.now))) }
{
    match dims_of(site, place) {
        None => Ok(Items::new(alloc)),
        Some(kinds) => subscripts_of(alloc, site, limit, kinds, index, working),
    }
}
