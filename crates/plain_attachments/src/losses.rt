//! Links of instances that are released.
ghost use Rattle.std.specs.Prelude.{◌≡◌, not, IfOk, OnOk};
ghost use Rattle.std.specs.List.{filter, list_any};
ghost use Rattle.plain_texts.specs.mean_blocks.GlobalSituation.{is_point};
ghost use Rattle.plain_texts.specs.mean_blocks.InstanceEffects.{is_among, links_without};
ghost use Rattle.plain_systems.specs.HeldSystems.{linked};
ghost use Rattle.plain_attachments.specs.LostLinks.{is_lost, is_stray, strays};

use crate::links::linked;
use est_syntax::est_items::{Items, Shared, Twin};
use plain_points::declared::Points;
use plain_systems::points::{is_among, is_point};
use plain_systems::system::{Link, Links};
use plain_texts::mean_blocks::situation::InteractionPoint;
use std::alloc::{AllocError, Global};

// Whether links lead from an interaction point to one of these instances.
fn is_lost(gone: &[u32], links: &Links, from: &InteractionPoint) -> bool
    ensures { result ≡ is_lost gone.now (linked links.now from.now) }
{
    match linked(links, from) {
        None => false,
        Some(to) => is_among(gone, to.instance),
    }
}

// Whether a link leads to one of these instances, where of those from its end it counts.
fn is_stray(gone: &[u32], links: &Links, link: &Link) -> bool
    ensures { result ≡ is_stray gone.now links.now link.now }
{
    is_among(gone, link.to.instance) && is_lost(gone, links, &link.from)
}

// The interaction points from which links lead to one of these instances.
fn strays(alloc: Global, gone: &[u32], links: &Links) -> Result<Points, AllocError>
    ensures { IfOk result (λ points. points ≡ strays gone.now links.now) }
{
    let mut points = Items::new(alloc);
    for link in links.as_slice() {
        if is_stray(gone, links, link) {
            points.push(link.from.twin(alloc)?)?;
        }
    }
    Ok(points)
}

// Whether an interaction point is one of these.
fn is_one_of(points: &[InteractionPoint], point: &InteractionPoint) -> bool
    ensures { result ≡ list_any (λ own. is_point own point.now) points.now }
{
    points.iter().any(|own| is_point(own, point))
}

// The links from other interaction points are left.
fn leave_out(points: &[InteractionPoint], links: &mut Links)
    ensures { links.new ≡ filter
        (λ link. not (list_any (λ own. is_point own link.from) points.now)) links.old }
{
    links.items.retain(|link| !is_one_of(points, &link.from));
}

// The links from other instances are left.
fn keep_from(gone: &[u32], links: &mut Links)
    ensures { links.new ≡ filter (λ link. not (is_among gone.now link.from.instance)) links.old }
{
    links
        .items
        .retain(|link| !is_among(gone, link.from.instance));
}

/// The links of other instances are left. Errs where memory runs out.
pub fn keep_links(alloc: Global, gone: &[u32], links: &mut Shared<Links>) -> Result<(), AllocError>
    ensures { OnOk result (linked links.new ≡ links_without gone.now (linked links.old)) }
{
    let links = links.own(alloc)?;
    keep_from(gone, links);
    let points = strays(alloc, gone, links)?;
    leave_out(points.as_slice(), links);
    Ok(())
}
