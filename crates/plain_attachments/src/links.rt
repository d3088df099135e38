//! Links from interaction points.
ghost use Rattle.std.specs.Prelude.{◌≡◌, IfOk, OnOk, option_copied, Some, None};
ghost use Rattle.plain_texts.specs.mean_blocks.LinkEffects.{with_point};
ghost use Rattle.plain_systems.specs.HeldSystems.{linked};
ghost use Rattle.plain_attachments.specs.LinksOfPoints.{link_between};

use est_syntax::est_items::{Shared, Twin};
use plain_systems::points::is_point;
use plain_systems::system::{Link, Links};
use plain_texts::mean_blocks::situation::InteractionPoint;
use std::alloc::{AllocError, Global};

/// Where links lead from an interaction point.
pub fn linked<'l>(links: &'l Links, from: &InteractionPoint) -> Option<&'l InteractionPoint>
    ensures { option_copied result ≡ linked links.now from.now }
{
    for link in links.as_slice() {
        if is_point(from, &link.from) {
            return Some(&link.to);
        }
    }
    None
}

// Lets go of the links from an interaction point.
fn cut(from: &InteractionPoint, links: &mut Links)
    ensures { linked links.new ≡ with_point from.now None (linked links.old) }
{
    links.items.retain(|link| !is_point(from, &link.from));
}

/// An interaction point leads nowhere from now on. Errs where memory runs out.
pub fn unlink(
    alloc: Global,
    from: &InteractionPoint,
    links: &mut Shared<Links>,
) -> Result<(), AllocError>
    ensures { OnOk result (linked links.new ≡ with_point from.now None (linked links.old)) }
{
    let links = links.own(alloc)?;
    cut(from, links);
    Ok(())
}

// A link between two interaction points.
fn link_between(
    alloc: Global,
    from: &InteractionPoint,
    to: &InteractionPoint,
) -> Result<Link, AllocError>
    ensures { IfOk result (λ link. link ≡ link_between from.now to.now) }
{
    let from = from.twin(alloc)?;
    let to = to.twin(alloc)?;
    Ok(Link { from, to })
}

/// An interaction point leads to another from now on. Errs where memory runs out.
pub fn link(
    alloc: Global,
    from: &InteractionPoint,
    to: &InteractionPoint,
    links: &mut Shared<Links>,
) -> Result<(), AllocError>
    ensures { OnOk result (linked links.new
        ≡ with_point from.now (Some to.now) (linked links.old)) }
{
    let link = link_between(alloc, from, to)?;
    let links = links.own(alloc)?;
    cut(from, links);
    links.push(link)?;
    Ok(())
}
