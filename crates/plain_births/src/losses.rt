//! Rows and stamps of instances that are released.
ghost use Rattle.std.specs.Prelude.{◌≡◌, ◌∷◌, [], IfOk, OnOk};
ghost use Rattle.plain_texts.specs.mean_blocks.InstanceEffects.{is_among, descendants};
ghost use Rattle.plain_frames.specs.plain_systems.HeldSystems.{stamped};
ghost use Rattle.plain_births.specs.LostRows.{rows_without, stamps_without};

use est_syntax::est_items::{Items, Shared};
use plain_frames::plain_systems::points::is_among;
use plain_frames::plain_systems::system::{Rows, Stamps};
use std::alloc::{AllocError, Global};

/// Numbers of instances.
pub type Numbers = Items<u32>;

/// An instance and its descendants. Errs where memory runs out.
pub fn descendants(alloc: Global, instance: u32, rows: &Rows) -> Result<Numbers, AllocError>
    ensures { IfOk result (λ gone. gone ≡ descendants (instance ∷ []) rows.now) }
{
    let mut gone = Items::new(alloc);
    gone.push(instance)?;
    for row in rows.as_slice() {
        let row = row.get();
        if is_among(gone.as_slice(), row.parent) {
            gone.push(row.number)?;
        }
    }
    Ok(gone)
}

/// The rows of other instances are left. Errs where memory runs out.
pub fn keep_rows(alloc: Global, gone: &[u32], rows: &mut Shared<Rows>) -> Result<(), AllocError>
    ensures { OnOk result (rows.new ≡ rows_without gone.now rows.old) }
{
    let rows = rows.own(alloc)?;
    rows.items.retain(|row| !is_among(gone, row.get().number));
    Ok(())
}

/// The stamps of other instances are left. Errs where memory runs out.
pub fn keep_stamps(
    alloc: Global,
    gone: &[u32],
    stamps: &mut Shared<Stamps>,
) -> Result<(), AllocError>
    ensures { OnOk result (stamped stamps.new ≡ stamps_without gone.now (stamped stamps.old)) }
{
    let stamps = stamps.own(alloc)?;
    stamps.items.retain(|stamp| !is_among(gone, stamp.instance));
    Ok(())
}
