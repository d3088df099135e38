//! Which regions a place of the text lies in.

ghost use Rattle.std.specs.Prelude.{◌≡◌, ◌≤◌, ◌<◌, [], length, OnOk};
ghost use Rattle.std.specs.List.Sorted.{IsNonDecreasingBy, IsPartitionPoint};
ghost use Rattle.std.specs.Option.{option_copied};
ghost use Rattle.rule_scope.specs.Outline.{extent_at};
ghost use Rattle.rule_scope.specs.Declaring.{last_from, extended};
ghost use Rattle.rule_scope.specs.declared.declaration.Extent.{Extent};

use crate::declaration::{Extent, Within};
use est_syntax::est_items::Items;
use std::alloc::{AllocError, Global};
use std::marker::Model;

/// Extents in ascending order.
pub struct Extents {
    list: Items<Extent>,
}

impl Drop for Extents {
    fn drop(self) {
        let Extents { list } = self;
        drop(list);
    }
}

impl Model for Extents {
    ghost use Rattle.std.specs.Prelude.{List};
    ghost use Rattle.rule_scope.specs.declared.declaration.Extent.{Extent};
    ghost use Rattle.std.specs.List.Sorted.{IsNonDecreasingBy};

    ghost Value = { List Extent };

    ghost view = { λ t. t.list };

    ghost invariant = { λ t. IsNonDecreasingBy (λ (e : Extent). e.from) t.list };
}

// How many extents begin at a place or before it.
fn count_to(extents: &[Extent], place: u32) -> usize
    requires { IsNonDecreasingBy (λ (e : Extent). e.from) extents.now }
    ensures bound { result ≤ length extents.now }
    ensures count { IsPartitionPoint (λ (e : Extent). e.from ≤ place)
        (λ (e : Extent). place < e.from) extents.now result }
{
    extents.partition_point(|extent| extent.from <= place)
}

// Where the last extent begins.
fn last_from(extents: &[Extent]) -> u32
    ensures { result ≡ last_from extents.now 0 }
{
    match extents.last() {
        None => 0,
        Some(extent) => extent.from,
    }
}

impl Extents {
    /// No extents.
    pub fn new(alloc: Global) -> Extents
        ensures { result ≡ [] }
    {
        Extents {
            list: Items::new(alloc),
        }
    }

    /// The last extent that begins at a place or before it.
    pub fn at(&self, place: u32) -> Option<&Extent>
        ensures { option_copied result ≡ extent_at self.now place }
    {
        let extents = self.list.as_slice();
        let count = count_to(extents, place);
        if count == 0 {
            None
        } else {
            Some(&extents[count - 1])
        }
    }

    /// From a place on, the text lies within these regions.
    pub fn extend(&mut self, within: &Within, place: u32) -> Result<(), AllocError>
        ensures { OnOk result (self.new ≡ extended within.now place self.old) }
    {
        let from = last_from(self.list.as_slice()).max(place);
        let own = within.own.share()?;
        let around = within.around.share()?;
        self.list.push(Extent { from, own, around })?;
        Ok(())
    }
}
