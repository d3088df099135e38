//! Instances above which one has a due choice.
ghost use Rattle.std.specs.Prelude.{◌≡◌, ◌↔◌, [], Some, IsTrue, IfOk, OnOk};
ghost use Rattle.est_syntax.specs.Least.{IsIn};
ghost use Rattle.est_meaning.specs.mean_blocks.GlobalSituation.{row_of};
ghost use Rattle.est_meaning.specs.mean_blocks.KeepingLaws.{AreNumbered};
ghost use Rattle.plain_guards.specs.plain_systems.HeldSystems.{situation_of};
ghost use Rattle.est_meaning.specs.FiringOrder.{IsAscending};
ghost use Rattle.plain_choices.specs.inside.SystemOffers.{AreSorted, IsPreceded, IsKept};
ghost use Rattle.plain_choices.specs.inside.SystemOffers.{AreBlockedBelow, AreBlocked};

use crate::found::Found;
use est_meaning::firing::Firing;
use est_meaning::mean_blocks::situation::Row;
use plain_systems::rows::row_of;
use plain_systems::system::System;
use std::alloc::{AllocError, Global};

// Whether an instance is one of these.
fn is_one_of(numbers: &[u32], number: u32) -> bool
    requires { AreSorted numbers.now }
    ensures { IsTrue result ↔ IsIn number numbers.now }
{
    numbers.binary_search(&number).is_ok()
}

// Whether an instance descends from one of these. Each row on the way up is looked up among all.
// After as many steps as there are rows each instance of the way was met.
fn is_preceded(system: &System, dues: &[u32], instance: u32) -> bool
    requires { AreSorted dues.now }
    ensures { IsTrue result ↔ IsPreceded (situation_of system.now) dues.now instance }
{
    let mut number = instance;
    let mut left = system.rows.get().len();
    while 0 < left {
        left -= 1;
        match row_of(system, number) {
            None => return false,
            Some(row) => {
                if is_one_of(dues, row.parent) {
                    return true;
                }
                number = row.parent;
            }
        }
    }
    false
}

// Whether the instance of a row descends from one of these, where those before it that do are
// known. In each run a parent has the smaller number; above one that had not, the way up would be
// climbed.
fn is_blocked(system: &System, dues: &[u32], blocked: &[u32], row: &Row) -> bool
    requires row { row_of (situation_of system.now) row.now.number ≡ Some row.now }
    requires dues { AreSorted dues.now }
    requires blocked { AreBlockedBelow (situation_of system.now) dues.now row.now.number
        blocked.now }
    ensures { IsTrue result ↔ IsPreceded (situation_of system.now) dues.now row.now.number }
{
    if is_one_of(dues, row.parent) {
        return true;
    }
    if row.parent < row.number {
        return is_one_of(blocked, row.parent);
    }
    is_preceded(system, dues, row.parent)
}

// Lists the instances that descend from one of these. Each row is looked at once, in order.
fn find_blocked(system: &System, dues: &[u32], blocked: &mut Vec<u32>) -> Result<(), AllocError>
    requires numbered { AreNumbered (situation_of system.now) }
    requires sorted { AreSorted dues.now }
    requires empty { blocked.old.items ≡ [] }
    ensures { OnOk result (AreBlocked (situation_of system.now) dues.now blocked.new.items) }
{
    if dues.is_empty() {
        return Ok(());
    }
    for row in system.rows.get().as_slice() {
        let row = row.get();
        if is_blocked(system, dues, blocked.as_slice(), row) {
            blocked.push(row.number)?;
        }
    }
    Ok(())
}

/// Keeps the firings of the instances above which none has a due choice.
pub fn keep_unpreceded(
    alloc: Global,
    system: &System,
    found: &Found,
    into: &mut Vec<Firing>,
) -> Result<(), AllocError>
    requires numbered { AreNumbered (situation_of system.now) }
    requires sorted { AreSorted found.now.dues.items }
    requires ascending { IsAscending found.now.firings.items }
    requires empty { into.old.items ≡ [] }
    ensures { OnOk result (IsKept (situation_of system.now) found.now.dues.items
        found.now.firings.items into.new.items) }
{
    let mut blocked = Vec::new(alloc);
    find_blocked(system, found.dues.as_slice(), &mut blocked)?;
    for firing in found.firings.as_slice() {
        if !is_one_of(blocked.as_slice(), firing.instance) {
            into.push(*firing)?;
        }
    }
    Ok(())
}
