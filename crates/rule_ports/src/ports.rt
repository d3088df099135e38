//! The ports of a specification.
#![tactic(auto)]

ghost use Rattle.std.specs.Prelude.{◌≡◌, ◌≤◌, ◌<◌, length, option_copied};
ghost use Rattle.std.specs.Prelude.{slice_get, take, Some};
ghost use Rattle.std.specs.Option.{option_map};
ghost use Rattle.rule_declares.specs.OrdinalValues.{first_value};
ghost use Rattle.rule_ports.specs.PortTable.{IsTable, IsSplit, IsPortNumber, listed, capped};
ghost use Rattle.rule_ports.specs.inside.Making.{IsDistance, IsOffset, IsRank};

use crate::table::PointTable;
use est_syntax::kind::{Kind, Kinds};
use est_syntax::name::Name;
use est_syntax::ports::Signals;
use rule_declares::rule_kinds::hosts::count;
use std::marker::Model;

/// The ports of a specification, in the order of their declarations and in ascending order of their
/// subscripts. They are kept by the interaction points that they are elements of; contracts see the
/// list.
pub struct Ports {
    points: PointTable,
}

// In words, so that where they are let go of there is one call.
impl Drop for Ports {
    fn drop(self) {
        let Ports { points } = self;
        drop(points);
    }
}

impl Model for Ports {
    ghost use Rattle.std.specs.Prelude.{List};
    ghost use Rattle.std.specs.Coded.{codes};
    ghost use Rattle.est_syntax.specs.contracts.kind.Kind as kind;
    ghost use Rattle.est_syntax.specs.declared.ports.Port.{Port};
    ghost use Rattle.rule_ports.specs.PortTable.{IsTable, listed};

    ghost Value = { List Port };

    ghost coded = { Prim.hlevel (codes, kind.the_row.coded) };

    ghost view = { λ t. listed t.points };

    ghost invariant = { λ t. IsTable t.points };
}

// How many ports there are up to the last one of the interaction point with this number.
fn until(points: &PointTable, number: usize) -> u64
    requires { number < length points.now }
    ensures { option_map (λ p. p.1.until) (slice_get points.now number) ≡ Some result }
{
    match points.elements(number) {
        None => unreachable!(),
        Some(elements) => elements.until,
    }
}

/// How many ports the interaction points before one have, as far as 64 bits go.
pub fn ports_before(points: &PointTable, point: usize) -> u64
    requires table { IsTable points.now }
    requires point { point ≤ length points.now }
    ensures { result ≡ capped (length (listed (take point points.now))) }
{
    if point == 0 {
        return 0;
    }
    until(points, point - 1)
}

// How many interaction points come to their last port before the port of this number.
fn points_before(points: &PointTable, number: u64) -> usize
    requires { IsTable points.now }
    ensures { IsSplit points.now number result result }
{
    let mut low = 0;
    let mut high = points.len();
    while low < high {
        let middle = low + (high - low) / 2;
        if until(points, middle) <= number {
            low = middle + 1;
        } else {
            high = middle;
        }
    }
    low
}

// The first value of an ordinal kind.
fn first_value(kind: &Kind) -> i32
    ensures { result ≡ first_value kind.now }
{
    match kind {
        Kind::Integer => -2147483647,
        Kind::Part {
            host: _,
            low,
            high: _,
        } => *low,
        _ => 0,
    }
}

// How far an ordinal lies from one that it does not lie below.
fn distance(low: i32, ordinal: i32) -> Option<u64>
    ensures { IsDistance low ordinal result }
{
    if ordinal < low {
        None
    } else {
        Some((ordinal as i64 - low as i64) as u64)
    }
}

// The number of an ordinal among the values of a kind, if it is one of them.
fn offset(kind: &Kind, ordinal: i32) -> Option<u64>
    ensures { IsOffset kind.now ordinal result }
{
    let Some(number) = distance(first_value(kind), ordinal) else {
        return None;
    };
    if number < count(kind) {
        Some(number)
    } else {
        None
    }
}

// The number of a tuple among those of these kinds, if it is one of them.
fn rank(kinds: &[Kind], index: &[i32]) -> Option<u64>
    ensures { IsRank kinds.now index.now result }
{
    if kinds.len() != index.len() {
        return None;
    }
    let mut rank: u64 = 0;
    let mut size: u64 = 1;
    for i in (0..kinds.len()).rev() {
        match offset(&kinds[i], index[i]) {
            None => return None,
            Some(number) => {
                rank = number.saturating_mul(size).saturating_add(rank);
                size = count(&kinds[i]).saturating_mul(size);
            }
        }
    }
    Some(rank)
}

// The number of the port of this name that has these subscripts.
fn find_in(points: &PointTable, name: &[u8], index: &[i32]) -> Option<u32>
    requires { IsTable points.now }
    ensures { IsPortNumber name.now index.now (listed points.now) result }
{
    let Some(point) = points.number_of(name) else {
        return None;
    };
    let Some(elements) = points.elements(point) else {
        return None;
    };
    let Some(rank) = rank(elements.kinds.get().as_slice(), index) else {
        return None;
    };
    let number = ports_before(points, point).saturating_add(rank);
    if number <= u32::MAX as u64 {
        Some(number as u32)
    } else {
        None
    }
}

impl Ports {
    // The ports of these interaction points.
    pub(crate) fn new(points: PointTable) -> Ports
        requires { IsTable points }
        ensures { result ≡ listed points }
    {
        Ports { points }
    }

    /// How many there are, as far as 64 bits go.
    pub fn count(&self) -> u64
        ensures { result ≡ capped (length self.now) }
    {
        ports_before(&self.points, self.points.len())
    }

    /// The name of the port with this number.
    pub fn name(&self, number: u32) -> Option<&[u8]>
        ensures { option_copied result
            ≡ option_map (λ p. p.name.bytes) (slice_get self.now number) }
    {
        self.points.name(points_before(&self.points, number as u64))
    }

    /// The kinds of its subscripts.
    pub fn kinds(&self, number: u32) -> Option<&Kinds>
        ensures { option_copied result
            ≡ option_map (λ p. p.index_kinds) (slice_get self.now number) }
    {
        match self
            .points
            .elements(points_before(&self.points, number as u64))
        {
            None => None,
            Some(elements) => Some(elements.kinds.get()),
        }
    }

    /// What may pass it.
    pub fn signals(&self, number: u32) -> Option<&Signals>
        ensures { option_copied result ≡ option_map (λ p. p.signals) (slice_get self.now number) }
    {
        match self
            .points
            .elements(points_before(&self.points, number as u64))
        {
            None => None,
            Some(elements) => Some(elements.signals.get()),
        }
    }

    /// The number of the port of this name that has these subscripts.
    pub fn find(&self, name: &Name, index: &[i32]) -> Option<u32>
        ensures { IsPortNumber name.now.bytes index.now self.now result }
    {
        find_in(&self.points, name.bytes.as_slice(), index)
    }
}
