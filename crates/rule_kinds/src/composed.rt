//! The kinds of ranges, enumerations, arrays, sets and records, made of the kinds of their parts.
#![tactic(auto, using(rule_scope::proofs::LeastLaws::least_append))]

ghost use Rattle.std.specs.Prelude.{◌≡◌, ◌++◌, map, Some, IfOk, OnOk};
ghost use Rattle.est_syntax.specs.declared.name.Used.{Used};
ghost use Rattle.est_syntax.specs.declared.kind.Kind.TheVariants.{ArrayOf};
ghost use Rattle.rule_scope.specs.LeastSoFar.{least_with};
ghost use Rattle.rule_kinds.specs.TypeTexts.{are_bounds, range, range_faults};
ghost use Rattle.rule_kinds.specs.TypeTexts.{are_declared, enumeration};
ghost use Rattle.rule_kinds.specs.TypeTexts.{array, limited, size_faults, array_of, array_faults};
ghost use Rattle.rule_kinds.specs.TypeTexts.{set_of, set_faults, field_kinds};
ghost use Rattle.rule_kinds.specs.TypeTexts.{with_fields, are_members};
ghost use Rattle.rule_kinds.specs.TypeTexts.{known_fields, record_of, record_faults};

use crate::hosts::{count, is_ordinal, is_within, same_host, scalar};
use crate::value::{Gathered, Valued};
use est_syntax::est_items::Shared;
use est_syntax::kind::{FieldKind, FieldKinds, Kind, Names};
use est_syntax::name::Used;
use est_syntax::rule::Rule;
use rule_scope::declaration::Measured;
use rule_scope::least::Least;
use rule_scope::outline::Outline;
use std::alloc::{AllocError, Global};

// The greatest number of members of a set.
const MOST_MEMBERS: u64 = 64;

// Whether two constants have one host, and the first is not greater.
fn are_bounds(low: &Valued, high: &Valued) -> bool
    ensures { result ≡ are_bounds low.now high.now }
{
    same_host(&low.host, &high.host) && low.ordinal <= high.ordinal
}

/// The kind of a range between two constants that begins at a place. Notes bounds that are none.
pub fn check_bounds(
    alloc: Global,
    low: Option<Valued>,
    high: Option<Valued>,
    place: u32,
    least: &mut Least,
) -> Result<Option<Measured>, AllocError>
    ensures kind { IfOk result (λ m. m ≡ range low high) }
    ensures faults { OnOk result (least.new.at
        ≡ least_with least.old.at (range_faults low high place)) }
{
    let Some(low) = low else {
        drop(high);
        return Ok(None);
    };
    let Some(high) = high else {
        drop(low);
        return Ok(None);
    };
    if !are_bounds(&low, &high) {
        least.note(place, Rule::WrongBounds);
        drop(low);
        drop(high);
        return Ok(None);
    }
    let last = high.ordinal;
    drop(high);
    Ok(Some(scalar(Kind::Part {
        host: Shared::new(alloc, low.host)?,
        low: low.ordinal,
        high: last,
    })))
}

// Whether an enumeration declares all of these names.
fn are_declared(outline: &Outline, names: &[Used]) -> bool
    ensures { result ≡ are_declared outline.now names.now }
{
    for used in names {
        if outline.entry(used.place).is_none() {
            return false;
        }
    }
    true
}

// The names without their places.
fn copy_names(alloc: Global, names: &[Used]) -> Result<Names, AllocError>
    ensures { IfOk result (λ copies. copies ≡ map (λ (u : Used). u.name) names.now) }
{
    let mut copies = Names::new(alloc);
    for used in names {
        copies.push(used.name.copy(alloc)?)?;
    }
    Ok(copies)
}

/// The kind of an enumeration of names at a place, all of which it declares.
pub fn enumeration(
    alloc: Global,
    outline: &Outline,
    names: &[Used],
    place: u32,
) -> Result<Option<Measured>, AllocError>
    ensures { IfOk result (λ m. m ≡ enumeration outline.now names.now place) }
{
    if names.is_empty() || !are_declared(outline, names) {
        return Ok(None);
    }
    let names = copy_names(alloc, names)?;
    Ok(Some(scalar(Kind::Enumeration {
        declared: place,
        names: Shared::new(alloc, names)?,
    })))
}

// The kind of an array over an index.
fn array_kind(alloc: Global, index: Kind, of: Kind) -> Result<Kind, AllocError>
    ensures { IfOk result (λ kind. kind ≡ ArrayOf index of) }
{
    let index = Shared::new(alloc, index)?;
    let of = Shared::new(alloc, of)?;
    Ok(Kind::ArrayOf { index, of })
}

// The kind of an array at a place. Notes where it is too large.
fn check_array(
    alloc: Global,
    index: Measured,
    of: Measured,
    place: u32,
    least: &mut Least,
) -> Result<Option<Measured>, AllocError>
    ensures kind { IfOk result (λ m. m ≡ limited (array index of)) }
    ensures faults { OnOk result (least.new.at
        ≡ least_with least.old.at (size_faults (limited (array index of)) place)) }
{
    let scalars = count(&index.kind).saturating_mul(of.scalars);
    let levels = of.levels.saturating_add(1);
    if !is_within(scalars, levels) {
        least.note(place, Rule::TooLarge);
        drop(index);
        drop(of);
        return Ok(None);
    }
    Ok(Some(Measured {
        kind: array_kind(alloc, index.kind, of.kind)?,
        scalars,
        levels,
    }))
}

/// The kind of an array over an index that begins at the first place, where the array does at the
/// second. Notes what it breaks.
pub fn check_indexed(
    alloc: Global,
    index: Measured,
    of: Option<Measured>,
    first: u32,
    place: u32,
    least: &mut Least,
) -> Result<Option<Measured>, AllocError>
    ensures kind { IfOk result (λ m. m ≡ array_of (Some index) of) }
    ensures faults { OnOk result (least.new.at
        ≡ least_with least.old.at (array_faults (Some index) of first place)) }
{
    if !is_ordinal(&index.kind) {
        least.note(first, Rule::WrongKind);
        drop(index);
        drop(of);
        return Ok(None);
    }
    match of {
        None => {
            drop(index);
            Ok(None)
        },
        Some(of) => check_array(alloc, index, of, place, least),
    }
}

/// The kind of a set over a base that begins at the first place, where the set does at the second.
/// Notes what it breaks.
pub fn check_set(
    alloc: Global,
    base: Measured,
    first: u32,
    place: u32,
    least: &mut Least,
) -> Result<Option<Measured>, AllocError>
    ensures kind { IfOk result (λ m. m ≡ set_of (Some base)) }
    ensures faults { OnOk result (least.new.at
        ≡ least_with least.old.at (set_faults (Some base) first place)) }
{
    if !is_ordinal(&base.kind) {
        least.note(first, Rule::WrongKind);
        drop(base);
        return Ok(None);
    }
    if count(&base.kind) > MOST_MEMBERS {
        least.note(place, Rule::TooLarge);
        drop(base);
        return Ok(None);
    }
    Ok(Some(scalar(Kind::SetOf(Shared::new(alloc, base.kind)?))))
}

// Whether a record declares all of these names.
fn are_members(outline: &Outline, names: &[Used]) -> bool
    ensures { result ≡ are_members outline.now names.now }
{
    for used in names {
        if outline.member(used.place).is_none() {
            return false;
        }
    }
    true
}

/// The fields so far, where a record declares all of these names.
pub fn known_fields(
    outline: &Outline,
    names: &[Used],
    gathered: Option<Gathered>,
) -> Option<Gathered>
    ensures { result ≡ known_fields outline.now names.now gathered }
{
    if are_members(outline, names) {
        gathered
    } else {
        drop(gathered);
        None
    }
}

// Puts fields of one kind last.
fn add_kinds(
    alloc: Global,
    kinds: &mut FieldKinds,
    names: &[Used],
    kind: &Kind,
) -> Result<(), AllocError>
    ensures { OnOk result (kinds.new ≡ kinds.old ++ field_kinds names.now kind.now) }
{
    for used in names {
        let name = used.name.copy(alloc)?;
        let kind = kind.copy()?;
        kinds.push(FieldKind { name, kind })?;
    }
    Ok(())
}

// Puts fields of one type last, and counts their scalars.
fn add_fields(
    alloc: Global,
    gathered: &mut Gathered,
    names: &[Used],
    kind: &Measured,
) -> Result<(), AllocError>
    ensures { OnOk result (Some gathered.new
        ≡ with_fields (Some gathered.old) names.now (Some kind.now)) }
{
    add_kinds(alloc, &mut gathered.kinds, names, &kind.kind)?;
    let scalars = (names.len() as u64).saturating_mul(kind.scalars);
    gathered.scalars = gathered.scalars.saturating_add(scalars);
    gathered.levels = gathered.levels.max(kind.levels);
    Ok(())
}

/// The fields so far, and some names more that are declared with one type.
pub fn with_fields(
    alloc: Global,
    gathered: Option<Gathered>,
    names: &[Used],
    kind: Option<Measured>,
) -> Result<Option<Gathered>, AllocError>
    ensures { IfOk result (λ g. g ≡ with_fields gathered names.now kind) }
{
    let Some(mut gathered) = gathered else {
        drop(kind);
        return Ok(None);
    };
    let Some(kind) = kind else {
        drop(gathered);
        return Ok(None);
    };
    add_fields(alloc, &mut gathered, names, &kind)?;
    drop(kind);
    Ok(Some(gathered))
}

/// The kind of a record of these fields at a place. Notes where it is too large.
pub fn check_fields(
    alloc: Global,
    gathered: Option<Gathered>,
    place: u32,
    least: &mut Least,
) -> Result<Option<Measured>, AllocError>
    ensures kind { IfOk result (λ m. m ≡ record_of gathered) }
    ensures faults { OnOk result (least.new.at
        ≡ least_with least.old.at (record_faults gathered place)) }
{
    let Some(gathered) = gathered else {
        return Ok(None);
    };
    let scalars = gathered.scalars;
    let levels = gathered.levels.saturating_add(1);
    if !is_within(scalars, levels) {
        least.note(place, Rule::TooLarge);
        drop(gathered);
        return Ok(None);
    }
    let fields = Shared::new(alloc, gathered.kinds)?;
    Ok(Some(Measured {
        kind: Kind::Fields(fields),
        scalars,
        levels,
    }))
}
