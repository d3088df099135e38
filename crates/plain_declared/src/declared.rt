//! What is known of declarations.

ghost use Rattle.std.specs.Prelude.{◌≡◌, Some, IfOk, OnOk, [], ◌∷◌, ◌++◌};
ghost use Rattle.std.specs.Option.{option_copied};
ghost use Rattle.mean_blocks.specs.rule_declares.Bodies.{side_meant};
ghost use Rattle.mean_blocks.specs.NamesInRuns.{kind_at, dims_at, header_at, declared_within};
ghost use Rattle.mean_blocks.specs.NamesInRuns.{declared_in_header, interaction_of, places_of};
ghost use Rattle.mean_blocks.specs.NamesInRuns.{is_place_section, takes_place, declared_at};
ghost use Rattle.mean_blocks.specs.InstancePoints.{is_module};
ghost use Rattle.mean_blocks.specs.StatementEffects.{first_state};
ghost use Rattle.plain_declared.specs.ShownNames.{of_sort, places_in};

use est_syntax::body::FirstPart;
use est_syntax::est_items::Items;
use est_syntax::expression::Access;
use est_syntax::kind::Kind;
use est_syntax::name::Used;
use mean_blocks::rule_declares::lookups::header_in;
use mean_blocks::rule_scope::declaration::{Meant, Member, Section, Side, Sort};
use mean_blocks::rule_scope::names::Names;
use mean_blocks::rule_scope::outline::Outline;
use std::alloc::{AllocError, Global};

/// Places of declarations, in the order of the text.
pub type Places = Items<u32>;

/// Where a name is declared.
pub fn declared_at(outline: &Outline, used: &Used) -> Option<u32>
    ensures { result ≡ declared_at outline.now used.now }
{
    match outline.meaning(used) {
        Meant::Seen(place) => Some(place),
        _ => None,
    }
}

/// The kind of what is declared at a place.
pub fn kind_at(outline: &Outline, place: u32) -> Option<&Kind>
    ensures { option_copied result ≡ kind_at outline.now place }
{
    match outline.entry(place) {
        None => None,
        Some(entry) => match &entry.kind {
            None => None,
            Some(measured) => Some(&measured.kind),
        },
    }
}

/// The kinds of the subscripts of what is declared at a place.
pub fn dims_at(outline: &Outline, place: u32) -> Option<&[Kind]>
    ensures { option_copied result ≡ dims_at outline.now place }
{
    match outline.entry(place) {
        None => None,
        Some(entry) => match &entry.dims {
            None => None,
            Some(kinds) => Some(kinds.get().as_slice()),
        },
    }
}

/// The header of the body or the module variable that is declared at a place.
pub fn header_at(outline: &Outline, place: u32) -> Option<u32>
    ensures { result ≡ header_at outline.now place }
{
    header_in(outline, place)
}

/// Where a region declares a name.
pub fn declared_within(outline: &Outline, used: &Used, region: u32) -> Option<u32>
    ensures { result ≡ declared_within outline.now used.now region }
{
    match outline.standing(region, &used.name) {
        None => None,
        Some(standing) => Some(standing.place),
    }
}

/// Where the header of the module variable at a place declares a name.
pub fn declared_in_header(outline: &Outline, place: u32, used: &Used) -> Option<u32>
    ensures { result ≡ declared_in_header outline.now place used.now }
{
    match header_at(outline, place) {
        None => None,
        Some(header) => declared_within(outline, used, header),
    }
}

// The channel and the role of the interaction point that is declared at a place.
fn side(outline: &Outline, place: u32) -> Option<Side>
    ensures { result ≡ side_meant outline.now (Some place) }
{
    match outline.entry(place) {
        None => None,
        Some(entry) => entry.side,
    }
}

/// Where the interaction is declared that a name means at the interaction point at a place.
pub fn interaction_of(outline: &Outline, place: u32, used: &Used) -> Option<u32>
    ensures { result ≡ interaction_of outline.now place used.now }
{
    let standing = outline.standing(side(outline, place)?.channel, &used.name)?;
    match outline.member(standing.place) {
        Some(Member::Interaction(_)) => Some(standing.place),
        _ => None,
    }
}

// Adds a place, where what is declared there is of a sort.
fn add_place(
    places: &mut Places,
    outline: &Outline,
    sort: Sort,
    place: u32,
) -> Result<(), AllocError>
    ensures { OnOk result
        (places.new ≡ places.old ++ of_sort outline.now sort (place ∷ [])) }
{
    if outline.is_sort(sort, place) {
        places.push(place)?;
    }
    Ok(())
}

// The places of what names of a region declare with a sort.
fn places_in(
    alloc: Global,
    outline: &Outline,
    sort: Sort,
    names: &Names,
) -> Result<Places, AllocError>
    ensures { IfOk result (λ places. places ≡ places_in outline.now sort names.now) }
{
    let mut places = Items {
        items: Vec::with_capacity(alloc, names.len())?,
    };
    for number in 0..names.len() {
        let (_, standing) = names.entry(number);
        add_place(&mut places, outline, sort, standing.place)?;
    }
    Ok(places)
}

/// The places of what a region declares with a sort, in the order of the text.
pub fn places_of(
    alloc: Global,
    outline: &Outline,
    sort: Sort,
    region: u32,
) -> Result<Places, AllocError>
    ensures { IfOk result (λ places. places ≡ places_of outline.now sort region) }
{
    match outline.names(region) {
        None => Ok(Items::new(alloc)),
        Some(names) => places_in(alloc, outline, sort, names),
    }
}

// Whether a parameter is given a variable.
fn is_place_section(section: Section) -> bool
    ensures { result ≡ is_place_section section }
{
    match section {
        Section::Place => true,
        _ => false,
    }
}

/// Whether the parameter with this number, counted from 0, of the routine at a place is given a
/// variable.
pub fn takes_place(outline: &Outline, routine: u32, number: usize) -> bool
    ensures { result ≡ takes_place outline.now routine number }
{
    match outline.nth(routine, number) {
        None => false,
        Some(place) => match outline.entry(place) {
            None => false,
            Some(entry) => is_place_section(entry.section),
        },
    }
}

/// Whether a name means module variables.
pub fn is_module(outline: &Outline, access: &Access) -> bool
    ensures { result ≡ is_module outline.now access.now }
{
    match declared_at(outline, &access.name) {
        None => false,
        Some(place) => outline.is_sort(Sort::ModuleVariable, place),
    }
}

/// The state that an initialize part names, if it names one.
pub fn first_state(outline: &Outline, first: &FirstPart) -> Option<u32>
    ensures { result ≡ first_state outline.now first.now }
{
    match &first.to {
        None => None,
        Some(used) => declared_at(outline, used),
    }
}
