//! What channels, headers, interaction points and module variables declare.

ghost use Rattle.std.specs.Prelude.{◌≡◌, ◌≤◌, take, drop, length, OnOk};
ghost use Rattle.rule_declares.specs.rule_scope.Declaring.{declared};
ghost use Rattle.rule_declares.specs.Entries.{point, module_variable};
ghost use Rattle.rule_declares.specs.Declares.{names_declare, roles_put, interaction_declares};
ghost use Rattle.rule_declares.specs.Declares.{interactions_declare, sender, senders};
ghost use Rattle.rule_declares.specs.Declares.{by_part_declares, by_parts_declare};
ghost use Rattle.rule_declares.specs.Declares.{channel_declares};
ghost use Rattle.rule_declares.specs.Declares.{side_with, member_named, side_of, point_declares};
ghost use Rattle.rule_declares.specs.Declares.{points_declare, modvar_declares, modvars_declare};
ghost use Rattle.rule_declares.specs.Declares.{before, after, sections_declare, header_declares};

use crate::declares::vars;
use crate::dims::{share_dims, shared_dims};
use crate::entries;
use crate::entries::{module_variable, plain, point};
use crate::lasts::{channel_last, header_last};
use crate::within::in_region;
use est_syntax::channel::{ByPart, Channel, InteractionDef, Role};
use est_syntax::header::{Header, ModvarDef, Point};
use est_syntax::name::Used;
use est_syntax::type_text::VarDef;
use rule_declares::rule_kinds::dims::{dims_elements, dims_of};
use rule_declares::rule_kinds::texts::text_place;
use rule_declares::rule_scope::declaration::{
    Member, Section, Senders, SharedKinds, Side, Sort, Within,
};
use rule_declares::rule_scope::outline::Outline;
use std::alloc::{AllocError, Global};

// The roles of a channel.
fn roles(
    region: u32,
    names: &[Used],
    mut role: Role,
    outline: &mut Outline,
) -> Result<(), AllocError>
    ensures { OnOk result (outline.new ≡ roles_put region names.now role outline.old) }
{
    for used in names {
        outline.put(region, used, Member::Role(role))?;
        role = Role::Second;
    }
    Ok(())
}

// An interaction, with a region for its parameters.
fn interaction(
    alloc: Global,
    within: &Within,
    region: u32,
    senders: Senders,
    item: &InteractionDef,
    outline: &mut Outline,
) -> Result<(), AllocError>
    ensures { OnOk result
        (outline.new ≡ interaction_declares within.now region senders item.now outline.old) }
{
    outline.put(region, &item.name, Member::Interaction(senders))?;
    let inside = in_region(Section::Interaction, within, item.name.place)?;
    vars(alloc, &inside, item.params.as_slice(), outline)
}

// The interactions of a part of a channel.
fn interactions(
    alloc: Global,
    within: &Within,
    region: u32,
    senders: Senders,
    items: &[InteractionDef],
    outline: &mut Outline,
) -> Result<(), AllocError>
    ensures { OnOk result
        (outline.new ≡ interactions_declare within.now region senders items.now outline.old) }
{
    for item in items {
        interaction(alloc, within, region, senders, item, outline)?;
    }
    Ok(())
}

/// The name of a channel or a record in its region.
pub fn member_named(outline: &Outline, region: u32, used: &Used) -> Option<Member>
    ensures { result ≡ member_named outline.now region used.now }
{
    match outline.standing(region, &used.name) {
        None => None,
        Some(standing) => outline.member(standing.place),
    }
}

// The senders, with a role more.
fn sender(member: Option<Member>, senders: Senders) -> Senders
    ensures { result ≡ sender member senders }
{
    match member {
        Some(Member::Role(Role::First)) => Senders {
            first: true,
            second: senders.second,
        },
        Some(Member::Role(Role::Second)) => Senders {
            first: senders.first,
            second: true,
        },
        _ => senders,
    }
}

// The roles that a `by` names.
fn senders(outline: &Outline, region: u32, roles: &[Used]) -> Senders
    ensures { result ≡ senders outline.now region roles.now }
{
    let mut found = Senders {
        first: false,
        second: false,
    };
    for used in roles {
        found = sender(member_named(outline, region, used), found);
    }
    found
}

// A part of a channel.
fn by_part(
    alloc: Global,
    within: &Within,
    region: u32,
    item: &ByPart,
    outline: &mut Outline,
) -> Result<(), AllocError>
    ensures { OnOk result (outline.new ≡ by_part_declares within.now region item.now outline.old) }
{
    let found = senders(outline, region, item.roles.as_slice());
    interactions(
        alloc,
        within,
        region,
        found,
        item.interactions.as_slice(),
        outline,
    )
}

// The parts of a channel.
fn by_parts(
    alloc: Global,
    within: &Within,
    region: u32,
    items: &[ByPart],
    outline: &mut Outline,
) -> Result<(), AllocError>
    ensures { OnOk result (outline.new ≡ by_parts_declare within.now region items.now outline.old) }
{
    for item in items {
        by_part(alloc, within, region, item, outline)?;
    }
    Ok(())
}

/// A channel, with a region for its roles and interactions.
pub fn channel(
    alloc: Global,
    within: &Within,
    item: &Channel,
    outline: &mut Outline,
) -> Result<(), AllocError>
    ensures { OnOk result (outline.new ≡ channel_declares within.now item.now outline.old) }
{
    let place = item.name.place;
    outline.lie(within, place)?;
    outline.declare(
        within,
        &item.name,
        channel_last(item),
        plain(within, Sort::Channel),
    )?;
    roles(place, item.roles.as_slice(), Role::First, outline)?;
    by_parts(alloc, within, place, item.by.as_slice(), outline)
}

// The side with a role of a channel, where it is one.
fn side_with(channel: u32, member: Option<Member>) -> Option<Side>
    ensures { result ≡ side_with channel member }
{
    match member {
        Some(Member::Role(role)) => Some(Side { channel, role }),
        _ => None,
    }
}

// The side of an interaction point.
fn side_of(outline: &Outline, item: &Point) -> Option<Side>
    ensures { result ≡ side_of outline.now item.now }
{
    match outline.declaration_of(Sort::Channel, &item.channel) {
        None => None,
        Some(channel) => side_with(channel, member_named(outline, channel, &item.role)),
    }
}

// An interaction point.
fn one_point(
    within: &Within,
    used: &Used,
    item: &Point,
    dims: &Option<SharedKinds>,
    elements: u64,
    side: Option<Side>,
    outline: &mut Outline,
) -> Result<(), AllocError>
    ensures { OnOk result (outline.new ≡ declared within.now used.now item.now.role.place
        (point within.now dims.now elements side item.now.queue) outline.old) }
{
    let dims = share_dims(dims)?;
    let entry = point(within, dims, elements, side, item.queue);
    outline.declare(within, used, item.role.place, entry)
}

// Interaction points with the same subscripts and side.
fn point_names(
    within: &Within,
    item: &Point,
    dims: &Option<SharedKinds>,
    elements: u64,
    side: Option<Side>,
    outline: &mut Outline,
) -> Result<(), AllocError>
    ensures { OnOk result (outline.new ≡ names_declare within.now item.now.names
        item.now.role.place (point within.now dims.now elements side item.now.queue) outline.old) }
{
    for used in item.names.as_slice() {
        one_point(within, used, item, dims, elements, side, outline)?;
    }
    Ok(())
}

// Interaction points that are declared together.
fn point_declares(
    alloc: Global,
    within: &Within,
    item: &Point,
    outline: &mut Outline,
) -> Result<(), AllocError>
    ensures { OnOk result (outline.new ≡ point_declares within.now item.now outline.old) }
{
    outline.lie(within, item.place)?;
    let dims = dims_of(alloc, outline, item.dims.as_slice())?;
    let elements = dims_elements(&dims);
    let dims = shared_dims(alloc, dims)?;
    let side = side_of(outline, item);
    point_names(within, item, &dims, elements, side, outline)
}

/// Interaction points.
pub fn points(
    alloc: Global,
    within: &Within,
    items: &[Point],
    outline: &mut Outline,
) -> Result<(), AllocError>
    ensures { OnOk result (outline.new ≡ points_declare within.now items.now outline.old) }
{
    for item in items {
        point_declares(alloc, within, item, outline)?;
    }
    Ok(())
}

// A module variable.
fn one_modvar(
    within: &Within,
    used: &Used,
    last: u32,
    dims: &Option<SharedKinds>,
    header: Option<u32>,
    outline: &mut Outline,
) -> Result<(), AllocError>
    ensures { OnOk result (outline.new ≡ declared within.now used.now last
        (module_variable within.now dims.now header) outline.old) }
{
    let dims = share_dims(dims)?;
    outline.declare(within, used, last, module_variable(within, dims, header))
}

// Module variables with the same subscripts and header.
fn modvar_names(
    within: &Within,
    item: &ModvarDef,
    dims: &Option<SharedKinds>,
    header: Option<u32>,
    outline: &mut Outline,
) -> Result<(), AllocError>
    ensures { OnOk result (outline.new ≡ names_declare within.now item.now.names
        item.now.header.place (module_variable within.now dims.now header) outline.old) }
{
    for used in item.names.as_slice() {
        one_modvar(within, used, item.header.place, dims, header, outline)?;
    }
    Ok(())
}

// Module variables that are declared together.
fn modvar(
    alloc: Global,
    within: &Within,
    item: &ModvarDef,
    outline: &mut Outline,
) -> Result<(), AllocError>
    ensures { OnOk result (outline.new ≡ modvar_declares within.now item.now outline.old) }
{
    outline.lie(within, item.place)?;
    let dims = shared_dims(alloc, dims_of(alloc, outline, item.dims.as_slice())?)?;
    let header = outline.declaration_of(Sort::Header, &item.header);
    modvar_names(within, item, &dims, header, outline)
}

/// Module variables.
pub fn modvars(
    alloc: Global,
    within: &Within,
    items: &[ModvarDef],
    outline: &mut Outline,
) -> Result<(), AllocError>
    ensures { OnOk result (outline.new ≡ modvars_declare within.now items.now outline.old) }
{
    for item in items {
        modvar(alloc, within, item, outline)?;
    }
    Ok(())
}

// How many exports stand before a place.
fn count_before(exports: &[VarDef], place: u32) -> usize
    ensures before { take result exports.now ≡ before exports.now place }
    ensures after { drop result exports.now ≡ after exports.now place }
    ensures bound { result ≤ length exports.now }
{
    let mut count = 0;
    for export in exports {
        if text_place(&export.text) >= place {
            return count;
        }
        count += 1;
    }
    count
}

// Interaction points and exports, in the order of the text.
fn sections(
    alloc: Global,
    within: &Within,
    points: &[Point],
    exports: &[VarDef],
    outline: &mut Outline,
) -> Result<(), AllocError>
    ensures { OnOk result
        (outline.new ≡ sections_declare within.now points.now exports.now outline.old) }
{
    let mut rest = exports;
    for item in points {
        let (ahead, behind) = rest.split_at(count_before(rest, item.place));
        vars(alloc, within, ahead, outline)?;
        point_declares(alloc, within, item, outline)?;
        rest = behind;
    }
    vars(alloc, within, rest, outline)
}

/// A header, with a region for its parameters, interaction points and exports.
pub fn header(
    alloc: Global,
    within: &Within,
    item: &Header,
    outline: &mut Outline,
) -> Result<(), AllocError>
    ensures { OnOk result (outline.new ≡ header_declares within.now item.now outline.old) }
{
    let place = item.name.place;
    outline.lie(within, place)?;
    outline.declare(
        within,
        &item.name,
        header_last(item),
        entries::header(within, item),
    )?;
    let params = in_region(Section::Parameter, within, place)?;
    vars(alloc, &params, item.params.as_slice(), outline)?;
    let inside = in_region(Section::Header, within, place)?;
    sections(
        alloc,
        &inside,
        item.points.as_slice(),
        item.exports.as_slice(),
        outline,
    )
}
