//! What channels, headers, interaction points and module variables break.
#![tactic(auto, using(rule_scope::proofs::LeastLaws::least_append))]

ghost use Rattle.std.specs.Prelude.{◌≡◌, OnOk, flat_map};
ghost use Rattle.rule_scope.specs.LeastSoFar.{least_with};
ghost use Rattle.rule_scope.specs.Outline.{entry_at};
ghost use Rattle.est_types.specs.DeclarationFaults.{role_faults, interaction_faults};
ghost use Rattle.est_types.specs.DeclarationFaults.{by_part_faults};
ghost use Rattle.est_types.specs.DeclarationFaults.{channel_faults, side_faults, point_faults};
ghost use Rattle.est_types.specs.DeclarationFaults.{header_faults};
ghost use Rattle.est_types.specs.DeclarationFaults.{is_system, may_own};
ghost use Rattle.est_types.specs.DeclarationFaults.{attribute_faults};
ghost use Rattle.est_types.specs.DeclarationFaults.{modvar_faults};

use crate::sections::check_vardefs;
use est_syntax::channel::{ByPart, Channel, InteractionDef};
use est_syntax::header::{Header, ModvarDef, Point};
use est_syntax::name::Used;
use est_syntax::rule::Rule;
use rule_declares::rule_kinds::dims::check_dims;
use rule_outline::modules::member_named;
use rule_scope::declaration::{Member, Sort};
use rule_scope::least::Least;
use rule_scope::outline::Outline;
use std::alloc::{AllocError, Global};

/// What has the parts that are checked: the specification, or else a body, a routine or a block.
#[derive(Clone, Copy)]
pub enum Owner {
    Specification,
    Body,
}

// The use of a role, which is looked up in its channel.
fn check_role(outline: &Outline, channel: u32, used: &Used, least: &mut Least)
    ensures { least.new.at ≡ least_with least.old.at (role_faults outline.now channel used.now) }
{
    match member_named(outline, channel, used) {
        None => least.note(used.place, Rule::UnknownName),
        Some(Member::Role(_)) => (),
        Some(_) => least.note(used.place, Rule::WrongSort),
    }
}

// The roles of a part of a channel.
fn check_roles(outline: &Outline, channel: u32, names: &[Used], least: &mut Least)
    ensures { least.new.at
        ≡ least_with least.old.at (flat_map (role_faults outline.now channel) names.now) }
{
    for used in names {
        check_role(outline, channel, used, least);
    }
}

// An interaction.
fn check_interaction(
    alloc: Global,
    outline: &Outline,
    item: &InteractionDef,
    least: &mut Least,
) -> Result<(), AllocError>
    ensures { OnOk result
        (least.new.at ≡ least_with least.old.at (interaction_faults outline.now item.now)) }
{
    outline.check_again(&item.name, least);
    check_vardefs(alloc, outline, item.params.as_slice(), least)
}

// Interactions.
fn check_interactions(
    alloc: Global,
    outline: &Outline,
    items: &[InteractionDef],
    least: &mut Least,
) -> Result<(), AllocError>
    ensures { OnOk result
        (least.new.at ≡ least_with least.old.at (flat_map (interaction_faults outline.now) items.now)) }
{
    for item in items {
        check_interaction(alloc, outline, item, least)?;
    }
    Ok(())
}

// A part of a channel.
fn check_by_part(
    alloc: Global,
    outline: &Outline,
    channel: u32,
    item: &ByPart,
    least: &mut Least,
) -> Result<(), AllocError>
    ensures { OnOk result
        (least.new.at ≡ least_with least.old.at (by_part_faults outline.now channel item.now)) }
{
    check_roles(outline, channel, item.roles.as_slice(), least);
    check_interactions(alloc, outline, item.interactions.as_slice(), least)
}

// The parts of a channel.
fn check_by_parts(
    alloc: Global,
    outline: &Outline,
    channel: u32,
    items: &[ByPart],
    least: &mut Least,
) -> Result<(), AllocError>
    ensures { OnOk result
        (least.new.at ≡ least_with least.old.at (flat_map (by_part_faults outline.now channel) items.now)) }
{
    for item in items {
        check_by_part(alloc, outline, channel, item, least)?;
    }
    Ok(())
}

/// A channel.
pub fn check_channel(
    alloc: Global,
    outline: &Outline,
    item: &Channel,
    least: &mut Least,
) -> Result<(), AllocError>
    ensures { OnOk result
        (least.new.at ≡ least_with least.old.at (channel_faults outline.now item.now)) }
{
    outline.check_twice(&item.name, least);
    outline.check_agains(item.roles.as_slice(), least);
    check_by_parts(alloc, outline, item.name.place, item.by.as_slice(), least)
}

// The role of an interaction point, which is looked up where its channel is one.
fn check_side(outline: &Outline, channel: Option<u32>, role: &Used, least: &mut Least)
    ensures { least.new.at ≡ least_with least.old.at (side_faults outline.now channel role.now) }
{
    if let Some(channel) = channel {
        check_role(outline, channel, role, least);
    }
}

// Interaction points that are declared together.
fn check_point(
    alloc: Global,
    outline: &Outline,
    item: &Point,
    least: &mut Least,
) -> Result<(), AllocError>
    ensures { OnOk result
        (least.new.at ≡ least_with least.old.at (point_faults outline.now item.now)) }
{
    outline.check_twices(item.names.as_slice(), least);
    drop(check_dims(alloc, outline, item.dims.as_slice(), item.place, least)?);
    outline.check_use(Sort::Channel, &item.channel, least);
    let channel = outline.declaration_of(Sort::Channel, &item.channel);
    check_side(outline, channel, &item.role, least);
    Ok(())
}

/// Interaction points.
pub fn check_points(
    alloc: Global,
    outline: &Outline,
    items: &[Point],
    least: &mut Least,
) -> Result<(), AllocError>
    ensures { OnOk result
        (least.new.at ≡ least_with least.old.at (flat_map (point_faults outline.now) items.now)) }
{
    for item in items {
        check_point(alloc, outline, item, least)?;
    }
    Ok(())
}

/// A header.
pub fn check_header(
    alloc: Global,
    outline: &Outline,
    item: &Header,
    least: &mut Least,
) -> Result<(), AllocError>
    ensures { OnOk result
        (least.new.at ≡ least_with least.old.at (header_faults outline.now item.now)) }
{
    outline.check_twice(&item.name, least);
    check_vardefs(alloc, outline, item.params.as_slice(), least)?;
    check_points(alloc, outline, item.points.as_slice(), least)?;
    check_vardefs(alloc, outline, item.exports.as_slice(), least)
}

// Whether the header at a place is that of a system.
fn is_system(outline: &Outline, place: u32) -> bool
    ensures { result ≡ is_system (entry_at outline.now place) }
{
    match outline.entry(place) {
        None => false,
        Some(entry) => entry.system,
    }
}

// Whether an owner may have modules of a header with this attribute.
fn may_own(owner: Owner, system: bool) -> bool
    ensures { result ≡ may_own owner system }
{
    match owner {
        Owner::Specification => system,
        Owner::Body => !system,
    }
}

// The attribute of the header of a module variable.
fn check_attribute(
    outline: &Outline,
    owner: Owner,
    header: Option<u32>,
    place: u32,
    least: &mut Least,
)
    ensures { least.new.at
        ≡ least_with least.old.at (attribute_faults outline.now owner header place) }
{
    if let Some(header) = header {
        if !may_own(owner, is_system(outline, header)) {
            least.note(place, Rule::WrongAttribute);
        }
    }
}

// Module variables that are declared together.
fn check_modvar(
    alloc: Global,
    outline: &Outline,
    owner: Owner,
    item: &ModvarDef,
    least: &mut Least,
) -> Result<(), AllocError>
    ensures { OnOk result
        (least.new.at ≡ least_with least.old.at (modvar_faults outline.now owner item.now)) }
{
    outline.check_twices(item.names.as_slice(), least);
    drop(check_dims(alloc, outline, item.dims.as_slice(), item.place, least)?);
    outline.check_use(Sort::Header, &item.header, least);
    let header = outline.declaration_of(Sort::Header, &item.header);
    check_attribute(outline, owner, header, item.header.place, least);
    Ok(())
}

/// Module variables: those of the specification are of systems, those of bodies are not.
pub fn check_modvars(
    alloc: Global,
    outline: &Outline,
    owner: Owner,
    items: &[ModvarDef],
    least: &mut Least,
) -> Result<(), AllocError>
    ensures { OnOk result
        (least.new.at ≡ least_with least.old.at (flat_map (modvar_faults outline.now owner) items.now)) }
{
    for item in items {
        check_modvar(alloc, outline, owner, item, least)?;
    }
    Ok(())
}
