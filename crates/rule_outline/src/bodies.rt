//! What bodies, routines and transitions declare.
#![tactic(auto, using(crate::proofs::PartRows::body_at, crate::proofs::PartRows::routine_at))]

ghost use Rattle.std.specs.Prelude.{◌≡◌, OnOk, IfOk};
ghost use Rattle.rule_declares.specs.rule_scope.declared.declaration.Sort.TheVariants as sort;
ghost use Rattle.rule_declares.specs.Bodies.{body_named, body_header, header_given, inside};
ghost use Rattle.rule_declares.specs.Bodies.{routine_sort, routine_named};
ghost use Rattle.rule_declares.specs.Bodies.{result_given, head_declares, to_lying, closed_by};
ghost use Rattle.rule_declares.specs.Bodies.{part_declares, parts_declare, outline_of};
ghost use Rattle.rule_outline.specs.inside.DeclaredParts.{block_declares, first_declares};
ghost use Rattle.rule_outline.specs.inside.DeclaredParts.{transition_declares, transitions_declare};
ghost use Rattle.rule_outline.specs.inside.DeclaredParts.{group_declares};
ghost use Rattle.rule_outline.specs.inside.DeclaredParts.{groups_declare, held_declares};
ghost use Rattle.rule_outline.specs.inside.DeclaredParts.{body_declares, head_of, routine_declares};

use crate::declares::{consts, formals, states, statesets, types, vars};
use crate::entries::plain;
use crate::modules::{channel, header, modvars, points};
use crate::statements::{statement_place, statements};
use crate::transitions::clauses;
use crate::within::{in_body, inner, outermost, under};
use est_syntax::body::{Block, Body, FirstPart, Part};
use est_syntax::name::Used;
use est_syntax::routine::Routine;
use est_syntax::specification::Spec;
use est_syntax::transition::{Group, Transition};
use rule_declares::context::Context;
use rule_declares::rule_kinds::names::named_type;
use rule_declares::rule_scope::declaration::{Sort, Within};
use rule_declares::rule_scope::outline::Outline;
use rule_uses::routine::is_closed;
use std::alloc::{AllocError, Global};

// The name of a body.
fn body_named(within: &Within, name: &Used, outline: &mut Outline) -> Result<(), AllocError>
    ensures { OnOk result (outline.new ≡ body_named within.now name.now outline.old) }
{
    outline.lie(within, name.place)?;
    outline.declare(within, name, name.place, plain(within, Sort::Body))
}

// The header of a body.
fn body_header(outline: &Outline, header: &Used) -> Option<u32>
    ensures { result ≡ body_header outline.now header.now }
{
    outline.declaration_of(Sort::Header, header)
}

// A body gets its header.
fn header_given(name: &Used, header: &Used, outline: &mut Outline)
    ensures { outline.new ≡ header_given name.now header.now outline.old }
{
    let header = body_header(outline, header);
    outline.give_header(name.place, header);
}

// What stands in a body.
fn inside(
    alloc: Global,
    within: &Within,
    name: &Used,
    header: &Used,
    outline: &Outline,
) -> Result<Within, AllocError>
    ensures { IfOk result
        (λ inner. inner ≡ inside within.now name.now header.now outline.now) }
{
    in_body(alloc, within, name.place, body_header(outline, header))
}

// The sort of a routine.
fn routine_sort(of: &Option<Used>) -> Sort
    ensures { result ≡ routine_sort of.now }
{
    match of {
        None => Sort::Procedure,
        Some(_) => Sort::Function,
    }
}

// The name of a routine.
fn routine_named(
    within: &Within,
    name: &Used,
    of: &Option<Used>,
    outline: &mut Outline,
) -> Result<(), AllocError>
    ensures { OnOk result (outline.new ≡ routine_named within.now name.now of.now outline.old) }
{
    outline.lie(within, name.place)?;
    outline.declare(within, name, name.place, plain(within, routine_sort(of)))
}

// The kind of a function is that of its result.
fn result_given(
    within: &Within,
    name: &Used,
    of: &Option<Used>,
    outline: &mut Outline,
) -> Result<(), AllocError>
    ensures { OnOk result (outline.new ≡ result_given within.now name.now of.now outline.old) }
{
    let Some(used) = of else {
        return Ok(());
    };
    outline.lie(within, used.place)?;
    let kind = named_type(outline, used)?;
    outline.give_kind(name.place, kind);
    Ok(())
}

// The head of a routine.
fn head_declares(
    within: &Within,
    routine: &Routine,
    outline: &mut Outline,
) -> Result<(), AllocError>
    ensures { OnOk result (outline.new ≡ head_of within.now routine.now outline.old) }
{
    formals(within, routine.formals.as_slice(), outline)?;
    result_given(within, &routine.name, &routine.result, outline)
}

// The first state of a body.
fn to_lying(within: &Within, to: &Option<Used>, outline: &mut Outline) -> Result<(), AllocError>
    ensures { OnOk result (outline.new ≡ to_lying within.now to.now outline.old) }
{
    match to {
        None => Ok(()),
        Some(used) => outline.lie(within, used.place),
    }
}

// Whether a routine is closed.
fn closed_by(part: &Part, outline: &mut Outline)
    ensures { outline.new ≡ closed_by part.now outline.old }
{
    if let Part::Routine(routine) = part {
        let closed = is_closed(outline, routine);
        outline.close(routine.name.place, closed);
    }
}

// The block of a routine, a transition or a first part.
#[cycle(part)]
fn block_declares(
    alloc: Global,
    within: &Within,
    block: &Block,
    outline: &mut Outline,
) -> Result<(), AllocError>
    ensures { OnOk result (outline.new ≡ block_declares within.now block.now outline.old) }
{
    parts_declare(alloc, within, block.parts.as_slice(), outline)?;
    statements(alloc, within, block.statements.as_slice(), outline)
}

// The first part of a body, where it has one: its block stands in a region of its own.
#[cycle(part)]
fn first_declares(
    alloc: Global,
    within: &Within,
    first: &Option<FirstPart>,
    outline: &mut Outline,
) -> Result<(), AllocError>
    ensures { OnOk result (outline.new ≡ first_declares within.now first.now outline.old) }
{
    let Some(first) = first else {
        return Ok(());
    };
    to_lying(within, &first.to, outline)?;
    let inside = inner(alloc, within, first.block.place)?;
    block_declares(alloc, &inside, &first.block, outline)
}

// A transition: its block stands under its clauses, in a region of its own.
#[cycle(part)]
fn transition_declares(
    alloc: Global,
    within: &Within,
    transition: &Transition,
    context: &mut Context,
    outline: &mut Outline,
) -> Result<(), AllocError>
    ensures { OnOk result
        ((context.new, outline.new) ≡ transition_declares within.now transition.now
        (context.old, outline.old)) }
{
    clauses(
        alloc,
        within,
        transition.clauses.as_slice(),
        context,
        outline,
    )?;
    let outer = under(alloc, within, context.as_slice())?;
    let inside = inner(alloc, &outer, transition.block.place)?;
    block_declares(alloc, &inside, &transition.block, outline)
}

// The transitions of a group, which have the clauses of those before them.
#[cycle(part)]
fn transitions_declare(
    alloc: Global,
    within: &Within,
    transitions: &[Transition],
    context: &mut Context,
    outline: &mut Outline,
) -> Result<(), AllocError>
    ensures { OnOk result
        ((context.new, outline.new) ≡ transitions_declare within.now transitions.now
        (context.old, outline.old)) }
{
    for transition in transitions {
        transition_declares(alloc, within, transition, context, outline)?;
    }
    Ok(())
}

// A group of transitions, which begins without clauses.
#[cycle(part)]
fn group_declares(
    alloc: Global,
    within: &Within,
    group: &Group,
    outline: &mut Outline,
) -> Result<(), AllocError>
    ensures { OnOk result (outline.new ≡ group_declares within.now group.now outline.old) }
{
    let mut context = Context::new(alloc);
    transitions_declare(
        alloc,
        within,
        group.transitions.as_slice(),
        &mut context,
        outline,
    )
}

// The groups of transitions of a body.
#[cycle(part)]
fn groups_declare(
    alloc: Global,
    within: &Within,
    groups: &[Group],
    outline: &mut Outline,
) -> Result<(), AllocError>
    ensures { OnOk result (outline.new ≡ groups_declare within.now groups.now outline.old) }
{
    for group in groups {
        group_declares(alloc, within, group, outline)?;
    }
    Ok(())
}

// What stands in a body.
#[cycle(part)]
fn held_declares(
    alloc: Global,
    within: &Within,
    body: &Body,
    outline: &mut Outline,
) -> Result<(), AllocError>
    ensures { OnOk result (outline.new ≡ held_declares within.now body.now outline.old) }
{
    parts_declare(alloc, within, body.parts.as_slice(), outline)?;
    first_declares(alloc, within, &body.first, outline)?;
    groups_declare(alloc, within, body.groups.as_slice(), outline)
}

// A body: its header is looked up after its name is declared.
#[cycle(part)]
fn body_declares(
    alloc: Global,
    within: &Within,
    body: &Body,
    outline: &mut Outline,
) -> Result<(), AllocError>
    ensures { OnOk result (outline.new ≡ body_declares within.now body.now outline.old) }
{
    body_named(within, &body.name, outline)?;
    let inside = inside(alloc, within, &body.name, &body.header, outline)?;
    header_given(&body.name, &body.header, outline);
    held_declares(alloc, &inside, body, outline)
}

// A routine: its head and its block stand in one region.
#[cycle(part)]
fn routine_declares(
    alloc: Global,
    within: &Within,
    routine: &Routine,
    outline: &mut Outline,
) -> Result<(), AllocError>
    ensures { OnOk result (outline.new ≡ routine_declares within.now routine.now outline.old) }
{
    routine_named(within, &routine.name, &routine.result, outline)?;
    let inside = inner(alloc, within, routine.name.place)?;
    head_declares(&inside, routine, outline)?;
    block_declares(alloc, &inside, &routine.block, outline)
}

// A part, but for whether it is a closed routine.
#[cycle(part)]
fn part_declares(
    alloc: Global,
    within: &Within,
    part: &Part,
    outline: &mut Outline,
) -> Result<(), AllocError>
    ensures { OnOk result (outline.new ≡ part_declares within.now part.now outline.old) }
{
    match part {
        Part::Consts(items) => consts(within, items.as_slice(), outline),
        Part::Types(items) => types(alloc, within, items.as_slice(), outline),
        Part::Channel(item) => channel(alloc, within, item, outline),
        Part::Header(item) => header(alloc, within, item, outline),
        Part::Body(body) => body_declares(alloc, within, body, outline),
        Part::Modvars(items) => modvars(alloc, within, items.as_slice(), outline),
        Part::Points(items) => points(alloc, within, items.as_slice(), outline),
        Part::Vars(items) => vars(alloc, within, items.as_slice(), outline),
        Part::States(names) => states(within, names.as_slice(), outline),
        Part::StateSets(items) => statesets(alloc, within, items.as_slice(), outline),
        Part::Routine(routine) => routine_declares(alloc, within, routine, outline),
    }
}

// A part, and whether it is a closed routine.
#[cycle(part)]
fn whole_part_declares(
    alloc: Global,
    within: &Within,
    part: &Part,
    outline: &mut Outline,
) -> Result<(), AllocError>
    ensures { OnOk result
        (outline.new ≡ closed_by part.now (part_declares within.now part.now outline.old)) }
{
    part_declares(alloc, within, part, outline)?;
    closed_by(part, outline);
    Ok(())
}

// Parts in the order of the text.
#[cycle(part)]
fn parts_declare(
    alloc: Global,
    within: &Within,
    parts: &[Part],
    outline: &mut Outline,
) -> Result<(), AllocError>
    ensures { OnOk result (outline.new ≡ parts_declare within.now parts.now outline.old) }
{
    for part in parts {
        whole_part_declares(alloc, within, part, outline)?;
    }
    Ok(())
}

/// All that a specification declares.
pub fn outline_of(alloc: Global, spec: &Spec) -> Result<Outline, AllocError>
    ensures { IfOk result (λ outline. outline ≡ outline_of spec.now) }
{
    let mut outline = Outline::new(alloc);
    let within = outermost(alloc)?;
    parts_declare(alloc, &within, spec.parts.as_slice(), &mut outline)?;
    outline.lie(&within, statement_place(&spec.first))?;
    Ok(outline)
}
