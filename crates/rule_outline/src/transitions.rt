//! What the clauses of transitions declare.

ghost use Rattle.std.specs.Prelude.{◌≡◌, OnOk};
ghost use Rattle.rule_declares.specs.rule_scope.declared.declaration.Sort.TheVariants as sort;
ghost use Rattle.rule_declares.specs.rule_scope.Uses.{declaration_of};
ghost use Rattle.rule_declares.specs.Bodies.{interaction_at, side_meant, awaited};
ghost use Rattle.rule_declares.specs.Bodies.{clause_given, when_given, any_given, clause_declares};
ghost use Rattle.rule_declares.specs.Bodies.{clauses_declare};

use crate::declares::vars;
use crate::within::{in_region, under};
use est_syntax::name::Used;
use est_syntax::transition::Clause;
use est_syntax::type_text::VarDef;
use rule_declares::context::{ClauseKind, Context, give};
use rule_declares::rule_scope::declaration::{Member, Section, Side, Sort, Within};
use rule_declares::rule_scope::outline::Outline;
use std::alloc::{AllocError, Global};

// The interaction of a channel, by the place of its name.
fn interaction_at(outline: &Outline, side: Option<Side>, used: &Used) -> Option<u32>
    ensures { result ≡ interaction_at outline.now side used.now }
{
    let standing = outline.standing(side?.channel, &used.name)?;
    match outline.member(standing.place) {
        Some(Member::Interaction(_)) => Some(standing.place),
        _ => None,
    }
}

// The side of the interaction point that a name means.
fn side_meant(outline: &Outline, at: &Used) -> Option<Side>
    ensures { result ≡ side_meant outline.now (declaration_of outline.now sort.Point at.now) }
{
    match outline.declaration_of(Sort::Point, at) {
        None => None,
        Some(place) => match outline.entry(place) {
            None => None,
            Some(entry) => entry.side,
        },
    }
}

// The interaction that a `when` names at an interaction point.
fn awaited(outline: &Outline, at: &Used, signal: &Used) -> Option<u32>
    ensures { result ≡ awaited outline.now at.now signal.now }
{
    interaction_at(outline, side_meant(outline, at), signal)
}

// A clause that declares nothing.
fn clause_given(
    alloc: Global,
    within: &Within,
    kind: ClauseKind,
    place: u32,
    context: &mut Context,
    outline: &mut Outline,
) -> Result<(), AllocError>
    ensures { OnOk result
        ((context.new, outline.new) ≡ clause_given within.now kind place
        (context.old, outline.old)) }
{
    kind.renew(context);
    let inside = under(alloc, within, context.as_slice())?;
    outline.lie(&inside, place)?;
    give(context, kind, None)
}

// A `when`, which opens the region of the parameters of its interaction.
fn when_clause(
    alloc: Global,
    within: &Within,
    at: &Used,
    signal: &Used,
    place: u32,
    context: &mut Context,
    outline: &mut Outline,
) -> Result<(), AllocError>
    ensures { OnOk result
        ((context.new, outline.new) ≡ when_given within.now at.now signal.now place
        (context.old, outline.old)) }
{
    ClauseKind::When.renew(context);
    let inside = under(alloc, within, context.as_slice())?;
    outline.lie(&inside, place)?;
    let region = awaited(outline, at, signal);
    give(context, ClauseKind::When, region)
}

// An `any`, which opens the region of its variables.
fn any_clause(
    alloc: Global,
    within: &Within,
    names: &[VarDef],
    place: u32,
    context: &mut Context,
    outline: &mut Outline,
) -> Result<(), AllocError>
    ensures { OnOk result
        ((context.new, outline.new) ≡ any_given within.now names.now place
        (context.old, outline.old)) }
{
    ClauseKind::Any.renew(context);
    give(context, ClauseKind::Any, Some(place))?;
    let inside = under(alloc, within, context.as_slice())?;
    outline.lie(&inside, place)?;
    let region = in_region(Section::Any, &inside, place)?;
    vars(alloc, &region, names, outline)
}

// A clause.
fn clause_declares(
    alloc: Global,
    within: &Within,
    clause: &Clause,
    context: &mut Context,
    outline: &mut Outline,
) -> Result<(), AllocError>
    ensures { OnOk result
        ((context.new, outline.new) ≡ clause_declares within.now clause.now
        (context.old, outline.old)) }
{
    let (kind, place) = match clause {
        Clause::From { states: _, place } => (ClauseKind::From, *place),
        Clause::To { state: _, place } => (ClauseKind::To, *place),
        Clause::When { at, signal, place } => {
            return when_clause(alloc, within, &at.name, signal, *place, context, outline);
        }
        Clause::Provided {
            condition: _,
            place,
        } => (ClauseKind::Provided, *place),
        Clause::Otherwise { place } => (ClauseKind::Provided, *place),
        Clause::Any { names, place } => {
            return any_clause(alloc, within, names.as_slice(), *place, context, outline);
        }
        Clause::Priority { value: _, place } => (ClauseKind::Priority, *place),
        Clause::Delay {
            least: _,
            most: _,
            place,
        } => (ClauseKind::Delay, *place),
    };
    clause_given(alloc, within, kind, place, context, outline)
}

/// The clauses of a transition.
pub fn clauses(
    alloc: Global,
    within: &Within,
    clauses: &[Clause],
    context: &mut Context,
    outline: &mut Outline,
) -> Result<(), AllocError>
    ensures { OnOk result
        ((context.new, outline.new) ≡ clauses_declare within.now clauses.now
        (context.old, outline.old)) }
{
    for clause in clauses {
        clause_declares(alloc, within, clause, context, outline)?;
    }
    Ok(())
}
