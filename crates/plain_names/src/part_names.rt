//! Keeps the names of the routines and the bodies of a text.

ghost use Rattle.std.specs.Prelude.{◌≡◌, OnOk, IfOk};

use crate::expression_names::{access, expr};
use crate::statement_names::statements;
use est_syntax::body::{Block, Body, FirstPart, Part};
use est_syntax::transition::{Clause, Group, Most, Transition};
use mean_blocks::rule_scope::outline::Outline;
use plain_texts::known::KnownNames;
use std::alloc::{AllocError, Global};

// Keeps the names of the greatest delay, where there is one.
fn most<'t>(bound: &'t Most, known: &mut KnownNames<'t>) -> Result<(), AllocError>
    ensures { OnOk result (known.new ≡ known.old) }
{
    match bound {
        Most::Value(value) => expr(value.get(), known),
        _ => Ok(()),
    }
}

// Keeps the names of a clause.
fn clause<'t>(one: &'t Clause, known: &mut KnownNames<'t>) -> Result<(), AllocError>
    ensures { OnOk result (known.new ≡ known.old) }
{
    match one {
        Clause::When { at, signal, .. } => {
            access(at, known)?;
            known.note_interaction(&at.name, signal)
        }
        Clause::Provided { condition, .. } => expr(condition.get(), known),
        Clause::Delay {
            least,
            most: bound,
            ..
        } => {
            expr(least.get(), known)?;
            most(bound, known)
        }
        _ => Ok(()),
    }
}

// Keeps the names of clauses.
fn clauses<'t>(list: &'t [Clause], known: &mut KnownNames<'t>) -> Result<(), AllocError>
    ensures { OnOk result (known.new ≡ known.old) }
{
    for one in list {
        clause(one, known)?;
    }
    Ok(())
}

// Keeps the names of transitions.
fn transitions<'t>(list: &'t [Transition], known: &mut KnownNames<'t>) -> Result<(), AllocError>
    ensures { OnOk result (known.new ≡ known.old) }
{
    for one in list {
        clauses(one.clauses.as_slice(), known)?;
        statements(one.block.statements.as_slice(), known)?;
    }
    Ok(())
}

// Keeps the names of groups of transitions.
fn groups<'t>(list: &'t [Group], known: &mut KnownNames<'t>) -> Result<(), AllocError>
    ensures { OnOk result (known.new ≡ known.old) }
{
    for one in list {
        transitions(one.transitions.as_slice(), known)?;
    }
    Ok(())
}

// Keeps the names of an initialize part, where there is one.
fn first_part<'t>(
    first: &'t Option<FirstPart>,
    known: &mut KnownNames<'t>,
) -> Result<(), AllocError>
    ensures { OnOk result (known.new ≡ known.old) }
{
    match first {
        None => Ok(()),
        Some(first) => statements(first.block.statements.as_slice(), known),
    }
}

// Keeps the names of a part, and of those within it.
#[cycle(part)]
fn part<'t>(one: &'t Part, known: &mut KnownNames<'t>) -> Result<(), AllocError>
    ensures { OnOk result (known.new ≡ known.old) }
{
    match one {
        Part::Routine(routine) => block(&routine.block, known),
        Part::Body(inner) => body(inner, known),
        _ => Ok(()),
    }
}

// Keeps the names of the parts and the statements of a block.
#[cycle(part)]
fn block<'t>(one: &'t Block, known: &mut KnownNames<'t>) -> Result<(), AllocError>
    ensures { OnOk result (known.new ≡ known.old) }
{
    parts(one.parts.as_slice(), known)?;
    statements(one.statements.as_slice(), known)
}

// Keeps the names of a body.
#[cycle(part)]
fn body<'t>(one: &'t Body, known: &mut KnownNames<'t>) -> Result<(), AllocError>
    ensures { OnOk result (known.new ≡ known.old) }
{
    parts(one.parts.as_slice(), known)?;
    first_part(&one.first, known)?;
    groups(one.groups.as_slice(), known)
}

// Keeps the names of parts.
#[cycle(part)]
fn parts<'t>(list: &'t [Part], known: &mut KnownNames<'t>) -> Result<(), AllocError>
    ensures { OnOk result (known.new ≡ known.old) }
{
    for one in list {
        part(one, known)?;
    }
    Ok(())
}

/// The names of parts of a text that declares this.
pub(crate) fn names_known<'t>(
    alloc: Global,
    outline: &'t Outline,
    list: &'t [Part],
) -> Result<KnownNames<'t>, AllocError>
    ensures { IfOk result (λ known. known ≡ outline.now) }
{
    let mut known = KnownNames::new(alloc, outline);
    parts(list, &mut known)?;
    Ok(known)
}
