//! Keeps the names of expressions and of interaction points.

ghost use Rattle.std.specs.Prelude.{◌≡◌, OnOk};

use est_syntax::expression::{
    Access, Expr, Factor, Member, ProductStep, Selector, Simple, SumStep, Term,
};
use plain_texts::known::KnownNames;
use std::alloc::AllocError;

/// Keeps the names of an expression.
#[cycle(expression)]
pub(crate) fn expr<'t>(one: &'t Expr, known: &mut KnownNames<'t>) -> Result<(), AllocError>
    ensures { OnOk result (known.new ≡ known.old) }
{
    simple(&one.left, known)?;
    match &one.relation {
        None => Ok(()),
        Some(relation) => simple(&relation.right, known),
    }
}

/// Keeps the names of expressions.
#[cycle(expression)]
pub(crate) fn exprs<'t>(list: &'t [Expr], known: &mut KnownNames<'t>) -> Result<(), AllocError>
    ensures { OnOk result (known.new ≡ known.old) }
{
    for one in list {
        expr(one, known)?;
    }
    Ok(())
}

// Keeps the names of a sum.
#[cycle(expression)]
fn simple<'t>(one: &'t Simple, known: &mut KnownNames<'t>) -> Result<(), AllocError>
    ensures { OnOk result (known.new ≡ known.old) }
{
    term(&one.first, known)?;
    sum_steps(one.rest.as_slice(), known)
}

// Keeps the names of the steps of a sum.
#[cycle(expression)]
fn sum_steps<'t>(list: &'t [SumStep], known: &mut KnownNames<'t>) -> Result<(), AllocError>
    ensures { OnOk result (known.new ≡ known.old) }
{
    for step in list {
        term(&step.right, known)?;
    }
    Ok(())
}

// Keeps the names of a product.
#[cycle(expression)]
fn term<'t>(one: &'t Term, known: &mut KnownNames<'t>) -> Result<(), AllocError>
    ensures { OnOk result (known.new ≡ known.old) }
{
    factor(&one.first, known)?;
    product_steps(one.rest.as_slice(), known)
}

// Keeps the names of the steps of a product.
#[cycle(expression)]
fn product_steps<'t>(list: &'t [ProductStep], known: &mut KnownNames<'t>) -> Result<(), AllocError>
    ensures { OnOk result (known.new ≡ known.old) }
{
    for step in list {
        factor(&step.right, known)?;
    }
    Ok(())
}

// Keeps the names of an operand.
#[cycle(expression)]
fn factor<'t>(one: &'t Factor, known: &mut KnownNames<'t>) -> Result<(), AllocError>
    ensures { OnOk result (known.new ≡ known.old) }
{
    match one {
        Factor::Number { .. } => Ok(()),
        Factor::Character { .. } => Ok(()),
        Factor::Group { of, .. } => expr(of.get(), known),
        Factor::Not { of, .. } => factor(of.get(), known),
        Factor::Set { members: list, .. } => members(list.as_slice(), known),
        Factor::Variable { name, path, .. } => {
            known.note(name)?;
            selectors(path.as_slice(), known)
        }
        Factor::Call {
            name,
            arguments,
            ..
        } => {
            known.note(name)?;
            exprs(arguments.as_slice(), known)
        }
    }
}

// Keeps the names of a member of a set.
#[cycle(expression)]
fn member<'t>(one: &'t Member, known: &mut KnownNames<'t>) -> Result<(), AllocError>
    ensures { OnOk result (known.new ≡ known.old) }
{
    expr(&one.low, known)?;
    match &one.high {
        None => Ok(()),
        Some(high) => expr(high, known),
    }
}

// Keeps the names of members of a set.
#[cycle(expression)]
fn members<'t>(list: &'t [Member], known: &mut KnownNames<'t>) -> Result<(), AllocError>
    ensures { OnOk result (known.new ≡ known.old) }
{
    for one in list {
        member(one, known)?;
    }
    Ok(())
}

// Keeps the names of a selector.
#[cycle(expression)]
fn selector<'t>(one: &'t Selector, known: &mut KnownNames<'t>) -> Result<(), AllocError>
    ensures { OnOk result (known.new ≡ known.old) }
{
    match one {
        Selector::Index { exprs: list, .. } => exprs(list.as_slice(), known),
        Selector::Field(_) => Ok(()),
    }
}

/// Keeps the names of selectors.
#[cycle(expression)]
pub(crate) fn selectors<'t>(
    list: &'t [Selector],
    known: &mut KnownNames<'t>,
) -> Result<(), AllocError>
    ensures { OnOk result (known.new ≡ known.old) }
{
    for one in list {
        selector(one, known)?;
    }
    Ok(())
}

/// Keeps a name with subscripts, and the names of these.
pub(crate) fn access<'t>(one: &'t Access, known: &mut KnownNames<'t>) -> Result<(), AllocError>
    ensures { OnOk result (known.new ≡ known.old) }
{
    known.note(&one.name)?;
    exprs(one.index.as_slice(), known)
}
