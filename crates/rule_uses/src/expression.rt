//! Whether a routine may name what expressions and interaction points look up.
#![tactic(auto, using(crate::proofs::Sequences::free_append, crate::proofs::ExpressionRows::rows))]

ghost use Rattle.std.specs.Prelude.{◌≡◌};
ghost use Rattle.rule_uses.specs.Closed.{all_free};
ghost use Rattle.rule_uses.specs.NamesInExpressions.{expr_names, exprs_names};
ghost use Rattle.rule_uses.specs.NamesInExpressions.{relation_names, simple_names};
ghost use Rattle.rule_uses.specs.NamesInExpressions.{sum_step_names, sum_steps_names, term_names};
ghost use Rattle.rule_uses.specs.NamesInExpressions.{product_step_names, product_steps_names};
ghost use Rattle.rule_uses.specs.NamesInExpressions.{factor_names, member_names, members_names};
ghost use Rattle.rule_uses.specs.NamesInExpressions.{selector_names, selectors_names};
ghost use Rattle.rule_uses.specs.NamesInExpressions.{access_names, end_names};

use crate::free::is_free;
use est_syntax::expression::{
    Access, EndPoint, Expr, Factor, Member, ProductStep, Relation, Selector, Simple, SumStep, Term,
};
use rule_scope::outline::Outline;

/// Whether the routine may name what an expression looks up.
#[cycle(expression)]
pub fn expr(outline: &Outline, routine: u32, expr: &Expr) -> bool
    ensures { result ≡ all_free outline.now routine (expr_names expr.now) }
{
    if !simple(outline, routine, &expr.left) {
        return false;
    }
    match &expr.relation {
        None => true,
        Some(following) => relation(outline, routine, following),
    }
}

/// Whether the routine may name what expressions look up.
#[cycle(expression)]
pub fn exprs(outline: &Outline, routine: u32, exprs: &[Expr]) -> bool
    ensures { result ≡ all_free outline.now routine (exprs_names exprs.now) }
{
    for one in exprs {
        if !expr(outline, routine, one) {
            return false;
        }
    }
    true
}

// Whether the routine may name what a relation looks up.
#[cycle(expression)]
fn relation(outline: &Outline, routine: u32, relation: &Relation) -> bool
    ensures { result ≡ all_free outline.now routine (relation_names relation.now) }
{
    simple(outline, routine, &relation.right)
}

// Whether the routine may name what a sum looks up.
#[cycle(expression)]
fn simple(outline: &Outline, routine: u32, simple: &Simple) -> bool
    ensures { result ≡ all_free outline.now routine (simple_names simple.now) }
{
    term(outline, routine, &simple.first) && sum_steps(outline, routine, simple.rest.as_slice())
}

// Whether the routine may name what a step of a sum looks up.
#[cycle(expression)]
fn sum_step(outline: &Outline, routine: u32, step: &SumStep) -> bool
    ensures { result ≡ all_free outline.now routine (sum_step_names step.now) }
{
    term(outline, routine, &step.right)
}

// Whether the routine may name what the steps of a sum look up.
#[cycle(expression)]
fn sum_steps(outline: &Outline, routine: u32, steps: &[SumStep]) -> bool
    ensures { result ≡ all_free outline.now routine (sum_steps_names steps.now) }
{
    for step in steps {
        if !sum_step(outline, routine, step) {
            return false;
        }
    }
    true
}

// Whether the routine may name what a product looks up.
#[cycle(expression)]
fn term(outline: &Outline, routine: u32, term: &Term) -> bool
    ensures { result ≡ all_free outline.now routine (term_names term.now) }
{
    factor(outline, routine, &term.first) && product_steps(outline, routine, term.rest.as_slice())
}

// Whether the routine may name what a step of a product looks up.
#[cycle(expression)]
fn product_step(outline: &Outline, routine: u32, step: &ProductStep) -> bool
    ensures { result ≡ all_free outline.now routine (product_step_names step.now) }
{
    factor(outline, routine, &step.right)
}

// Whether the routine may name what the steps of a product look up.
#[cycle(expression)]
fn product_steps(outline: &Outline, routine: u32, steps: &[ProductStep]) -> bool
    ensures { result ≡ all_free outline.now routine (product_steps_names steps.now) }
{
    for step in steps {
        if !product_step(outline, routine, step) {
            return false;
        }
    }
    true
}

// Whether the routine may name what an operand looks up.
#[cycle(expression)]
fn factor(outline: &Outline, routine: u32, one: &Factor) -> bool
    ensures { result ≡ all_free outline.now routine (factor_names one.now) }
{
    match one {
        Factor::Number { .. } => true,
        Factor::Character { .. } => true,
        Factor::Group { of, .. } => expr(outline, routine, of.get()),
        Factor::Not { of, .. } => factor(outline, routine, of.get()),
        Factor::Set { members: list, .. } => members(outline, routine, list.as_slice()),
        Factor::Variable { name, path, .. } => {
            is_free(outline, routine, name) && selectors(outline, routine, path.as_slice())
        }
        Factor::Call {
            name,
            arguments,
            ..
        } => { is_free(outline, routine, name) && exprs(outline, routine, arguments.as_slice()) }
    }
}

// Whether the routine may name what a member of a set looks up.
#[cycle(expression)]
fn member(outline: &Outline, routine: u32, member: &Member) -> bool
    ensures { result ≡ all_free outline.now routine (member_names member.now) }
{
    if !expr(outline, routine, &member.low) {
        return false;
    }
    match &member.high {
        None => true,
        Some(high) => expr(outline, routine, high),
    }
}

// Whether the routine may name what members of a set look up.
#[cycle(expression)]
fn members(outline: &Outline, routine: u32, members: &[Member]) -> bool
    ensures { result ≡ all_free outline.now routine (members_names members.now) }
{
    for one in members {
        if !member(outline, routine, one) {
            return false;
        }
    }
    true
}

// Whether the routine may name what a selector looks up.
#[cycle(expression)]
fn selector(outline: &Outline, routine: u32, selector: &Selector) -> bool
    ensures { result ≡ all_free outline.now routine (selector_names selector.now) }
{
    match selector {
        Selector::Index { exprs: list, .. } => exprs(outline, routine, list.as_slice()),
        Selector::Field(_) => true,
    }
}

/// Whether the routine may name what selectors look up.
#[cycle(expression)]
pub fn selectors(outline: &Outline, routine: u32, selectors: &[Selector]) -> bool
    ensures { result ≡ all_free outline.now routine (selectors_names selectors.now) }
{
    for one in selectors {
        if !selector(outline, routine, one) {
            return false;
        }
    }
    true
}

/// Whether the routine may name what a name with subscripts looks up.
pub fn access(outline: &Outline, routine: u32, access: &Access) -> bool
    ensures { result ≡ all_free outline.now routine (access_names access.now) }
{
    is_free(outline, routine, &access.name) && exprs(outline, routine, access.index.as_slice())
}

/// Whether the routine may name what an end of a link looks up.
pub fn end_point(outline: &Outline, routine: u32, end: &EndPoint) -> bool
    ensures { result ≡ all_free outline.now routine (end_names end.now) }
{
    if !access(outline, routine, &end.first) {
        return false;
    }
    match &end.second {
        None => true,
        Some(point) => exprs(outline, routine, point.index.as_slice()),
    }
}
