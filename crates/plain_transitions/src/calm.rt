//! Expressions that call nothing: their evaluation passes no limit.

ghost use Rattle.std.specs.Prelude.{◌≡◌, true, []};
ghost use Rattle.est_meaning.specs.mean_blocks.ExpressionValues.{value_of, simple_of, term_of};
ghost use Rattle.est_meaning.specs.mean_blocks.ExpressionValues.{factor_of, variable_value};
ghost use Rattle.plain_transitions.specs.WrittenTransitions.{NeverPass};
ghost use Rattle.plain_transitions.specs.inside.CalmEvaluations.{IsCalm};

use est_meaning::rule_scope::outline::Outline;
use est_syntax::expression::{Expr, Factor, Simple, Term};
use est_syntax::name::Used;
use plain_names::plain_declared::heads::Head;
use plain_names::plain_declared::names::head;

// Whether a name is that of a constant or of a variable.
fn is_calm_name(outline: &Outline, name: &Used) -> bool
    ensures { result ≡ true → IsCalm outline.now (variable_value name.now []) }
{
    match head(outline, name) {
        Head::Constant(_) => true,
        Head::Variable(_, _) => true,
        _ => false,
    }
}

// Whether an operand is a number, or a name alone that is that of a constant or of a variable.
fn is_calm_operand(outline: &Outline, factor: &Factor) -> bool
    ensures { result ≡ true → IsCalm outline.now (factor_of factor.now) }
{
    match factor {
        Factor::Number { .. } => true,
        Factor::Variable { name, path, .. } => {
            path.as_slice().is_empty() && is_calm_name(outline, name)
        }
        _ => false,
    }
}

// Whether a product is one such operand and nothing else.
fn is_calm_product(outline: &Outline, term: &Term) -> bool
    ensures { result ≡ true → IsCalm outline.now (term_of term.now) }
{
    term.rest.as_slice().is_empty() && is_calm_operand(outline, &term.first)
}

// Whether a sum is.
fn is_calm_sum(outline: &Outline, simple: &Simple) -> bool
    ensures { result ≡ true → IsCalm outline.now (simple_of simple.now) }
{
    match simple.sign {
        None => simple.rest.as_slice().is_empty() && is_calm_product(outline, &simple.first),
        Some(_) => false,
    }
}

// Whether an expression is a number alone, or a name alone that is that of a constant or of a
// variable.
fn is_calm(outline: &Outline, e: &Expr) -> bool
    ensures { result ≡ true → IsCalm outline.now (value_of e.now) }
{
    match &e.relation {
        None => is_calm_sum(outline, &e.left),
        Some(_) => false,
    }
}

/// Whether each of these expressions is.
pub(crate) fn are_calm(outline: &Outline, es: &[Expr]) -> bool
    ensures { result ≡ true → NeverPass outline.now es.now }
{
    for e in es {
        if !is_calm(outline, e) {
            return false;
        }
    }
    true
}
