//! Expressions that are a variable and nothing else (ISO 7185, 6.6.3.3).
ghost use Rattle.std.specs.Prelude.{◌≡◌};
ghost use Rattle.rule_declares.specs.BareVariables.{variable_of, bare_factor, bare_term};
ghost use Rattle.rule_declares.specs.BareVariables.{bare_simple, bare};

use est_syntax::expression::{Expr, Factor, Selector, Simple, Term};
use est_syntax::name::Used;

/// The variable that an expression is: its name and its selectors.
#[derive(Clone, Copy)]
pub struct VariableAccess<'e> {
    pub name: &'e Used,
    pub path: &'e [Selector],
}

// The variable that an operand is.
fn bare_factor(factor: &Factor) -> Option<VariableAccess<'_>>
    ensures { variable_of result ≡ bare_factor factor.now }
{
    match factor {
        Factor::Variable {
            name,
            path,
            place: _,
        } => Some(VariableAccess {
            name,
            path: path.as_slice(),
        }),
        _ => None,
    }
}

// The variable that a product is.
fn bare_term(term: &Term) -> Option<VariableAccess<'_>>
    ensures { variable_of result ≡ bare_term term.now }
{
    if term.rest.as_slice().is_empty() {
        bare_factor(&term.first)
    } else {
        None
    }
}

// The variable that a sum is.
fn bare_simple(simple: &Simple) -> Option<VariableAccess<'_>>
    ensures { variable_of result ≡ bare_simple simple.now }
{
    if simple.sign.is_none() && simple.rest.as_slice().is_empty() {
        bare_term(&simple.first)
    } else {
        None
    }
}

/// The variable that an expression is, if it is one and nothing else.
pub fn bare(expr: &Expr) -> Option<VariableAccess<'_>>
    ensures { variable_of result ≡ bare expr.now }
{
    match &expr.relation {
        None => bare_simple(&expr.left),
        Some(_) => None,
    }
}
