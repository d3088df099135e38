//! What declarations are to names that mean them.

ghost use Rattle.std.specs.Prelude.{◌≡◌};
ghost use Rattle.mean_blocks.specs.rule_scope.Outline.{entry_at};
ghost use Rattle.mean_blocks.specs.NamesInRuns.{with_kind, head_by, head_in};
ghost use Rattle.mean_blocks.specs.NamesInRuns.{Function, Variable};
ghost use Rattle.plain_declared.specs.ShownNames.{head_of};

use est_syntax::kind::Kind;
use mean_blocks::rule_scope::declaration::{Entry, Measured, Sort};
use mean_blocks::rule_scope::outline::Outline;

/// What a name stands for: the ordinal of a constant; a function or a variable, by the place of its
/// declaration and its kind; or module variables.
#[derive(Clone, Copy)]
pub enum Head<'t> {
    Nothing,
    Constant(i32),
    Function(u32, &'t Kind),
    Variable(u32, &'t Kind),
    Modules(u32),
}

// A variable, where its kind is known.
fn variable(place: u32, kind: &Option<Measured>) -> Head<'_>
    ensures { head_of result ≡ with_kind (Variable place) kind.now }
{
    match kind {
        None => Head::Nothing,
        Some(measured) => Head::Variable(place, &measured.kind),
    }
}

// A function, where the kind of its result is known.
fn function(place: u32, kind: &Option<Measured>) -> Head<'_>
    ensures { head_of result ≡ with_kind (Function place) kind.now }
{
    match kind {
        None => Head::Nothing,
        Some(measured) => Head::Function(place, &measured.kind),
    }
}

// What a declaration is.
fn head_by<'t>(place: u32, entry: &'t Entry) -> Head<'t>
    ensures { head_of result ≡ head_by place entry.now.kind entry.now.declared.sort }
{
    match entry.declared.sort {
        Sort::Variable => variable(place, &entry.kind),
        Sort::Function => function(place, &entry.kind),
        Sort::ModuleVariable => Head::Modules(place),
        _ => Head::Nothing,
    }
}

/// What is declared at a place, which is no constant.
pub fn head_in(outline: &Outline, place: u32) -> Head<'_>
    ensures { head_of result ≡ head_in place (entry_at outline.now place) }
{
    match outline.entry(place) {
        None => Head::Nothing,
        Some(entry) => head_by(place, entry),
    }
}
