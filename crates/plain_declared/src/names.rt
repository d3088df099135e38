//! What names stand for.

ghost use Rattle.std.specs.Prelude.{◌≡◌, Some};
ghost use Rattle.mean_blocks.specs.rule_scope.Outline.{entry_at};
ghost use Rattle.mean_blocks.specs.rule_kinds.Constants.{predeclared_constant, value_by};
ghost use Rattle.mean_blocks.specs.rule_kinds.Constants.{value_meant};
ghost use Rattle.mean_blocks.specs.NamesInRuns.{head};
ghost use Rattle.plain_declared.specs.ShownNames.{head_of, ordinal_of};

use crate::heads::{Head, head_in};
use est_syntax::kind::MAXINT;
use est_syntax::name::Used;
use mean_blocks::rule_scope::declaration::{Entry, Meant, Sort};
use mean_blocks::rule_scope::outline::Outline;
use mean_blocks::rule_scope::predeclared::PredeclaredName;

// The ordinal of a constant that is predeclared.
fn predeclared_ordinal(known: PredeclaredName) -> Option<i32>
    ensures { result ≡ ordinal_of (predeclared_constant known) }
{
    match known {
        PredeclaredName::False => Some(0),
        PredeclaredName::True => Some(1),
        PredeclaredName::Maxint => Some(MAXINT as i32),
        _ => None,
    }
}

// The ordinal of a declaration, where it is that of a constant and has one.
fn entry_ordinal(entry: &Entry) -> Option<i32>
    ensures { result ≡ ordinal_of (value_by (Some entry.now)) }
{
    if Sort::Constant != entry.declared.sort {
        return None;
    }
    match (&entry.kind, entry.ordinal) {
        (Some(_), Some(ordinal)) => Some(ordinal),
        _ => None,
    }
}

// The ordinal of what is declared at a place, where it is a constant.
fn declared_ordinal(outline: &Outline, place: u32) -> Option<i32>
    ensures { result ≡ ordinal_of (value_by (entry_at outline.now place)) }
{
    match outline.entry(place) {
        None => None,
        Some(entry) => entry_ordinal(entry),
    }
}

// The ordinal of the constant that a name means.
fn meant_ordinal(outline: &Outline, meant: Meant) -> Option<i32>
    ensures { result ≡ ordinal_of (value_meant outline.now meant) }
{
    match meant {
        Meant::Predeclared(known) => predeclared_ordinal(known),
        Meant::Seen(place) => declared_ordinal(outline, place),
        _ => None,
    }
}

/// What a name stands for at its place.
#[tactic(auto, using(crate::proofs::ConstantHeads::constant_heads))]
pub fn head<'t>(outline: &'t Outline, used: &Used) -> Head<'t>
    ensures { head_of result ≡ head outline.now used.now }
{
    let meant = outline.meaning(used);
    match meant_ordinal(outline, meant) {
        Some(ordinal) => Head::Constant(ordinal),
        None => match meant {
            Meant::Seen(place) => head_in(outline, place),
            _ => Head::Nothing,
        },
    }
}
