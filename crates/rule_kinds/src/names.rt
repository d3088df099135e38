//! The types that names mean.
#![tactic(auto, using(rule_scope::proofs::LeastLaws::least_append))]

ghost use Rattle.std.specs.Prelude.{◌≡◌, Some, IfOk, OnOk};
ghost use Rattle.rule_scope.specs.LeastSoFar.{least_with};
ghost use Rattle.rule_scope.specs.Outline.{entry_at};
ghost use Rattle.rule_kinds.specs.TypeTexts.{predeclared_type, type_by, type_meant, named_type};
ghost use Rattle.rule_kinds.specs.TypeTexts.{type_used, type_faults};

use crate::hosts::scalar;
use crate::value::copy_kind;
use est_syntax::kind::Kind;
use est_syntax::name::Used;
use est_syntax::rule::Rule;
use rule_scope::declaration::{Entry, Meant, Measured, Sort};
use rule_scope::least::Least;
use rule_scope::outline::Outline;
use rule_scope::predeclared::PredeclaredName;
use std::alloc::AllocError;

// The types that are predeclared.
fn predeclared_type(known: PredeclaredName) -> Option<Measured>
    ensures { result ≡ predeclared_type known }
{
    match known {
        PredeclaredName::Integer => Some(scalar(Kind::Integer)),
        PredeclaredName::Boolean => Some(scalar(Kind::Boolean)),
        PredeclaredName::Char => Some(scalar(Kind::Char)),
        _ => None,
    }
}

// The kind of a declaration, where it is that of a type and has one.
fn entry_type(entry: &Entry) -> Result<Option<Measured>, AllocError>
    ensures { IfOk result (λ m. m ≡ type_by (Some entry.now)) }
{
    if Sort::TypeName == entry.declared.sort {
        copy_kind(&entry.kind)
    } else {
        Ok(None)
    }
}

// The kind of what is declared at a place, where it is a type.
fn declared_type(outline: &Outline, place: u32) -> Result<Option<Measured>, AllocError>
    ensures { IfOk result (λ m. m ≡ type_by (entry_at outline.now place)) }
{
    match outline.entry(place) {
        None => Ok(None),
        Some(entry) => entry_type(entry),
    }
}

// The kind of the type that a name of this meaning means.
fn meant_type(outline: &Outline, meant: Meant) -> Result<Option<Measured>, AllocError>
    ensures { IfOk result (λ m. m ≡ type_meant outline.now meant) }
{
    match meant {
        Meant::Predeclared(known) => Ok(predeclared_type(known)),
        Meant::Seen(place) => declared_type(outline, place),
        _ => Ok(None),
    }
}

// Notes a name of this meaning where a type is wanted, and it means none.
fn check_used(outline: &Outline, used: &Used, meant: Meant, least: &mut Least)
    ensures { least.new.at ≡ least_with least.old.at (type_used outline.now used.now meant) }
{
    match meant {
        Meant::Nothing => least.note(used.place, Rule::UnknownName),
        Meant::Predeclared(known) => if predeclared_type(known).is_none() {
            least.note(used.place, Rule::WrongSort);
        },
        Meant::Unseen(_) => least.note(used.place, Rule::NotSeenHere),
        Meant::Seen(place) => if !outline.is_sort(Sort::TypeName, place) {
            least.note(used.place, Rule::WrongSort);
        },
    }
}

/// The kind of the type that a name means.
pub fn named_type(outline: &Outline, used: &Used) -> Result<Option<Measured>, AllocError>
    ensures { IfOk result (λ m. m ≡ named_type outline.now used.now) }
{
    meant_type(outline, outline.meaning(used))
}

/// Notes a name where a type is wanted, and it means none.
pub fn check_type(outline: &Outline, used: &Used, least: &mut Least)
    ensures { least.new.at ≡ least_with least.old.at (type_faults outline.now used.now) }
{
    check_used(outline, used, outline.meaning(used), least);
}

/// Checks a name where a type is wanted, and answers the kind of that type.
pub fn check_named(
    outline: &Outline,
    used: &Used,
    least: &mut Least,
) -> Result<Option<Measured>, AllocError>
    ensures kind { IfOk result (λ m. m ≡ named_type outline.now used.now) }
    ensures faults { OnOk result (least.new.at
        ≡ least_with least.old.at (type_faults outline.now used.now)) }
{
    let meant = outline.meaning(used);
    check_used(outline, used, meant, least);
    meant_type(outline, meant)
}
