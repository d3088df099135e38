//! How many scalars the variables of a body or a routine have (ISO 7185, 6.4.1).

ghost use Rattle.std.specs.Prelude.{◌≡◌};
ghost use Rattle.rule_scope.specs.Outline.{entry_at};
ghost use Rattle.rule_scope.specs.LeastSoFar.{least_with};
ghost use Rattle.est_types.specs.Scalars.{scalars_by, names_scalars, vars_scalars, parts_scalars};
ghost use Rattle.est_types.specs.Scalars.{scalars_faults};

use est_syntax::body::Part;
use est_syntax::name::Used;
use est_syntax::rule::Rule;
use est_syntax::type_text::VarDef;
use rule_declares::rule_kinds::hosts::MOST_SCALARS;
use rule_scope::least::Least;
use rule_scope::outline::Outline;

// The scalars of the variable at a place, where it has a kind.
fn scalars_at(outline: &Outline, place: u32) -> u64
    ensures { result ≡ scalars_by (entry_at outline.now place) }
{
    match outline.entry(place) {
        None => 0,
        Some(entry) => match &entry.kind {
            None => 0,
            Some(measured) => measured.scalars,
        },
    }
}

// The scalars of variables, and of those before them.
fn names_scalars(outline: &Outline, mut sum: u64, names: &[Used]) -> u64
    ensures { result ≡ names_scalars outline.now sum names.now }
{
    for used in names {
        sum = sum.saturating_add(scalars_at(outline, used.place));
    }
    sum
}

// The scalars of a section of variables, and of those before it.
fn vars_scalars(outline: &Outline, mut sum: u64, vars: &[VarDef]) -> u64
    ensures { result ≡ vars_scalars outline.now sum vars.now }
{
    for var in vars {
        sum = names_scalars(outline, sum, var.names.as_slice());
    }
    sum
}

/// The scalars of the `var` sections among parts.
pub fn parts_scalars(outline: &Outline, parts: &[Part]) -> u64
    ensures { result ≡ parts_scalars outline.now 0 parts.now }
{
    let mut sum = 0;
    for part in parts {
        if let Part::Vars(vars) = part {
            sum = vars_scalars(outline, sum, vars.as_slice());
        }
    }
    sum
}

/// Variables of a body or a routine that have too many scalars.
pub fn check_scalars(scalars: u64, place: u32, least: &mut Least)
    ensures { least.new.at ≡ least_with least.old.at (scalars_faults scalars place) }
{
    least.note_if(scalars > MOST_SCALARS, place, Rule::TooLarge);
}
