//! Components of variables, and exported variables of modules (ISO 7185, 6.5.3; ISO 9074, exported
//! variables).
#![tactic(auto, using(rule_scope::proofs::LeastLaws::least_append))]

ghost use Rattle.std.specs.Prelude.{◌≡◌, Some};
ghost use Rattle.std.specs.Option.{option_copied};
ghost use Rattle.rule_scope.specs.LeastSoFar.{least_with};
ghost use Rattle.rule_scope.specs.Outline.{entry_at};
ghost use Rattle.est_syntax.specs.Names.{spelled};
ghost use Rattle.est_syntax.specs.declared.kind.Kind.{out-Kind};
ghost use Rattle.est_values.specs.Types.{yielded};
ghost use Rattle.rule_expressions.specs.Selections.{selects, Component};
ghost use Rattle.rule_expressions.specs.Variables.{component, subscript_faults, component_faults};
ghost use Rattle.rule_expressions.specs.Variables.{field_in, field_found, field_of, found_faults};
ghost use Rattle.rule_expressions.specs.Variables.{field_faults, is_export, of_header};
ghost use Rattle.rule_declares.specs.LookUps.{header_in};
ghost use Rattle.rule_expressions.specs.Variables.{has_exports, export_by, export_of, no_export};
ghost use Rattle.rule_expressions.specs.Variables.{export_faults, with_field, with_field_faults};
ghost use Rattle.rule_expressions.specs.Variables.{selected_type, end_faults};

use crate::names::{Selected, variable_head};
use est_syntax::kind::{FieldKind, Kind};
use est_syntax::name::{Name, Used};
use est_syntax::rule::Rule;
use est_values::types::{ValueType, is_assignable, type_of};
use rule_declares::lookups::header_in;
use rule_scope::declaration::{Entry, Section, Sort};
use rule_scope::least::Least;
use rule_scope::outline::Outline;

// A component of a variable of a kind. Notes a subscript, at its place, of another host than the
// index, and a variable, at its name, that is no array.
fn indexed<'o>(
    kind: &'o Kind,
    subscript: Option<ValueType<'_>>,
    place: u32,
    name: u32,
    least: &mut Least,
) -> Selected<'o>
    ensures selection { selects result ≡ component (Component kind.now) (yielded subscript.entry) }
    ensures faults { least.new.at ≡ least_with least.old.at
        (subscript_faults (out-Kind kind.now) (yielded subscript.entry) place name) }
{
    match kind {
        Kind::ArrayOf { index, of } => match subscript {
            None => Selected::Broken,
            Some(subscript) => if is_assignable(type_of(index.get()), subscript) {
                Selected::Component(of.get())
            } else {
                least.note(place, Rule::WrongKind);
                Selected::Broken
            },
        },
        _ => {
            least.note(name, Rule::WrongKind);
            Selected::Broken
        },
    }
}

/// A component of what stands before a subscript, with what the subscript breaks there.
pub fn check_subscript<'o>(
    selected: Selected<'o>,
    subscript: Option<ValueType<'_>>,
    place: u32,
    name: u32,
    least: &mut Least,
) -> Selected<'o>
    ensures selection { selects result
        ≡ component (selects selected.entry) (yielded subscript.entry) }
    ensures faults { least.new.at ≡ least_with least.old.at
        (component_faults (selects selected.entry) (yielded subscript.entry) place name) }
{
    match selected {
        Selected::Component(kind) => indexed(kind, subscript, place, name, least),
        _ => Selected::Broken,
    }
}

// The kind of the field of a record that has this name.
fn field_in<'o>(fields: &'o [FieldKind], name: &Name) -> Option<&'o Kind>
    ensures { option_copied result ≡ field_in fields.now name.now.bytes }
{
    for field in fields {
        if name.bytes.as_slice() == field.name.bytes.as_slice() {
            return Some(&field.kind);
        }
    }
    None
}

// A field of a record variable that has these fields. Notes a name of none of them.
fn field_found<'o>(fields: &'o [FieldKind], used: &Used, least: &mut Least) -> Selected<'o>
    ensures selection { selects result ≡ field_found (field_in fields.now (spelled used.now)) }
    ensures faults { least.new.at ≡ least_with least.old.at
        (found_faults (field_in fields.now (spelled used.now)) used.now.place) }
{
    match field_in(fields, &used.name) {
        None => {
            least.note(used.place, Rule::UnknownName);
            Selected::Broken
        },
        Some(kind) => Selected::Component(kind),
    }
}

// A field of a variable of a kind. Notes a variable, at its name, that is no record.
fn field_of<'o>(kind: &'o Kind, used: &Used, name: u32, least: &mut Least) -> Selected<'o>
    ensures selection { selects result ≡ field_of (out-Kind kind.now) (spelled used.now) }
    ensures faults { least.new.at
        ≡ least_with least.old.at (field_faults (out-Kind kind.now) used.now name) }
{
    match kind {
        Kind::Fields(fields) => field_found(fields.get().as_slice(), used, least),
        _ => {
            least.note(name, Rule::WrongKind);
            Selected::Broken
        },
    }
}

// Whether a declaration of a header is an exported variable.
fn is_export(entry: &Entry) -> bool
    ensures { result ≡ is_export entry.now }
{
    match (entry.section, entry.declared.sort) {
        (Section::Header, Sort::Variable) => true,
        _ => false,
    }
}

// What a header declares under a name.
fn of_header<'o>(outline: &'o Outline, header: u32, used: &Used) -> Option<&'o Entry>
    ensures { option_copied result ≡ of_header outline.now header used.now }
{
    match outline.standing(header, &used.name) {
        None => None,
        Some(standing) => outline.entry(standing.place),
    }
}

// Whether a header has exported variables.
fn has_exports(outline: &Outline, header: u32) -> bool
    ensures { result ≡ has_exports (entry_at outline.now header) }
{
    match outline.entry(header) {
        None => false,
        Some(entry) => entry.exports,
    }
}

// The exported variable of a header that has this name. Notes another name.
fn exported<'o>(outline: &'o Outline, header: u32, used: &Used, least: &mut Least) -> Selected<'o>
    ensures selection { selects result ≡ export_by (of_header outline.now header used.now) }
    ensures faults { least.new.at ≡ least_with least.old.at
        (no_export (of_header outline.now header used.now) used.now.place) }
{
    match of_header(outline, header, used) {
        None => {
            least.note(used.place, Rule::UnknownName);
            Selected::Broken
        },
        Some(entry) => if is_export(entry) {
            variable_head(&entry.kind)
        } else {
            least.note(used.place, Rule::WrongSort);
            Selected::Broken
        },
    }
}

// An exported variable of a module of this header. Notes a module, at its name, that has none.
fn export_of<'o>(
    outline: &'o Outline,
    header: Option<u32>,
    used: &Used,
    name: u32,
    least: &mut Least,
) -> Selected<'o>
    ensures selection { selects result ≡ export_of outline.now header used.now }
    ensures faults { least.new.at
        ≡ least_with least.old.at (export_faults outline.now header used.now name) }
{
    match header {
        None => Selected::Broken,
        Some(header) => if has_exports(outline, header) {
            exported(outline, header, used, least)
        } else {
            least.note(name, Rule::WrongKind);
            Selected::Broken
        },
    }
}

/// What a field makes of what stands before it, with what it breaks there.
pub fn check_field<'o>(
    outline: &'o Outline,
    selected: Selected<'o>,
    used: &Used,
    name: u32,
    least: &mut Least,
) -> Selected<'o>
    ensures selection { selects result ≡ with_field outline.now (selects selected.entry) used.now }
    ensures faults { least.new.at ≡ least_with least.old.at
        (with_field_faults outline.now (selects selected.entry) used.now name) }
{
    match selected {
        Selected::Component(kind) => field_of(kind, used, name, least),
        Selected::Module(place) => {
            export_of(outline, header_in(outline, place), used, name, least)
        },
        Selected::Modules(_) => {
            least.note(name, Rule::WrongNumber);
            Selected::Broken
        },
        Selected::Value(_) => {
            least.note(name, Rule::WrongKind);
            Selected::Broken
        },
        Selected::SomeModule => Selected::Broken,
        Selected::Broken => Selected::Broken,
    }
}

/// What a name with its selectors yields.
pub fn selected_type<'o>(selected: Selected<'o>) -> Option<ValueType<'o>>
    ensures { yielded result ≡ selected_type (selects selected.entry) }
{
    match selected {
        Selected::Value(kind) => Some(kind),
        Selected::Component(kind) => Some(type_of(kind)),
        _ => None,
    }
}

/// Notes a name with its selectors that stands for a module, or for several.
pub fn check_end(selected: Selected<'_>, name: u32, least: &mut Least)
    ensures { least.new.at ≡ least_with least.old.at (end_faults (selects selected.entry) name) }
{
    match selected {
        Selected::Modules(_) => least.note(name, Rule::WrongNumber),
        Selected::Module(_) => least.note(name, Rule::WrongKind),
        _ => (),
    }
}
