//! What a name in an expression stands for (ISO 7185, 6.5 and 6.7.1).
#![tactic(auto, using(rule_scope::proofs::LeastLaws::least_append))]

ghost use Rattle.std.specs.Prelude.{◌≡◌};
ghost use Rattle.std.specs.Option.{option_copied};
ghost use Rattle.rule_scope.specs.LeastSoFar.{least_with};
ghost use Rattle.rule_scope.specs.Outline.{entry_at};
ghost use Rattle.rule_declares.specs.rule_kinds.Constants.{predeclared_constant};
ghost use Rattle.est_values.specs.Types.{yields, yielded};
ghost use Rattle.rule_expressions.specs.Selections.{selects, type_in, is_parameter, parameter_at};
ghost use Rattle.rule_expressions.specs.Selections.{parameter, has_before, takes_so_many};
ghost use Rattle.rule_expressions.specs.Selections.{declared_type};
ghost use Rattle.rule_expressions.specs.Selections.{argument_of};
ghost use Rattle.rule_declares.specs.RequiredFunctions.{required_function};
ghost use Rattle.rule_expressions.specs.Selections.{value_of, predeclared_head, value_head};
ghost use Rattle.rule_expressions.specs.Selections.{variable_head, module_head};
ghost use Rattle.rule_expressions.specs.Selections.{function_head, head_by};
ghost use Rattle.rule_expressions.specs.Selections.{head_in, head, predeclared_faults};
ghost use Rattle.rule_expressions.specs.Selections.{function_faults};
ghost use Rattle.rule_expressions.specs.Selections.{sort_faults, entry_faults, head_faults};

use crate::operators::Wanted;
use est_syntax::kind::Kind;
use est_syntax::name::Used;
use est_syntax::rule::Rule;
use est_values::types::{Host, ValueType, type_of};
use rule_declares::required::{Required, required_function};
use rule_scope::declaration::{Entry, Meant, Measured, Section, SharedKinds, Sort};
use rule_scope::least::Least;
use rule_scope::outline::Outline;
use rule_scope::predeclared::PredeclaredName;

/// What a name with some selectors stands for: nothing, where it breaks a rule; a value; a variable
/// of a kind; the module variables that are declared at a place, before their subscripts; one of
/// them; or one of which it is not known which, since a subscript breaks a rule.
#[derive(Clone, Copy)]
pub enum Selected<'o> {
    Broken,
    Value(ValueType<'o>),
    Component(&'o Kind),
    Modules(u32),
    Module(u32),
    SomeModule,
}

/// The type of a declaration, where it has a kind.
pub fn type_in(kind: &Option<Measured>) -> Option<ValueType<'_>>
    ensures { yielded result ≡ type_in kind.now }
{
    match kind {
        None => None,
        Some(measured) => Some(type_of(&measured.kind)),
    }
}

// Whether a call, an `init` or an `output` gives a value or a variable to what this section
// declares.
fn is_parameter(section: Section) -> bool
    ensures { result ≡ is_parameter section }
{
    match section {
        Section::Parameter => true,
        Section::Value => true,
        Section::Place => true,
        Section::Interaction => true,
        _ => false,
    }
}

// The parameter at a place, if one is declared there.
fn parameter_at(outline: &Outline, place: Option<u32>) -> Option<&Entry>
    ensures { option_copied result ≡ parameter_at outline.now place }
{
    match place {
        None => None,
        Some(place) => match outline.entry(place) {
            None => None,
            Some(entry) => if is_parameter(entry.section) {
                Some(entry)
            } else {
                None
            },
        },
    }
}

/// The parameter that has this number, counted from 0, of what is declared at a place.
pub fn parameter(outline: &Outline, place: u32, number: usize) -> Option<&Entry>
    ensures { option_copied result ≡ parameter outline.now place number }
{
    parameter_at(outline, outline.nth(place, number))
}

// Whether there is a parameter for each argument.
fn has_before(outline: &Outline, place: u32, number: usize) -> bool
    ensures { result ≡ has_before outline.now place number }
{
    number == 0 || parameter(outline, place, number - 1).is_some()
}

/// Whether there are as many parameters as this.
pub fn takes_so_many(outline: &Outline, place: u32, number: usize) -> bool
    ensures { result ≡ takes_so_many outline.now place number }
{
    has_before(outline, place, number) && parameter(outline, place, number).is_none()
}

/// The type of a parameter.
pub fn parameter_type(outline: &Outline, place: u32, number: usize) -> Option<ValueType<'_>>
    ensures { yielded result ≡ declared_type (parameter outline.now place number) }
{
    match parameter(outline, place, number) {
        None => None,
        Some(entry) => type_in(&entry.kind),
    }
}

/// What a predeclared function takes.
pub fn argument_of(function: Required) -> Wanted
    ensures { result ≡ argument_of function }
{
    match function {
        Required::Ord => Wanted::Ordinal,
        Required::Succ => Wanted::Ordinal,
        Required::Pred => Wanted::Ordinal,
        _ => Wanted::Integer,
    }
}

/// What it gives for an argument of a type.
pub fn value_of(function: Required, kind: ValueType<'_>) -> ValueType<'_>
    ensures { yields result ≡ value_of function (yields kind.entry) }
{
    match function {
        Required::Chr => ValueType::Ordinal(Host::Char),
        Required::Odd => ValueType::Ordinal(Host::Boolean),
        Required::Succ => kind,
        Required::Pred => kind,
        _ => ValueType::Ordinal(Host::Integer),
    }
}

// What a constant is that is predeclared, if this is one.
fn predeclared_head<'o>(known: PredeclaredName) -> Selected<'o>
    ensures { selects result ≡ predeclared_head (predeclared_constant known) }
{
    match known {
        PredeclaredName::False => Selected::Value(ValueType::Ordinal(Host::Boolean)),
        PredeclaredName::True => Selected::Value(ValueType::Ordinal(Host::Boolean)),
        PredeclaredName::Maxint => Selected::Value(ValueType::Ordinal(Host::Integer)),
        _ => Selected::Broken,
    }
}

// A constant, where its kind is known.
fn value_head(kind: &Option<Measured>) -> Selected<'_>
    ensures { selects result ≡ value_head kind.now }
{
    match kind {
        None => Selected::Broken,
        Some(measured) => Selected::Value(type_of(&measured.kind)),
    }
}

/// A variable, where its kind is known.
pub fn variable_head(kind: &Option<Measured>) -> Selected<'_>
    ensures { selects result ≡ variable_head kind.now }
{
    match kind {
        None => Selected::Broken,
        Some(measured) => Selected::Component(&measured.kind),
    }
}

/// A module variable, or several.
pub fn module_head<'o>(dims: &'o Option<SharedKinds>, place: u32) -> Selected<'o>
    ensures { selects result ≡ module_head dims.now place }
{
    match dims {
        None => Selected::Broken,
        Some(kinds) => if kinds.get().as_slice().is_empty() {
            Selected::Module(place)
        } else {
            Selected::Modules(place)
        },
    }
}

// What a declaration is in an expression.
fn head_by<'o>(outline: &'o Outline, place: u32, entry: &'o Entry) -> Selected<'o>
    ensures { selects result ≡ head_by outline.now place entry.now entry.now.declared.sort }
{
    match entry.declared.sort {
        Sort::Constant => value_head(&entry.kind),
        Sort::Variable => variable_head(&entry.kind),
        Sort::ModuleVariable => module_head(&entry.dims, place),
        Sort::Function => if takes_so_many(outline, place, 0) {
            variable_head(&entry.kind)
        } else {
            Selected::Broken
        },
        _ => Selected::Broken,
    }
}

// What is declared at a place is in an expression.
fn head_in(outline: &Outline, place: u32) -> Selected<'_>
    ensures { selects result ≡ head_in outline.now place (entry_at outline.now place) }
{
    match outline.entry(place) {
        None => Selected::Broken,
        Some(entry) => head_by(outline, place, entry),
    }
}

/// What a name is in an expression.
pub fn head<'o>(outline: &'o Outline, used: &Used) -> Selected<'o>
    ensures { selects result ≡ head outline.now used.now }
{
    match outline.meaning(used) {
        Meant::Predeclared(known) => predeclared_head(known),
        Meant::Seen(place) => head_in(outline, place),
        _ => Selected::Broken,
    }
}

// Notes the name of a function that is predeclared, without arguments, or of another such thing.
fn check_function(known: PredeclaredName, place: u32, least: &mut Least)
    ensures { least.new.at ≡ least_with least.old.at
        (function_faults (required_function known) place) }
{
    match required_function(known) {
        None => least.note(place, Rule::WrongSort),
        Some(_) => least.note(place, Rule::WrongNumber),
    }
}

// Notes the name of something predeclared that is no constant.
fn check_predeclared(known: PredeclaredName, place: u32, least: &mut Least)
    ensures { least.new.at ≡ least_with least.old.at
        (predeclared_faults (predeclared_constant known) known place) }
{
    match known {
        PredeclaredName::False => (),
        PredeclaredName::True => (),
        PredeclaredName::Maxint => (),
        _ => check_function(known, place, least),
    }
}

// Notes the name of a declaration of a sort that stands in no expression, or a function without
// arguments that wants some.
fn check_sort(outline: &Outline, declared: u32, sort: Sort, place: u32, least: &mut Least)
    ensures { least.new.at
        ≡ least_with least.old.at (sort_faults outline.now declared sort place) }
{
    match sort {
        Sort::Constant => (),
        Sort::Variable => (),
        Sort::ModuleVariable => (),
        Sort::Function => if !takes_so_many(outline, declared, 0) {
            least.note(place, Rule::WrongNumber);
        },
        _ => least.note(place, Rule::WrongSort),
    }
}

// The same of what is declared at a place.
fn check_entry(outline: &Outline, declared: u32, place: u32, least: &mut Least)
    ensures { least.new.at ≡ least_with least.old.at
        (entry_faults outline.now declared (entry_at outline.now declared) place) }
{
    match outline.entry(declared) {
        None => least.note(place, Rule::WrongSort),
        Some(entry) => check_sort(outline, declared, entry.declared.sort, place, least),
    }
}

/// Notes a name that cannot stand in an expression.
pub fn check_head(outline: &Outline, used: &Used, least: &mut Least)
    ensures { least.new.at ≡ least_with least.old.at (head_faults outline.now used.now) }
{
    match outline.meaning(used) {
        Meant::Nothing => least.note(used.place, Rule::UnknownName),
        Meant::Predeclared(known) => check_predeclared(known, used.place, least),
        Meant::Unseen(_) => least.note(used.place, Rule::NotSeenHere),
        Meant::Seen(place) => check_entry(outline, place, used.place, least),
    }
}
