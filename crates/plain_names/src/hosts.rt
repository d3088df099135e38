//! The host of the ordinal that an operand yields, by its form (ISO 7185, 6.6.6.4 and 6.7.1).
#![tactic(auto, using(mean_blocks::proofs::HostLayers::host_at, mean_blocks::proofs::HostLayers::group_host, mean_blocks::proofs::HostLayers::variable_host, mean_blocks::proofs::HostLayers::call_at))]

ghost use Rattle.std.specs.Prelude.{◌≡◌, option_and_then};
ghost use Rattle.std.specs.Option.{option_copied};
ghost use Rattle.mean_blocks.specs.rule_scope.Uses.{meaning};
ghost use Rattle.est_values.specs.Types.{host_of as host_of_kind};
ghost use Rattle.mean_blocks.specs.NamesInRuns.{kind_at};
ghost use Rattle.mean_blocks.specs.OperandHosts.{of_kind_at, subject_at, component_of};
ghost use Rattle.mean_blocks.specs.OperandHosts.{subscripted};
ghost use Rattle.mean_blocks.specs.OperandHosts.{field_subject, selected_subject, subject_along};
ghost use Rattle.mean_blocks.specs.OperandHosts.{subject_host, predeclared_host, named_host};
ghost use Rattle.mean_blocks.specs.OperandHosts.{required_host, call_host, factor_host, host_of};
ghost use Rattle.mean_blocks.proofs.HostLayers.{first_host};
ghost use Rattle.plain_names.specs.HostSubjects.{shown, subject_in};

use est_syntax::expression::{Expr, Factor, Selector};
use est_syntax::kind::Kind;
use est_syntax::name::Used;
use est_values::types::{Host, host_of as host_of_kind};
use mean_blocks::rule_declares::required::{Required, required_function};
use mean_blocks::rule_scope::declaration::{Meant, Sort};
use mean_blocks::rule_scope::outline::Outline;
use mean_blocks::rule_scope::predeclared::PredeclaredName;
use plain_texts::plain_declared::declared::{declared_in_header, kind_at};
use plain_texts::plain_declared::kinds::{array_in, field_in};
use plain_texts::text::Text;

/// What a name with some selectors is of: a kind, or module variables.
#[derive(Clone, Copy)]
pub(crate) enum Subject<'t> {
    Kind(&'t Kind),
    Modules(u32),
}

// What is declared at a place with a kind.
fn of_kind_at(outline: &Outline, place: u32) -> Option<Subject<'_>>
    ensures { subject_in result ≡ of_kind_at outline.now place }
{
    match kind_at(outline, place) {
        None => None,
        Some(kind) => Some(Subject::Kind(kind)),
    }
}

// What is declared at a place.
fn subject_at(outline: &Outline, place: u32) -> Option<Subject<'_>>
    ensures { subject_in result ≡ subject_at outline.now place }
{
    if outline.is_sort(Sort::ModuleVariable, place) {
        Some(Subject::Modules(place))
    } else {
        of_kind_at(outline, place)
    }
}

// The kind of what so many subscripts lead to.
fn component(kind: &Kind, count: usize) -> Option<&Kind>
    ensures { option_copied result ≡ component_of count kind.now }
{
    if count == 0 {
        return Some(kind);
    }
    match array_in(kind) {
        None => None,
        Some((_, of)) => component(of, count - 1),
    }
}

// What subscripts lead to.
fn subscripted<'t>(subject: Subject<'t>, count: usize) -> Option<Subject<'t>>
    ensures { subject_in result ≡ subscripted count (shown subject.entry) }
{
    match subject {
        Subject::Kind(kind) => match component(kind, count) {
            None => None,
            Some(of) => Some(Subject::Kind(of)),
        },
        Subject::Modules(place) => Some(Subject::Modules(place)),
    }
}

// What a field of a record, or an exported variable of a module, is of.
fn field_subject<'t>(outline: &'t Outline, used: &Used, subject: Subject<'t>) -> Option<Subject<'t>>
    ensures { subject_in result ≡ field_subject outline.now used.now (shown subject.entry) }
{
    match subject {
        Subject::Kind(kind) => match field_in(kind, used) {
            None => None,
            Some((_, of)) => Some(Subject::Kind(of)),
        },
        Subject::Modules(place) => match declared_in_header(outline, place, used) {
            None => None,
            Some(variable) => of_kind_at(outline, variable),
        },
    }
}

// What a selector leads to.
fn selected_subject<'t>(
    outline: &'t Outline,
    selector: &Selector,
    subject: Subject<'t>,
) -> Option<Subject<'t>>
    ensures { subject_in result ≡ selected_subject outline.now selector.now (shown subject.entry) }
{
    match selector {
        Selector::Index { exprs, .. } => subscripted(subject, exprs.len()),
        Selector::Field(used) => field_subject(outline, used, subject),
    }
}

// The host of what is declared at a place, after these selectors.
fn host_along(outline: &Outline, place: u32, path: &[Selector]) -> Option<Host>
    ensures { result
        ≡ subject_host (subject_along outline.now path.now (subject_at outline.now place)) }
{
    let mut subject = subject_at(outline, place);
    for selector in path {
        subject = match subject {
            None => None,
            Some(before) => selected_subject(outline, selector, before),
        };
    }
    match subject {
        Some(Subject::Kind(kind)) => host_of_kind(kind),
        _ => None,
    }
}

// The host of a constant that is predeclared.
fn predeclared_host(name: PredeclaredName) -> Option<Host>
    ensures { result ≡ predeclared_host name }
{
    match name {
        PredeclaredName::False => Some(Host::Boolean),
        PredeclaredName::True => Some(Host::Boolean),
        PredeclaredName::Maxint => Some(Host::Integer),
        _ => None,
    }
}

// The host of a variable, of a constant or of a function without arguments.
fn variable_host(text: &Text, used: &Used, path: &[Selector]) -> Option<Host>
    ensures { result ≡ named_host text.now.outline path.now (meaning text.now.outline used.now) }
{
    match text.meaning(used) {
        Meant::Seen(place) => host_along(text.outline(), place, path),
        Meant::Predeclared(name) => predeclared_host(name),
        _ => None,
    }
}

// The host of the result of a function that is declared at a place.
fn result_host(outline: &Outline, place: u32) -> Option<Host>
    ensures { result ≡ option_and_then host_of_kind (kind_at outline.now place) }
{
    match kind_at(outline, place) {
        None => None,
        Some(kind) => host_of_kind(kind),
    }
}

// The host of what a predeclared function yields, of that of its argument.
#[cycle(host)]
fn required_host(text: &Text, required: Required, arguments: &[Expr]) -> Option<Host>
    ensures { result
        ≡ required_host required (first_host text.now.outline arguments.now) }
{
    match required {
        Required::Chr => Some(Host::Char),
        Required::Odd => Some(Host::Boolean),
        Required::Succ => first_host(text, arguments),
        Required::Pred => first_host(text, arguments),
        _ => Some(Host::Integer),
    }
}

// The host of the first of these expressions.
#[cycle(host)]
fn first_host(text: &Text, arguments: &[Expr]) -> Option<Host>
    ensures { result ≡ first_host text.now.outline arguments.now }
{
    match arguments.first() {
        None => None,
        Some(expr) => host_of(text, expr),
    }
}

// The host of what a call yields.
#[cycle(host)]
fn call_host(text: &Text, used: &Used, arguments: &[Expr]) -> Option<Host>
    ensures { result ≡ call_host text.now.outline (meaning text.now.outline used.now)
        (first_host text.now.outline arguments.now) }
{
    match text.meaning(used) {
        Meant::Seen(place) => result_host(text.outline(), place),
        Meant::Predeclared(name) => match required_function(name) {
            None => None,
            Some(required) => required_host(text, required, arguments),
        },
        _ => None,
    }
}

// The host of what an operand yields.
#[cycle(host)]
fn factor_host(text: &Text, factor: &Factor) -> Option<Host>
    ensures { result ≡ factor_host text.now.outline factor.now }
{
    match factor {
        Factor::Number { .. } => Some(Host::Integer),
        Factor::Character { .. } => Some(Host::Char),
        Factor::Group { of, .. } => host_of(text, of.get()),
        Factor::Not { .. } => Some(Host::Boolean),
        Factor::Set { .. } => None,
        Factor::Variable { name, path, .. } => variable_host(text, name, path.as_slice()),
        Factor::Call {
            name,
            arguments,
            ..
        } => call_host(text, name, arguments.as_slice()),
    }
}

/// The host of the ordinal that an expression yields. It goes down the first operands alone.
#[cycle(host)]
pub fn host_of(text: &Text, expr: &Expr) -> Option<Host>
    ensures { result ≡ host_of text.now.outline expr.now }
{
    match &expr.relation {
        Some(_) => Some(Host::Boolean),
        None => factor_host(text, &expr.left.first.first),
    }
}
