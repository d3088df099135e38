//! What statements may write (ISO 7185, 6.8.2.2 and 6.8.3.9; ISO 9074, exported variables and
//! module variables).
#![tactic(auto, using(rule_scope::proofs::LeastLaws::least_append))]

ghost use Rattle.std.specs.Prelude.{◌≡◌};
ghost use Rattle.std.specs.Option.{option_copied};
ghost use Rattle.rule_scope.specs.LeastSoFar.{least_with};
ghost use Rattle.rule_scope.specs.Outline.{entry_at};
ghost use Rattle.rule_declares.specs.rule_kinds.Constants.{predeclared_constant};
ghost use Rattle.rule_expressions.specs.Selections.{selects};
ghost use Rattle.rule_declares.specs.RequiredFunctions.{required_function};
ghost use Rattle.rule_statements.specs.Targets.{is_written_section, is_within, is_uncontrolled};
ghost use Rattle.rule_statements.specs.Targets.{may_write, is_own};
ghost use Rattle.rule_statements.specs.Targets.{is_procedural, is_writable, target_by, target_in};
ghost use Rattle.rule_statements.specs.Targets.{subscripts_in, are_subscripts};
ghost use Rattle.rule_statements.specs.Targets.{subscripts_faults, counted_faults};
ghost use Rattle.rule_statements.specs.Targets.{sort_target_faults};
ghost use Rattle.rule_statements.specs.Targets.{target, is_target_sort, entry_target_faults};
ghost use Rattle.rule_statements.specs.Targets.{target_in_faults, function_target};
ghost use Rattle.rule_statements.specs.Targets.{predeclared_target, target_faults, end_faults};
ghost use Rattle.rule_statements.specs.Targets.{path_target, path_target_faults, assign_faults};
ghost use Rattle.rule_declares.specs.BareVariables.{variable_of, bare_factor, bare_term};
ghost use Rattle.rule_declares.specs.BareVariables.{bare_simple};
ghost use Rattle.rule_statements.specs.Targets.{unlike_faults, place_faults};
ghost use Rattle.rule_declares.specs.BareVariables.{bare};

use est_syntax::expression::{Expr, Factor, Selector, Simple, Term};
use est_syntax::kind::Kind;
use est_syntax::name::Used;
use est_syntax::rule::Rule;
use est_values::alike::is_alike;
use rule_declares::required::required_function;
use rule_declares::variables::bare;
use rule_expressions::expressions::{check_expr, check_selectors};
use rule_expressions::names::{Selected, module_head, variable_head};
use rule_expressions::operators::gives;
use rule_expressions::variables::selected_type;
use rule_scope::declaration::{Entry, Meant, Measured, Section, SharedKinds, Sort};
use rule_scope::least::Least;
use rule_scope::outline::Outline;
use rule_scope::predeclared::PredeclaredName;

// Whether names that this section declares are written.
fn is_written_section(section: Section) -> bool
    ensures { result ≡ is_written_section section }
{
    match section {
        Section::Interaction => false,
        Section::Any => false,
        Section::All => false,
        _ => true,
    }
}

// Whether the statements of a function, or of none, write what is declared at a place.
fn is_within(function: Option<u32>, place: u32) -> bool
    ensures { result ≡ is_within function place }
{
    match function {
        None => true,
        Some(function) => function < place,
    }
}

// Whether no loop around is controlled by what is declared at a place.
fn is_uncontrolled(loops: &[u32], place: u32) -> bool
    ensures { result ≡ is_uncontrolled loops.now place }
{
    !loops.contains(&place)
}

// Whether a variable that is declared at a place may be written.
fn may_write(function: Option<u32>, loops: &[u32], place: u32, section: Section) -> bool
    ensures { result ≡ may_write function loops.now place section }
{
    is_written_section(section) && is_uncontrolled(loops, place) && is_within(function, place)
}

// Whether a function is that whose statements these are.
fn is_own(function: Option<u32>, place: u32) -> bool
    ensures { result ≡ is_own function place }
{
    match function {
        None => false,
        Some(function) => function == place,
    }
}

// Whether these are not the statements of a function.
fn is_procedural(function: Option<u32>) -> bool
    ensures { result ≡ is_procedural function }
{
    match function {
        None => true,
        Some(_) => false,
    }
}

// Whether what is declared at a place may be written.
fn is_writable(function: Option<u32>, loops: &[u32], place: u32, entry: &Entry) -> bool
    ensures { result ≡ is_writable function loops.now place entry.now.section
        entry.now.declared.sort }
{
    match entry.declared.sort {
        Sort::Variable => may_write(function, loops, place, entry.section),
        Sort::ModuleVariable => is_procedural(function),
        Sort::Function => is_own(function, place) && is_uncontrolled(loops, place),
        _ => false,
    }
}

// What a declaration is as a target, where it may be written.
fn target_by<'o>(place: u32, entry: &'o Entry) -> Selected<'o>
    ensures { selects result ≡ target_by place entry.now entry.now.declared.sort }
{
    match entry.declared.sort {
        Sort::Variable => variable_head(&entry.kind),
        Sort::ModuleVariable => module_head(&entry.dims, place),
        Sort::Function => variable_head(&entry.kind),
        _ => Selected::Broken,
    }
}

// What is declared at a place is as a target.
fn target_in<'o>(
    outline: &'o Outline,
    function: Option<u32>,
    loops: &[u32],
    place: u32,
) -> Selected<'o>
    ensures { selects result
        ≡ target_in function loops.now place (entry_at outline.now place) }
{
    match outline.entry(place) {
        None => Selected::Broken,
        Some(entry) => if is_writable(function, loops, place, entry) {
            target_by(place, entry)
        } else {
            Selected::Broken
        },
    }
}

/// What a name is as a target.
pub fn target<'o>(
    outline: &'o Outline,
    function: Option<u32>,
    loops: &[u32],
    used: &Used,
) -> Selected<'o>
    ensures { selects result ≡ target outline.now function loops.now used.now }
{
    match outline.meaning(used) {
        Meant::Seen(place) => target_in(outline, function, loops, place),
        _ => Selected::Broken,
    }
}

// Whether what has this sort stands for a value or a module.
fn is_target_sort(sort: Sort) -> bool
    ensures { result ≡ is_target_sort sort }
{
    match sort {
        Sort::Constant => true,
        Sort::Variable => true,
        Sort::ModuleVariable => true,
        Sort::Function => true,
        _ => false,
    }
}

// How many subscripts a selector has, if it has some.
fn subscripts_in(selector: Option<&Selector>) -> Option<usize>
    ensures { result ≡ subscripts_in (option_copied selector.entry) }
{
    match selector {
        Some(Selector::Index { exprs, place: _ }) => Some(exprs.len()),
        _ => None,
    }
}

// Whether as many subscripts as these kinds stand first, and no others after them.
fn are_subscripts(kinds: &[Kind], path: &[Selector]) -> bool
    ensures { result ≡ are_subscripts kinds.now path.now }
{
    let first = subscripts_in(path.get(0));
    let more = first.is_some() && subscripts_in(path.get(1)).is_some();
    kinds.len() == first.unwrap_or(0) && !more
}

// Notes too few or too many subscripts.
fn check_subscripts(dims: &Option<SharedKinds>, path: &[Selector], place: u32, least: &mut Least)
    ensures { least.new.at ≡ least_with least.old.at
        (subscripts_faults dims.now path.now place) }
{
    match dims {
        None => (),
        Some(kinds) => if !are_subscripts(kinds.get().as_slice(), path) {
            least.note(place, Rule::WrongNumber);
        },
    }
}

// The same of a module variable.
fn check_counted(entry: &Entry, path: &[Selector], place: u32, least: &mut Least)
    ensures { least.new.at ≡ least_with least.old.at
        (counted_faults entry.now.declared.sort entry.now.dims path.now place) }
{
    match entry.declared.sort {
        Sort::ModuleVariable => check_subscripts(&entry.dims, path, place, least),
        _ => (),
    }
}

// Notes a declaration that is not written.
fn check_sort(entry: &Entry, path: &[Selector], place: u32, least: &mut Least)
    ensures { least.new.at ≡ least_with least.old.at
        (sort_target_faults entry.now path.now place) }
{
    if is_target_sort(entry.declared.sort) {
        least.note(place, Rule::NotWritable);
        check_counted(entry, path, place, least);
    } else {
        least.note(place, Rule::WrongSort);
    }
}

// The same, unless it may be written.
fn check_entry(
    function: Option<u32>,
    loops: &[u32],
    declared: u32,
    entry: &Entry,
    path: &[Selector],
    place: u32,
    least: &mut Least,
)
    ensures { least.new.at ≡ least_with least.old.at
        (entry_target_faults function loops.now declared entry.now path.now place) }
{
    if !is_writable(function, loops, declared, entry) {
        check_sort(entry, path, place, least);
    }
}

// The same of what is declared at a place.
fn check_declared(
    outline: &Outline,
    function: Option<u32>,
    loops: &[u32],
    declared: u32,
    path: &[Selector],
    place: u32,
    least: &mut Least,
)
    ensures { least.new.at ≡ least_with least.old.at (target_in_faults function loops.now
        declared (entry_at outline.now declared) path.now place) }
{
    match outline.entry(declared) {
        None => least.note(place, Rule::WrongSort),
        Some(entry) => check_entry(function, loops, declared, entry, path, place, least),
    }
}

// Notes the name of a function that is predeclared, or of another such thing that has no value.
fn check_function(known: PredeclaredName, place: u32, least: &mut Least)
    ensures { least.new.at ≡ least_with least.old.at
        (function_target (required_function known) place) }
{
    match required_function(known) {
        None => least.note(place, Rule::WrongSort),
        Some(_) => least.note(place, Rule::NotWritable),
    }
}

// Notes the name of something predeclared.
fn check_predeclared(known: PredeclaredName, place: u32, least: &mut Least)
    ensures { least.new.at ≡ least_with least.old.at
        (predeclared_target (predeclared_constant known) known place) }
{
    match known {
        PredeclaredName::False => least.note(place, Rule::NotWritable),
        PredeclaredName::True => least.note(place, Rule::NotWritable),
        PredeclaredName::Maxint => least.note(place, Rule::NotWritable),
        _ => check_function(known, place, least),
    }
}

/// Notes a name that is no target.
pub fn check_target(
    outline: &Outline,
    function: Option<u32>,
    loops: &[u32],
    used: &Used,
    path: &[Selector],
    least: &mut Least,
)
    ensures { least.new.at ≡ least_with least.old.at
        (target_faults outline.now function loops.now used.now path.now) }
{
    match outline.meaning(used) {
        Meant::Nothing => least.note(used.place, Rule::UnknownName),
        Meant::Predeclared(known) => check_predeclared(known, used.place, least),
        Meant::Unseen(_) => least.note(used.place, Rule::NotSeenHere),
        Meant::Seen(place) => {
            check_declared(outline, function, loops, place, path, used.place, least)
        },
    }
}

/// Notes a target that is a module, or several.
pub fn check_end(selected: Selected<'_>, place: u32, least: &mut Least)
    ensures { least.new.at
        ≡ least_with least.old.at (end_faults (selects selected.entry) place) }
{
    match selected {
        Selected::Modules(_) => least.note(place, Rule::WrongNumber),
        Selected::Module(_) | Selected::SomeModule => least.note(place, Rule::NotWritable),
        _ => (),
    }
}

// Checks a target with its selectors, and answers what it is.
fn check_path<'o>(
    outline: &'o Outline,
    function: Option<u32>,
    loops: &[u32],
    used: &Used,
    path: &[Selector],
    least: &mut Least,
) -> Selected<'o>
    ensures target { selects result
        ≡ path_target outline.now function loops.now used.now path.now }
    ensures faults { least.new.at ≡ least_with least.old.at
        (path_target_faults outline.now function loops.now used.now path.now) }
{
    check_target(outline, function, loops, used, path, least);
    let start = target(outline, function, loops, used);
    let selected = check_selectors(outline, start, used.place, path, least);
    check_end(selected, used.place, least);
    selected
}

/// An assignment.
pub fn check_assign(
    outline: &Outline,
    function: Option<u32>,
    loops: &[u32],
    used: &Used,
    path: &[Selector],
    value: &Expr,
    least: &mut Least,
)
    ensures { least.new.at ≡ least_with least.old.at
        (assign_faults outline.now function loops.now used.now path.now value.now) }
{
    let selected = check_path(outline, function, loops, used, path, least);
    let kind = check_expr(outline, value, least);
    gives(selected_type(selected), kind, value.place, least);
}

// Notes a variable of another kind than that of the parameter that it stands for.
fn check_alike(kind: &Option<Measured>, selected: Selected<'_>, place: u32, least: &mut Least)
    ensures { least.new.at ≡ least_with least.old.at
        (unlike_faults kind.now (selects selected.entry) place) }
{
    match (kind, selected) {
        (Some(measured), Selected::Component(other)) => if !is_alike(&measured.kind, other) {
            least.note(place, Rule::WrongKind);
        },
        _ => (),
    }
}

/// An argument for a parameter of a kind that is given a variable.
pub fn check_place(
    outline: &Outline,
    function: Option<u32>,
    loops: &[u32],
    kind: &Option<Measured>,
    expr: &Expr,
    least: &mut Least,
)
    ensures { least.new.at ≡ least_with least.old.at
        (place_faults outline.now function loops.now kind.now expr.now) }
{
    match bare(expr) {
        None => {
            check_expr(outline, expr, least);
            least.note(expr.place, Rule::NotWritable);
        },
        Some(variable) => {
            let selected = check_path(
                outline,
                function,
                loops,
                variable.name,
                variable.path,
                least,
            );
            check_alike(kind, selected, expr.place, least);
        },
    }
}
