//! What expressions yield, and the rules that they break, in one walk (ISO 7185, 6.7).
#![tactic(auto, using(rule_scope::proofs::LeastLaws::least_append, crate::proofs::Rows::rows))]

ghost use Rattle.std.specs.Prelude.{flat_map};
ghost use Rattle.std.specs.Prelude.{◌≡◌, ◌≤◌, ◌&&◌, ◌++◌, Some, None, drop, length};
ghost use Rattle.rule_scope.specs.LeastSoFar.{least_with};
ghost use Rattle.est_values.specs.Types.{yielded, Set};
ghost use Rattle.rule_expressions.specs.declared.operators.Wanted.TheVariants as wanted;
ghost use Rattle.rule_expressions.specs.Operators.{wants, kept};
ghost use Rattle.rule_expressions.specs.Selections.{selects, head, head_faults};
ghost use Rattle.rule_expressions.specs.ExpressionPlaces.{factor_place};
ghost use Rattle.rule_expressions.specs.Variables.{selected_type, end_faults};
ghost use Rattle.rule_expressions.specs.Calls.{is_received, callee, callee_faults, call_by};
ghost use Rattle.rule_expressions.specs.Expressions.{expr_type, with_simple, simple_type};
ghost use Rattle.rule_expressions.specs.Expressions.{with_term};
ghost use Rattle.rule_expressions.specs.Expressions.{summed, term_type, with_factor, multiplied};
ghost use Rattle.rule_expressions.specs.Expressions.{factor_type, first_type, are_taken};
ghost use Rattle.rule_expressions.specs.Expressions.{components, with_index, selection, selected};
ghost use Rattle.rule_expressions.specs.Expressions.{high_type, with_members, members};
ghost use Rattle.rule_expressions.specs.Expressions.{expr_faults, with_simple_faults};
ghost use Rattle.rule_expressions.specs.Expressions.{simple_faults, with_term_faults};
ghost use Rattle.rule_expressions.specs.Expressions.{summed_faults};
ghost use Rattle.rule_expressions.specs.Expressions.{term_faults, with_factor_faults};
ghost use Rattle.rule_expressions.specs.Expressions.{multiplied_faults, factor_faults};
ghost use Rattle.rule_expressions.specs.Expressions.{one_faults, are_taken_faults};
ghost use Rattle.rule_expressions.specs.Expressions.{one_component_faults, components_faults};
ghost use Rattle.rule_expressions.specs.Expressions.{with_index_faults, selection_faults};
ghost use Rattle.rule_expressions.specs.Expressions.{selected_faults, high_faults};
ghost use Rattle.rule_expressions.specs.Expressions.{with_members_faults, members_faults};
ghost use Rattle.rule_expressions.specs.Variables.{component};

use crate::calls::{call_by, check_callee, check_count, check_one};
use crate::names::{Selected, check_head, head};
use crate::operators::{
    Wanted, check_host, check_sign, kept, left_of, operate, signed, span, wants, with_member,
};
use crate::places::{check_number, factor_place, sign_place, simple_place, term_place};
use crate::receivers::Receiver;
use crate::variables::{check_end, check_field, check_subscript, selected_type};
use est_syntax::expression::{
    Expr, Factor, Member, ProductStep, Relation, Selector, Simple, SumStep, Term,
};
use est_syntax::name::Used;
use est_syntax::rule::Rule;
use est_values::types::{Host, ValueType};
use rule_scope::least::Least;
use rule_scope::outline::Outline;

/// Checks an expression, and answers what it yields, where it and all its parts break no rule.
#[cycle(expressions)]
pub fn check_expr<'o>(outline: &'o Outline, expr: &Expr, least: &mut Least) -> Option<ValueType<'o>>
    ensures kind { yielded result ≡ expr_type outline.now expr.now }
    ensures faults { least.new.at
        ≡ least_with least.old.at (expr_faults outline.now expr.now) }
{
    let left = check_simple(outline, &expr.left, least);
    match &expr.relation {
        None => left,
        Some(relation) => check_relation(outline, left, expr.place, relation, least),
    }
}

/// Checks expressions by themselves.
#[cycle(expressions)]
pub fn check_exprs(outline: &Outline, exprs: &[Expr], least: &mut Least)
    ensures { least.new.at ≡ least_with least.old.at (flat_map (expr_faults outline.now) exprs.now) }
{
    for expr in exprs {
        check_alone(outline, expr, least);
    }
}

// Checks an expression by itself.
#[cycle(expressions)]
fn check_alone(outline: &Outline, expr: &Expr, least: &mut Least)
    ensures { least.new.at ≡ least_with least.old.at (expr_faults outline.now expr.now) }
{
    let _kind = check_expr(outline, expr, least);
}

// Checks a relation to a sum that begins at a place.
#[cycle(expressions)]
fn check_relation<'o>(
    outline: &'o Outline,
    left: Option<ValueType<'o>>,
    place: u32,
    relation: &Relation,
    least: &mut Least,
) -> Option<ValueType<'o>>
    ensures kind { yielded result ≡ with_simple outline.now (yielded left.entry) relation.now }
    ensures faults { least.new.at ≡ least_with least.old.at
        (with_simple_faults outline.now (yielded left.entry) place relation.now) }
{
    wants(left_of(relation.operator), left, place, least);
    let right = check_simple(outline, &relation.right, least);
    operate(
        relation.operator,
        left,
        right,
        simple_place(&relation.right),
        least,
    )
}

// Checks a sum.
#[cycle(expressions)]
fn check_simple<'o>(
    outline: &'o Outline,
    simple: &Simple,
    least: &mut Least,
) -> Option<ValueType<'o>>
    ensures kind { yielded result ≡ simple_type outline.now simple.now }
    ensures faults { least.new.at
        ≡ least_with least.old.at (simple_faults outline.now simple.now) }
{
    let first = check_term(outline, &simple.first, least);
    let place = term_place(&simple.first);
    check_sign(simple.sign, first, place, least);
    check_sum_steps(
        outline,
        signed(simple.sign, first),
        sign_place(simple.sign, place),
        simple.rest.as_slice(),
        least,
    )
}

// Checks the steps of a sum, which begins at a place, after its first operand.
#[cycle(expressions)]
fn check_sum_steps<'o>(
    outline: &'o Outline,
    first: Option<ValueType<'o>>,
    place: u32,
    steps: &[SumStep],
    least: &mut Least,
) -> Option<ValueType<'o>>
    ensures kind { yielded result ≡ summed outline.now (yielded first.entry) steps.now }
    ensures faults { least.new.at ≡ least_with least.old.at
        (summed_faults outline.now (yielded first.entry) place steps.now) }
{
    let mut kind = first;
    for step in steps {
        kind = check_sum_step(outline, kind, place, step, least);
    }
    kind
}

// Checks a step of a sum, after what stands before it.
#[cycle(expressions)]
fn check_sum_step<'o>(
    outline: &'o Outline,
    left: Option<ValueType<'o>>,
    place: u32,
    step: &SumStep,
    least: &mut Least,
) -> Option<ValueType<'o>>
    ensures kind { yielded result ≡ with_term outline.now (yielded left.entry) step.now }
    ensures faults { least.new.at ≡ least_with least.old.at
        (with_term_faults outline.now (yielded left.entry) place step.now) }
{
    wants(left_of(step.operator), left, place, least);
    let right = check_term(outline, &step.right, least);
    operate(step.operator, left, right, term_place(&step.right), least)
}

// Checks a product.
#[cycle(expressions)]
fn check_term<'o>(outline: &'o Outline, term: &Term, least: &mut Least) -> Option<ValueType<'o>>
    ensures kind { yielded result ≡ term_type outline.now term.now }
    ensures faults { least.new.at ≡ least_with least.old.at (term_faults outline.now term.now) }
{
    let first = check_factor(outline, &term.first, least);
    check_product_steps(
        outline,
        first,
        factor_place(&term.first),
        term.rest.as_slice(),
        least,
    )
}

// Checks the steps of a product, which begins at a place, after its first operand.
#[cycle(expressions)]
fn check_product_steps<'o>(
    outline: &'o Outline,
    first: Option<ValueType<'o>>,
    place: u32,
    steps: &[ProductStep],
    least: &mut Least,
) -> Option<ValueType<'o>>
    ensures kind { yielded result ≡ multiplied outline.now (yielded first.entry) steps.now }
    ensures faults { least.new.at ≡ least_with least.old.at
        (multiplied_faults outline.now (yielded first.entry) place steps.now) }
{
    let mut kind = first;
    for step in steps {
        kind = check_product_step(outline, kind, place, step, least);
    }
    kind
}

// Checks a step of a product, after what stands before it.
#[cycle(expressions)]
fn check_product_step<'o>(
    outline: &'o Outline,
    left: Option<ValueType<'o>>,
    place: u32,
    step: &ProductStep,
    least: &mut Least,
) -> Option<ValueType<'o>>
    ensures kind { yielded result ≡ with_factor outline.now (yielded left.entry) step.now }
    ensures faults { least.new.at ≡ least_with least.old.at
        (with_factor_faults outline.now (yielded left.entry) place step.now) }
{
    wants(left_of(step.operator), left, place, least);
    let right = check_factor(outline, &step.right, least);
    operate(step.operator, left, right, factor_place(&step.right), least)
}

// Checks an operand of a product.
#[cycle(expressions)]
fn check_factor<'o>(
    outline: &'o Outline,
    factor: &Factor,
    least: &mut Least,
) -> Option<ValueType<'o>>
    ensures kind { yielded result ≡ factor_type outline.now factor.now }
    ensures faults { least.new.at
        ≡ least_with least.old.at (factor_faults outline.now factor.now) }
{
    match factor {
        Factor::Number { number, place } => check_number(*number, *place, least),
        Factor::Character { code: _, place: _ } => Some(ValueType::Ordinal(Host::Char)),
        Factor::Group { of, place: _ } => check_expr(outline, of.get(), least),
        Factor::Not { of, place: _ } => check_negation(outline, of.get(), least),
        Factor::Set { members, place: _ } => check_members(outline, members.as_slice(), least),
        Factor::Variable {
            name,
            path,
            place: _,
        } => check_variable(outline, name, path.as_slice(), least),
        Factor::Call {
            name,
            arguments,
            place: _,
        } => check_call(outline, name, arguments.as_slice(), least),
    }
}

// Checks a negation, by its operand.
#[cycle(expressions)]
fn check_negation<'o>(
    outline: &'o Outline,
    factor: &Factor,
    least: &mut Least,
) -> Option<ValueType<'o>>
    ensures kind { yielded result ≡ kept wanted.Boolean (factor_type outline.now factor.now) }
    ensures faults { least.new.at ≡ least_with least.old.at
        (factor_faults outline.now factor.now
        ++ wants wanted.Boolean (factor_type outline.now factor.now) (factor_place factor.now)) }
{
    let kind = check_factor(outline, factor, least);
    wants(Wanted::Boolean, kind, factor_place(factor), least);
    kept(Wanted::Boolean, kind)
}

// Checks the members of a set.
#[cycle(expressions)]
fn check_members<'o>(
    outline: &'o Outline,
    list: &[Member],
    least: &mut Least,
) -> Option<ValueType<'o>>
    ensures kind { yielded result ≡ members outline.now (Some (Set None)) list.now }
    ensures faults { least.new.at ≡ least_with least.old.at
        (members_faults outline.now (Some (Set None)) list.now) }
{
    let mut set = Some(ValueType::Set(None));
    for member in list {
        set = check_member(outline, set, member, least);
    }
    set
}

// Checks a member of a set, or members from one to another, after those before.
#[cycle(expressions)]
fn check_member<'o>(
    outline: &'o Outline,
    set: Option<ValueType<'o>>,
    member: &Member,
    least: &mut Least,
) -> Option<ValueType<'o>>
    ensures kind { yielded result ≡ with_members outline.now (yielded set.entry) member.now }
    ensures faults { least.new.at ≡ least_with least.old.at
        (with_members_faults outline.now (yielded set.entry) member.now) }
{
    let low = check_expr(outline, &member.low, least);
    wants(Wanted::Ordinal, low, member.low.place, least);
    let kind = check_later_end(outline, low, &member.high, least);
    check_host(set, low, member.low.place, least);
    with_member(set, kind)
}

// Checks the later end of members from one to another, if there is one.
#[cycle(expressions)]
fn check_later_end<'o>(
    outline: &'o Outline,
    low: Option<ValueType<'o>>,
    high: &Option<Expr>,
    least: &mut Least,
) -> Option<ValueType<'o>>
    ensures kind { yielded result ≡ high_type outline.now (yielded low.entry) high.now }
    ensures faults { least.new.at ≡ least_with least.old.at
        (high_faults outline.now (yielded low.entry) high.now) }
{
    match high {
        None => kept(Wanted::Ordinal, low),
        Some(high) => {
            let kind = check_expr(outline, high, least);
            span(low, kind, high.place, least)
        },
    }
}

// Checks a variable, a constant or a function without arguments.
#[cycle(expressions)]
fn check_variable<'o>(
    outline: &'o Outline,
    name: &Used,
    path: &[Selector],
    least: &mut Least,
) -> Option<ValueType<'o>>
    ensures kind { yielded result
        ≡ selected_type (selected outline.now (head outline.now name.now) path.now) }
    ensures faults { least.new.at ≡ least_with least.old.at
        (head_faults outline.now name.now
        ++ selected_faults outline.now (head outline.now name.now) name.now.place path.now
        ++ end_faults (selected outline.now (head outline.now name.now) path.now)
        name.now.place) }
{
    check_head(outline, name, least);
    let selected = check_selectors(outline, head(outline, name), name.place, path, least);
    check_end(selected, name.place, least);
    selected_type(selected)
}

/// Checks the selectors after a name at a place, where this stands before them, and answers what
/// they make of it.
#[cycle(expressions)]
pub fn check_selectors<'o>(
    outline: &'o Outline,
    start: Selected<'o>,
    name: u32,
    path: &[Selector],
    least: &mut Least,
) -> Selected<'o>
    ensures selection { selects result ≡ selected outline.now (selects start.entry) path.now }
    ensures faults { least.new.at ≡ least_with least.old.at
        (selected_faults outline.now (selects start.entry) name path.now) }
{
    let mut selected = start;
    for selector in path {
        selected = check_selector(outline, selected, name, selector, least);
    }
    selected
}

// Checks a selector.
#[cycle(expressions)]
fn check_selector<'o>(
    outline: &'o Outline,
    before: Selected<'o>,
    name: u32,
    selector: &Selector,
    least: &mut Least,
) -> Selected<'o>
    ensures selection { selects result
        ≡ selection outline.now (selects before.entry) selector.now }
    ensures faults { least.new.at ≡ least_with least.old.at
        (selection_faults outline.now (selects before.entry) name selector.now) }
{
    match selector {
        Selector::Index { exprs, place: _ } => {
            check_index(outline, before, name, exprs.as_slice(), least)
        },
        Selector::Field(used) => check_field(outline, before, used, name, least),
    }
}

// Checks the subscripts in one pair of brackets.
#[cycle(expressions)]
fn check_index<'o>(
    outline: &'o Outline,
    before: Selected<'o>,
    name: u32,
    exprs: &[Expr],
    least: &mut Least,
) -> Selected<'o>
    ensures selection { selects result ≡ with_index outline.now (selects before.entry) exprs.now }
    ensures faults { least.new.at ≡ least_with least.old.at
        (with_index_faults outline.now (selects before.entry) name exprs.now) }
{
    match before {
        Selected::Component(_) => check_components(outline, before, name, exprs, least),
        Selected::Modules(place) => {
            let receiver = Some(Receiver::Subscripts(place));
            if check_taken(outline, receiver, name, exprs, least) {
                Selected::Module(place)
            } else {
                Selected::SomeModule
            }
        },
        Selected::Module(_) | Selected::SomeModule => {
            check_exprs(outline, exprs, least);
            least.note(name, Rule::WrongNumber);
            Selected::Broken
        },
        Selected::Value(_) => {
            check_exprs(outline, exprs, least);
            least.note(name, Rule::WrongKind);
            Selected::Broken
        },
        Selected::Broken => {
            check_exprs(outline, exprs, least);
            Selected::Broken
        },
    }
}

// Checks the subscripts of an array variable.
#[cycle(expressions)]
fn check_components<'o>(
    outline: &'o Outline,
    array: Selected<'o>,
    name: u32,
    exprs: &[Expr],
    least: &mut Least,
) -> Selected<'o>
    ensures selection { selects result ≡ components outline.now (selects array.entry) exprs.now }
    ensures faults { least.new.at ≡ least_with least.old.at
        (components_faults outline.now (selects array.entry) name exprs.now) }
{
    let mut selected = array;
    for expr in exprs {
        selected = check_component(outline, selected, name, expr, least);
    }
    selected
}

// Checks one subscript of an array variable.
#[cycle(expressions)]
fn check_component<'o>(
    outline: &'o Outline,
    array: Selected<'o>,
    name: u32,
    expr: &Expr,
    least: &mut Least,
) -> Selected<'o>
    ensures selection { selects result
        ≡ component (selects array.entry) (expr_type outline.now expr.now) }
    ensures faults { least.new.at ≡ least_with least.old.at
        (one_component_faults outline.now (selects array.entry) name expr.now) }
{
    let kind = check_expr(outline, expr, least);
    check_subscript(array, kind, expr.place, name, least)
}

// Checks a call of a function with arguments.
#[cycle(expressions)]
fn check_call<'o>(
    outline: &'o Outline,
    name: &Used,
    arguments: &[Expr],
    least: &mut Least,
) -> Option<ValueType<'o>>
    ensures kind { yielded result ≡ call_by outline.now (callee outline.now name.now)
        (are_taken outline.now (callee outline.now name.now) 0 arguments.now)
        (first_type outline.now arguments.now) }
    ensures faults { least.new.at ≡ least_with least.old.at
        (callee_faults outline.now name.now ++ are_taken_faults outline.now
        (callee outline.now name.now) 0 name.now.place arguments.now) }
{
    let receiver = check_callee(outline, name, least);
    if arguments.is_empty() {
        let taken = check_count(outline, receiver, 0, name.place, least);
        return call_by(outline, receiver, taken, None);
    }
    let first = &arguments[0];
    let kind = check_expr(outline, first, least);
    let taken = check_one(outline, receiver, 0, kind, first.place, least);
    let rest = check_rest(outline, receiver, 1, name.place, arguments, least);
    let all = taken && rest;
    call_by(outline, receiver, all, kind)
}

/// Whether arguments or subscripts after a name at a place are taken, and as many as there are.
/// Notes what they break.
#[cycle(expressions)]
pub fn check_taken(
    outline: &Outline,
    receiver: Option<Receiver>,
    name: u32,
    exprs: &[Expr],
    least: &mut Least,
) -> bool
    ensures taken { result ≡ are_taken outline.now receiver 0 exprs.now }
    ensures faults { least.new.at ≡ least_with least.old.at
        (are_taken_faults outline.now receiver 0 name exprs.now) }
{
    check_rest(outline, receiver, 0, name, exprs, least)
}

// The same of those from a number on.
#[cycle(expressions)]
fn check_rest(
    outline: &Outline,
    receiver: Option<Receiver>,
    from: usize,
    name: u32,
    exprs: &[Expr],
    least: &mut Least,
) -> bool
    requires { from ≤ length exprs.now }
    ensures taken { result ≡ are_taken outline.now receiver from (drop from exprs.now) }
    ensures faults { least.new.at ≡ least_with least.old.at
        (are_taken_faults outline.now receiver from name (drop from exprs.now)) }
{
    let mut taken = true;
    for number in from..exprs.len() {
        taken = check_numbered(outline, receiver, number, taken, &exprs[number], least);
    }
    let enough = check_count(outline, receiver, exprs.len(), name, least);
    taken && enough
}

// Whether the one that has this number is taken, and those before it were. Notes what it breaks.
#[cycle(expressions)]
fn check_numbered(
    outline: &Outline,
    receiver: Option<Receiver>,
    number: usize,
    before: bool,
    expr: &Expr,
    least: &mut Least,
) -> bool
    ensures taken { result
        ≡ before && is_received outline.now receiver number (expr_type outline.now expr.now) }
    ensures faults { least.new.at ≡ least_with least.old.at
        (one_faults outline.now receiver number expr.now) }
{
    let kind = check_expr(outline, expr, least);
    let taken = check_one(outline, receiver, number, kind, expr.place, least);
    before && taken
}
