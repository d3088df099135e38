//! The rules that statements break (ISO 7185, 6.8; ISO 9074, statements).
#![tactic(auto, using(crate::proofs::StatementRows::rows))]

ghost use Rattle.std.specs.Prelude.{flat_map};
ghost use Rattle.std.specs.Prelude.{◌≡◌, ◌++◌, [], IfOk, OnOk};
ghost use Rattle.rule_scope.specs.LeastSoFar.{least_with};
ghost use Rattle.rule_declares.specs.rule_kinds.Dims.{dim_faults};
ghost use Rattle.est_values.specs.Types.{yielded};
ghost use Rattle.rule_expressions.specs.Operators.{kept};
ghost use Rattle.rule_expressions.specs.Expressions.{expr_type};
ghost use Rattle.rule_expressions.specs.declared.operators.Wanted.TheVariants as wanted;
ghost use Rattle.rule_statements.specs.Cases.{chosen_host, with_constants};
ghost use Rattle.rule_statements.specs.Statements.{wanted_faults, function_faults, is_place};
ghost use Rattle.rule_statements.specs.Statements.{argument_faults, arguments_faults};
ghost use Rattle.rule_statements.specs.Statements.{called_faults};
ghost use Rattle.rule_statements.specs.Statements.{call_faults, bound_faults, for_faults};
ghost use Rattle.rule_statements.specs.Statements.{within_loop, over_faults, link_faults};
ghost use Rattle.rule_statements.specs.Statements.{plain_faults, statement_faults, option_faults};
ghost use Rattle.rule_statements.specs.Statements.{arm_faults, arms_faults};

use crate::cases::{Chosen, check_choices, chosen_host};
use crate::links::{check_attach, check_connect, check_untied};
use crate::modules::check_init;
use crate::signals::check_sendings;
use crate::targets::{check_assign, check_end, check_place, check_target, target};
use est_syntax::est_items::{Boxed, Items};
use est_syntax::expression::Expr;
use est_syntax::name::Used;
use est_syntax::rule::Rule;
use est_syntax::statement::{Arm, Arms, Statement, Statements};
use est_syntax::type_text::TypeText;
use est_values::types::{Host, ValueType};
use rule_declares::rule_kinds::dims::check_ordinal;
use rule_declares::rule_kinds::texts::{check_text, text_place};
use rule_expressions::accesses::check_access;
use rule_expressions::expressions::{check_expr, check_exprs};
use rule_expressions::names::{parameter, type_in};
use rule_expressions::operators::{Wanted, gives, kept, wants};
use rule_expressions::receivers::{Receiver, check_number};
use rule_expressions::variables::selected_type;
use rule_scope::declaration::{Meant, Section, Sort};
use rule_scope::least::Least;
use rule_scope::outline::Outline;
use std::alloc::{AllocError, Global};

/// An expression whose place wants this.
pub fn check_wanted(outline: &Outline, wanted: Wanted, expr: &Expr, least: &mut Least)
    ensures { least.new.at
        ≡ least_with least.old.at (wanted_faults outline.now wanted expr.now) }
{
    let kind = check_expr(outline, expr, least);
    wants(wanted, kind, expr.place, least);
}

// Notes what a function does not do.
fn check_function(function: Option<u32>, place: u32, least: &mut Least)
    ensures { least.new.at ≡ least_with least.old.at (function_faults function place) }
{
    match function {
        None => (),
        Some(_) => least.note(place, Rule::NotInFunction),
    }
}

// Whether a parameter of this section is given a variable.
fn is_place(section: Section) -> bool
    ensures { result ≡ is_place section }
{
    match section {
        Section::Place => true,
        _ => false,
    }
}

// The argument of a procedure that has this number, counted from 0.
fn check_argument(
    outline: &Outline,
    function: Option<u32>,
    loops: &[u32],
    procedure: u32,
    number: usize,
    expr: &Expr,
    least: &mut Least,
)
    ensures { least.new.at ≡ least_with least.old.at
        (argument_faults outline.now function loops.now procedure number expr.now) }
{
    match parameter(outline, procedure, number) {
        None => {
            check_expr(outline, expr, least);
        },
        Some(entry) => if is_place(entry.section) {
            check_place(outline, function, loops, &entry.kind, expr, least);
        } else {
            let kind = check_expr(outline, expr, least);
            gives(type_in(&entry.kind), kind, expr.place, least);
        },
    }
}

// The arguments of a procedure, after its name.
fn check_arguments(
    outline: &Outline,
    function: Option<u32>,
    loops: &[u32],
    procedure: u32,
    name: u32,
    exprs: &[Expr],
    least: &mut Least,
)
    ensures { least.new.at ≡ least_with least.old.at
        (arguments_faults outline.now function loops.now procedure 0 name exprs.now) }
{
    for i in 0..exprs.len() {
        check_argument(outline, function, loops, procedure, i, &exprs[i], least);
    }
    check_number(
        outline,
        Receiver::Parameters(procedure),
        exprs.len(),
        name,
        least,
    );
}

// The arguments after a name, which is that of a procedure or of none.
fn check_called(
    outline: &Outline,
    function: Option<u32>,
    loops: &[u32],
    procedure: Option<u32>,
    name: u32,
    exprs: &[Expr],
    least: &mut Least,
)
    ensures { least.new.at ≡ least_with least.old.at
        (called_faults outline.now function loops.now procedure name exprs.now) }
{
    match procedure {
        None => check_exprs(outline, exprs, least),
        Some(procedure) => {
            check_arguments(outline, function, loops, procedure, name, exprs, least);
        },
    }
}

// A procedure with its arguments.
fn check_call(
    outline: &Outline,
    function: Option<u32>,
    loops: &[u32],
    name: &Used,
    exprs: &[Expr],
    least: &mut Least,
)
    ensures { least.new.at ≡ least_with least.old.at
        (call_faults outline.now function loops.now name.now exprs.now) }
{
    outline.check_use(Sort::Procedure, name, least);
    let procedure = outline.declaration_of(Sort::Procedure, name);
    check_called(
        outline, function, loops, procedure, name.place, exprs, least,
    );
}

// The first or last value of a `for` whose control variable has this type.
fn check_bound(outline: &Outline, control: Option<ValueType<'_>>, expr: &Expr, least: &mut Least)
    ensures { least.new.at ≡ least_with least.old.at
        (bound_faults outline.now (yielded control.entry) expr.now) }
{
    let kind = check_expr(outline, expr, least);
    gives(kept(Wanted::Ordinal, control), kind, expr.place, least);
}

// The control variable of a `for`, and its first and last value.
fn check_for(
    outline: &Outline,
    function: Option<u32>,
    loops: &[u32],
    name: &Used,
    first: &Boxed<Expr>,
    last: &Boxed<Expr>,
    least: &mut Least,
)
    ensures { least.new.at ≡ least_with least.old.at
        (for_faults outline.now function loops.now name.now first.now last.now) }
{
    let variable = target(outline, function, loops, name);
    let control = selected_type(variable);
    check_target(outline, function, loops, name, &[], least);
    check_end(variable, name.place, least);
    wants(Wanted::Ordinal, control, name.place, least);
    check_bound(outline, control, first.get(), least);
    check_bound(outline, control, last.get(), least);
}

// The control variables of the loops around the statement of a `for`.
fn within_loop(
    alloc: Global,
    outline: &Outline,
    loops: &[u32],
    name: &Used,
) -> Result<Items<u32>, AllocError>
    ensures { IfOk result (λ inner. inner ≡ within_loop outline.now loops.now name.now) }
{
    match outline.meaning(name) {
        Meant::Seen(place) => {
            let mut items = Vec::with_capacity(alloc, 1)?;
            items.push(place)?;
            items.extend_from_slice(loops)?;
            Ok(Items { items })
        },
        _ => Ok(Items {
            items: Vec::from_slice(alloc, loops)?,
        }),
    }
}

// An ordinal type.
fn check_dim(
    alloc: Global,
    outline: &Outline,
    text: &TypeText,
    least: &mut Least,
) -> Result<(), AllocError>
    ensures { OnOk result
        (least.new.at ≡ least_with least.old.at (dim_faults outline.now text.now)) }
{
    let kind = check_text(alloc, outline, text, least)?;
    check_ordinal(&kind, text_place(text), least);
    drop(kind);
    Ok(())
}

// What an `all` goes over: a header, or an ordinal type.
fn check_over(
    alloc: Global,
    outline: &Outline,
    over: &TypeText,
    least: &mut Least,
) -> Result<(), AllocError>
    ensures { OnOk result
        (least.new.at ≡ least_with least.old.at (over_faults outline.now over.now)) }
{
    if let TypeText::Named(used) = over {
        if outline.declaration_of(Sort::Header, used).is_some() {
            return Ok(());
        }
    }
    check_dim(alloc, outline, over, least)
}

// A statement about links.
fn check_link(outline: &Outline, function: Option<u32>, statement: &Statement, least: &mut Least)
    ensures { least.new.at
        ≡ least_with least.old.at (link_faults outline.now function statement.now) }
{
    match statement {
        Statement::Connect { one, other, place } => {
            check_function(function, *place, least);
            check_connect(outline, one, other, least);
        },
        Statement::Disconnect { end, place } => {
            check_function(function, *place, least);
            check_untied(outline, end, least);
        },
        Statement::Attach {
            own,
            child,
            point,
            place,
        } => {
            check_function(function, *place, least);
            check_attach(outline, own, child, point, least);
        },
        Statement::Detach { end, place } => {
            check_function(function, *place, least);
            check_untied(outline, end, least);
        },
        _ => (),
    }
}

// A statement without statements in it.
fn check_plain(
    outline: &Outline,
    function: Option<u32>,
    loops: &[u32],
    statement: &Statement,
    least: &mut Least,
)
    ensures { least.new.at ≡ least_with least.old.at
        (plain_faults outline.now function loops.now statement.now) }
{
    match statement {
        Statement::Assign {
            target,
            path,
            value,
            place: _,
        } => {
            let (path, value) = (path.as_slice(), value.get());
            check_assign(outline, function, loops, target, path, value, least);
        },
        Statement::Call {
            name,
            arguments,
            place,
        } => {
            check_function(function, *place, least);
            check_call(outline, function, loops, name, arguments.as_slice(), least);
        },
        Statement::Output { sendings, place } => {
            check_function(function, *place, least);
            check_sendings(outline, sendings.as_slice(), least);
        },
        Statement::Init {
            target,
            body,
            arguments,
            place,
        } => {
            check_function(function, *place, least);
            check_init(outline, target, body, arguments.as_slice(), least);
        },
        Statement::Release { target, place } => {
            check_function(function, *place, least);
            check_access(outline, Sort::ModuleVariable, target, least);
        },
        _ => check_link(outline, function, statement, least),
    }
}

/// A statement of the function at a place or of none, within the loops over these control
/// variables.
#[cycle(statement)]
pub fn check_statement(
    alloc: Global,
    outline: &Outline,
    function: Option<u32>,
    loops: &[u32],
    statement: &Statement,
    least: &mut Least,
) -> Result<(), AllocError>
    ensures { OnOk result (least.new.at ≡ least_with least.old.at
        (statement_faults outline.now function loops.now statement.now)) }
{
    match statement {
        Statement::Compound { turn, .. } => {
            check_statements(alloc, outline, function, loops, turn.as_slice(), least)
        }
        Statement::If {
            condition,
            first,
            second,
            ..
        } => {
            check_guarded(alloc, outline, function, loops, first, condition, least)?;
            check_optional(alloc, outline, function, loops, second, least)
        }
        Statement::Case { value, arms, .. } => {
            check_case(alloc, outline, function, loops, arms, value, least)
        }
        Statement::While {
            condition,
            turn,
            ..
        } => check_guarded(alloc, outline, function, loops, turn, condition, least),
        Statement::Repeat { turn, until, .. } => {
            check_repeat(alloc, outline, function, loops, turn, until, least)
        }
        Statement::For {
            name,
            first,
            last,
            turn,
            ..
        } => {
            check_for(outline, function, loops, name, first, last, least);
            check_turn(alloc, outline, function, loops, turn, name, least)
        }
        Statement::All { over, turn, .. } => {
            check_all(alloc, outline, function, loops, turn, over, least)
        }
        _ => {
            check_plain(outline, function, loops, statement, least);
            Ok(())
        }
    }
}

// A condition, and the statement under it.
#[cycle(statement)]
fn check_guarded(
    alloc: Global,
    outline: &Outline,
    function: Option<u32>,
    loops: &[u32],
    turn: &Boxed<Statement>,
    condition: &Boxed<Expr>,
    least: &mut Least,
) -> Result<(), AllocError>
    ensures { OnOk result (least.new.at ≡ least_with least.old.at
        (wanted_faults outline.now wanted.Boolean condition.now
        ++ statement_faults outline.now function loops.now turn.now)) }
{
    check_wanted(outline, Wanted::Boolean, condition.get(), least);
    check_statement(alloc, outline, function, loops, turn.get(), least)
}

// What else an `if` does, if anything.
#[cycle(statement)]
fn check_optional(
    alloc: Global,
    outline: &Outline,
    function: Option<u32>,
    loops: &[u32],
    turn: &Option<Boxed<Statement>>,
    least: &mut Least,
) -> Result<(), AllocError>
    ensures { OnOk result (least.new.at ≡ least_with least.old.at
        (option_faults outline.now function loops.now turn.now)) }
{
    match turn {
        None => Ok(()),
        Some(turn) => check_statement(alloc, outline, function, loops, turn.get(), least),
    }
}

// Statements, and the condition after them.
#[cycle(statement)]
fn check_repeat(
    alloc: Global,
    outline: &Outline,
    function: Option<u32>,
    loops: &[u32],
    turn: &Statements,
    until: &Boxed<Expr>,
    least: &mut Least,
) -> Result<(), AllocError>
    ensures { OnOk result (least.new.at ≡ least_with least.old.at
        (flat_map (statement_faults outline.now function loops.now) turn.now
        ++ wanted_faults outline.now wanted.Boolean until.now)) }
{
    check_statements(alloc, outline, function, loops, turn.as_slice(), least)?;
    check_wanted(outline, Wanted::Boolean, until.get(), least);
    Ok(())
}

// What an `all` goes over, and its statement.
#[cycle(statement)]
fn check_all(
    alloc: Global,
    outline: &Outline,
    function: Option<u32>,
    loops: &[u32],
    turn: &Boxed<Statement>,
    over: &Boxed<TypeText>,
    least: &mut Least,
) -> Result<(), AllocError>
    ensures { OnOk result (least.new.at ≡ least_with least.old.at
        (over_faults outline.now over.now
        ++ statement_faults outline.now function loops.now turn.now)) }
{
    check_over(alloc, outline, over.get(), least)?;
    check_statement(alloc, outline, function, loops, turn.get(), least)
}

// The statement of a `for`.
#[cycle(statement)]
fn check_turn(
    alloc: Global,
    outline: &Outline,
    function: Option<u32>,
    loops: &[u32],
    turn: &Boxed<Statement>,
    name: &Used,
    least: &mut Least,
) -> Result<(), AllocError>
    ensures { OnOk result (least.new.at ≡ least_with least.old.at
        (statement_faults outline.now function (within_loop outline.now loops.now name.now)
        turn.now)) }
{
    let inner = within_loop(alloc, outline, loops, name)?;
    check_statement(
        alloc,
        outline,
        function,
        inner.as_slice(),
        turn.get(),
        least,
    )
}

/// Statements in order.
#[cycle(statement)]
pub fn check_statements(
    alloc: Global,
    outline: &Outline,
    function: Option<u32>,
    loops: &[u32],
    statements: &[Statement],
    least: &mut Least,
) -> Result<(), AllocError>
    ensures { OnOk result (least.new.at ≡ least_with least.old.at
        (flat_map (statement_faults outline.now function loops.now) statements.now)) }
{
    for statement in statements {
        check_statement(alloc, outline, function, loops, statement, least)?;
    }
    Ok(())
}

// A value, and the choices by it.
#[cycle(statement)]
fn check_case(
    alloc: Global,
    outline: &Outline,
    function: Option<u32>,
    loops: &[u32],
    arms: &Arms,
    value: &Boxed<Expr>,
    least: &mut Least,
) -> Result<(), AllocError>
    ensures { OnOk result (least.new.at ≡ least_with least.old.at
        (wanted_faults outline.now wanted.Ordinal value.now
        ++ arms_faults outline.now function loops.now
        (chosen_host (expr_type outline.now value.now)) [] arms.now)) }
{
    let (arms, value) = (arms.as_slice(), value.get());
    let kind = check_expr(outline, value, least);
    wants(Wanted::Ordinal, kind, value.place, least);
    let host = chosen_host(kind);
    let mut chosen = Chosen::new(alloc);
    check_arms(
        alloc,
        outline,
        function,
        loops,
        arms,
        host,
        &mut chosen,
        least,
    )?;
    drop(chosen);
    Ok(())
}

// A choice of a `case`, after those before it.
#[cycle(statement)]
fn check_arm(
    alloc: Global,
    outline: &Outline,
    function: Option<u32>,
    loops: &[u32],
    arm: &Arm,
    host: Option<Host>,
    chosen: &mut Chosen,
    least: &mut Least,
) -> Result<(), AllocError>
    ensures chosen { OnOk result (chosen.new
        ≡ with_constants outline.now host chosen.old arm.now.constants) }
    ensures faults { OnOk result (least.new.at ≡ least_with least.old.at
        (arm_faults outline.now function loops.now host chosen.old arm.now)) }
{
    check_choices(outline, host, arm.constants.as_slice(), chosen, least)?;
    check_statement(alloc, outline, function, loops, &arm.turn, least)
}

// The choices of a `case`, after those before them.
#[cycle(statement)]
fn check_arms(
    alloc: Global,
    outline: &Outline,
    function: Option<u32>,
    loops: &[u32],
    arms: &[Arm],
    host: Option<Host>,
    chosen: &mut Chosen,
    least: &mut Least,
) -> Result<(), AllocError>
    ensures { OnOk result (least.new.at ≡ least_with least.old.at
        (arms_faults outline.now function loops.now host chosen.old arms.now)) }
{
    for arm in arms {
        check_arm(alloc, outline, function, loops, arm, host, chosen, least)?;
    }
    Ok(())
}
