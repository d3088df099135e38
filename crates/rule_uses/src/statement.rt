//! Whether a routine may name what statements look up.
#![tactic(auto, using(crate::proofs::Sequences::free_append, crate::proofs::StatementRows::rows))]

ghost use Rattle.std.specs.Prelude.{◌≡◌, ◌∷◌, ◌++◌};
ghost use Rattle.rule_uses.specs.Closed.{all_free};
ghost use Rattle.rule_uses.specs.NamesInExpressions.{expr_names};
ghost use Rattle.rule_uses.specs.NamesInStatements.{sending_names, sendings_names};
ghost use Rattle.rule_uses.specs.NamesInStatements.{link_names, plain_names, statement_names};
ghost use Rattle.rule_uses.specs.NamesInStatements.{option_statement_names, statements_names};
ghost use Rattle.rule_uses.specs.NamesInStatements.{arm_names, arms_names};
ghost use Rattle.rule_uses.specs.NamesInTexts.{text_names};

use crate::expression::{access, end_point, expr, exprs, selectors};
use crate::free::is_free;
use crate::text::{constants, type_text};
use est_syntax::est_items::Boxed;
use est_syntax::expression::Expr;
use est_syntax::name::Used;
use est_syntax::statement::{Arm, Sending, Statement};
use est_syntax::type_text::TypeText;
use rule_scope::outline::Outline;

// Whether the routine may name what a sending looks up.
fn sending(outline: &Outline, routine: u32, sending: &Sending) -> bool
    ensures { result ≡ all_free outline.now routine (sending_names sending.now) }
{
    access(outline, routine, &sending.at) && exprs(outline, routine, sending.arguments.as_slice())
}

// Whether the routine may name what sendings look up.
fn sendings(outline: &Outline, routine: u32, sendings: &[Sending]) -> bool
    ensures { result ≡ all_free outline.now routine (sendings_names sendings.now) }
{
    for one in sendings {
        if !sending(outline, routine, one) {
            return false;
        }
    }
    true
}

// Whether the routine may name what a statement about links looks up.
fn link(outline: &Outline, routine: u32, one: &Statement) -> bool
    ensures { result ≡ all_free outline.now routine (link_names one.now) }
{
    match one {
        Statement::Connect { one, other, .. } => {
            end_point(outline, routine, one) && end_point(outline, routine, other)
        }
        Statement::Disconnect { end, .. } => end_point(outline, routine, end),
        Statement::Attach {
            own,
            child,
            point,
            ..
        } => {
            access(outline, routine, own)
                && access(outline, routine, child)
                && exprs(outline, routine, point.index.as_slice())
        }
        Statement::Detach { end, .. } => end_point(outline, routine, end),
        _ => true,
    }
}

// Whether the routine may name what a statement looks up that has no statement in it.
fn plain(outline: &Outline, routine: u32, one: &Statement) -> bool
    ensures { result ≡ all_free outline.now routine (plain_names one.now) }
{
    match one {
        Statement::Assign {
            target,
            path,
            value,
            ..
        } => {
            is_free(outline, routine, target)
                && selectors(outline, routine, path.as_slice())
                && expr(outline, routine, value.get())
        }
        Statement::Call {
            name,
            arguments,
            ..
        } => is_free(outline, routine, name) && exprs(outline, routine, arguments.as_slice()),
        Statement::Output { sendings: list, .. } => sendings(outline, routine, list.as_slice()),
        Statement::Init {
            target,
            body,
            arguments,
            ..
        } => {
            access(outline, routine, target)
                && is_free(outline, routine, body)
                && exprs(outline, routine, arguments.as_slice())
        }
        Statement::Release { target, .. } => access(outline, routine, target),
        _ => link(outline, routine, one),
    }
}

/// Whether the routine may name what a statement looks up.
#[cycle(statement)]
pub fn statement(outline: &Outline, routine: u32, one: &Statement) -> bool
    ensures { result ≡ all_free outline.now routine (statement_names one.now) }
{
    match one {
        Statement::Compound { turn, .. } => statements(outline, routine, turn.as_slice()),
        Statement::If {
            condition,
            first,
            second,
            ..
        } => {
            if_statement(outline, routine, first.get(), condition.get())
                && else_part(outline, routine, second)
        }
        Statement::Case {
            value,
            arms: list,
            ..
        } => case_statement(outline, routine, list.as_slice(), value.get()),
        Statement::While {
            condition,
            turn,
            ..
        } => while_statement(outline, routine, turn.get(), condition.get()),
        Statement::Repeat { turn, until, .. } => {
            repeat_statement(outline, routine, turn.as_slice(), until.get())
        }
        Statement::For {
            name,
            first,
            last,
            turn,
            ..
        } => for_statement(outline, routine, turn.get(), name, first.get(), last.get()),
        Statement::All { over, turn, .. } => all_statement(
            outline,
            routine,
            turn.get(),
            over.get(),
        ),
        _ => plain(outline, routine, one),
    }
}

// Whether the routine may name what the condition of an `if` and the statement under it look up.
#[cycle(statement)]
fn if_statement(outline: &Outline, routine: u32, first: &Statement, condition: &Expr) -> bool
    ensures { result ≡ all_free outline.now routine
        (expr_names condition.now ++ statement_names first.now) }
{
    expr(outline, routine, condition) && statement(outline, routine, first)
}

// Whether the routine may name what the other statement of an `if` looks up, where there is one.
#[cycle(statement)]
fn else_part(outline: &Outline, routine: u32, turn: &Option<Boxed<Statement>>) -> bool
    ensures { result ≡ all_free outline.now routine (option_statement_names turn.now) }
{
    match turn {
        None => true,
        Some(turn) => statement(outline, routine, turn.get()),
    }
}

// Whether the routine may name what a `case` looks up: its value and its choices.
#[cycle(statement)]
fn case_statement(outline: &Outline, routine: u32, list: &[Arm], value: &Expr) -> bool
    ensures { result ≡ all_free outline.now routine
        (expr_names value.now ++ arms_names list.now) }
{
    expr(outline, routine, value) && arms(outline, routine, list)
}

// Whether the routine may name what a `while` looks up: its condition and its statement.
#[cycle(statement)]
fn while_statement(outline: &Outline, routine: u32, turn: &Statement, condition: &Expr) -> bool
    ensures { result ≡ all_free outline.now routine
        (expr_names condition.now ++ statement_names turn.now) }
{
    expr(outline, routine, condition) && statement(outline, routine, turn)
}

// Whether the routine may name what a `repeat` looks up: its statements and its condition.
#[cycle(statement)]
fn repeat_statement(outline: &Outline, routine: u32, turn: &[Statement], until: &Expr) -> bool
    ensures { result ≡ all_free outline.now routine
        (statements_names turn.now ++ expr_names until.now) }
{
    statements(outline, routine, turn) && expr(outline, routine, until)
}

// Whether the routine may name what a `for` looks up: its variable, its first and last value, and
// its statement.
#[cycle(statement)]
fn for_statement(
    outline: &Outline,
    routine: u32,
    turn: &Statement,
    name: &Used,
    first: &Expr,
    last: &Expr,
) -> bool
    ensures { result ≡ all_free outline.now routine (name.now ∷ expr_names first.now
        ++ expr_names last.now ++ statement_names turn.now) }
{
    is_free(outline, routine, name)
        && expr(outline, routine, first)
        && expr(outline, routine, last)
        && statement(outline, routine, turn)
}

// Whether the routine may name what an `all` looks up: its type or header, and its statement.
#[cycle(statement)]
fn all_statement(outline: &Outline, routine: u32, turn: &Statement, over: &TypeText) -> bool
    ensures { result ≡ all_free outline.now routine
        (text_names over.now ++ statement_names turn.now) }
{
    type_text(outline, routine, over) && statement(outline, routine, turn)
}

/// Whether the routine may name what statements look up.
#[cycle(statement)]
pub fn statements(outline: &Outline, routine: u32, statements: &[Statement]) -> bool
    ensures { result ≡ all_free outline.now routine (statements_names statements.now) }
{
    for one in statements {
        if !statement(outline, routine, one) {
            return false;
        }
    }
    true
}

// Whether the routine may name what a choice of a `case` looks up.
#[cycle(statement)]
fn arm(outline: &Outline, routine: u32, arm: &Arm) -> bool
    ensures { result ≡ all_free outline.now routine (arm_names arm.now) }
{
    constants(outline, routine, arm.constants.as_slice()) && statement(outline, routine, &arm.turn)
}

// Whether the routine may name what the choices of a `case` look up.
#[cycle(statement)]
fn arms(outline: &Outline, routine: u32, arms: &[Arm]) -> bool
    ensures { result ≡ all_free outline.now routine (arms_names arms.now) }
{
    for one in arms {
        if !arm(outline, routine, one) {
            return false;
        }
    }
    true
}
