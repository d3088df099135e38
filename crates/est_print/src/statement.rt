//! Statements (ISO 7185, 6.8).

ghost use Rattle.std.specs.Prelude.{map};
ghost use Rattle.text_reader.specs.Grammar.{rule};
ghost use Rattle.text_reader.specs.Shown.{node, nodes, pair, given, first, empty};
ghost use Rattle.text_reader.specs.Going.{used};
ghost use Rattle.est_syntax.specs.declared.statement.Statement.{out-Statement};
ghost use Rattle.text_productions.specs.Productions as grammar;
ghost use Rattle.text_productions.specs.Nodes as view;
ghost use Rattle.text_printer.specs.Printing.{Prints, PrintsElse, PrintsClosed};
ghost use Rattle.text_printer.specs.PlainNodes.{estelle};
ghost use Rattle.est_print.specs.inside.StatementKinds.{IsIf, IsLoop};

use crate::estelle_statement::estelle_statement;
use est_lexer::kind::{ReservedWord, Symbol};
use est_syntax::constant::Constants;
use est_syntax::est_items::Boxed;
use est_syntax::expression::{Expr, Exprs, Selectors};
use est_syntax::name::Used;
use est_syntax::statement::{Arm, Arms, Statement, Statements};
use est_syntax::type_text::TypeText;
use text_printer::Printer;
use text_printer::constant::constant;
use text_printer::expression::{called, expr, selectors};
use text_printer::type_text::shorttype;

/// statements = statement { ";" statement } .
#[cycle(statement)]
pub fn statements(printer: &mut Printer, items: &Statements)
    ensures { Prints estelle grammar.statements
        (nodes (map view.a_statement items.now)) printer.old printer.new }
{
    if let Some((first, rest)) = items.as_slice().split_first() {
        statement(printer, first);
        for next in rest {
            printer.symbol(Symbol::Semicolon);
            statement(printer, next);
        }
    }
}

/// A statement; an empty one prints nothing.
#[cycle(statement)]
pub fn statement(printer: &mut Printer, done: &Statement)
    ensures { Prints estelle (rule grammar.statement) (node (view.a_statement done.now))
        printer.old printer.new }
{
    match done {
        Statement::Empty { .. } => {}
        Statement::Compound { turn, .. } => compound(printer, turn),
        Statement::Assign {
            target,
            path,
            value,
            ..
        } => assignment(printer, target, path, value.get()),
        Statement::Call {
            name,
            arguments,
            ..
        } => call(printer, name, arguments),
        Statement::If { .. } => if_statement(printer, done),
        Statement::Case { value, arms, .. } => case_statement(printer, arms, value.get()),
        Statement::While { .. } => loop_statement(printer, done),
        Statement::Repeat { .. } => loop_statement(printer, done),
        Statement::For { .. } => loop_statement(printer, done),
        Statement::All { .. } => loop_statement(printer, done),
        Statement::Output { .. } => estelle_statement(printer, done),
        Statement::Init { .. } => estelle_statement(printer, done),
        Statement::Release { .. } => estelle_statement(printer, done),
        Statement::Connect { .. } => estelle_statement(printer, done),
        Statement::Disconnect { .. } => estelle_statement(printer, done),
        Statement::Attach { .. } => estelle_statement(printer, done),
        Statement::Detach { .. } => estelle_statement(printer, done),
    }
}

// "while" .. | "repeat" .. | "for" .. | "all" ..
#[cycle(statement)]
fn loop_statement(printer: &mut Printer, done: &Statement)
    ensures { IsLoop (out-Statement done.now) → Prints estelle (rule grammar.statement)
        (node (view.a_statement done.now)) printer.old printer.new }
{
    match done {
        Statement::While {
            condition,
            turn,
            ..
        } => while_statement(printer, turn.get(), condition.get()),
        Statement::Repeat { turn, until, .. } => repeat_statement(printer, turn, until.get()),
        Statement::For {
            name,
            first,
            down,
            last,
            turn,
            ..
        } => for_statement(printer, turn.get(), name, first.get(), *down, last.get()),
        Statement::All {
            name,
            over,
            turn,
            ..
        } => all_statement(printer, turn.get(), name, over.get()),
        _ => {}
    }
}

// "begin" statements "end"
#[cycle(statement)]
fn compound(printer: &mut Printer, turn: &Statements)
    ensures { Prints estelle grammar.compound (pair (nodes (map view.a_statement turn.now)) empty)
        printer.old printer.new }
{
    printer.word(ReservedWord::Begin);
    statements(printer, turn);
    printer.word(ReservedWord::End);
}

// ident { selector } ":=" expr
fn assignment(printer: &mut Printer, target: &Used, path: &Selectors, value: &Expr)
    ensures { Prints estelle grammar.assignment_or_call (pair (used target.now) (given (first (pair
        (view.path path.now) (node (view.an_expr value.now))))))
        printer.old printer.new }
{
    printer.name(target);
    path_given(printer, path);
    printer.symbol(Symbol::Assign);
    expr(printer, value);
}

// { selector }
fn path_given(printer: &mut Printer, items: &Selectors)
    ensures { Prints estelle grammar.path (view.path items.now)
        printer.old printer.new }
{
    if items.len() > 0 {
        selectors(printer, items);
    }
}

// ident [ "(" exprs ")" ]
fn call(printer: &mut Printer, name: &Used, arguments: &Exprs)
    ensures { Prints estelle grammar.assignment_or_call (pair (used name.now) (view.call
        arguments.now))
        printer.old printer.new }
{
    printer.name(name);
    if arguments.len() > 0 {
        called(printer, arguments);
    }
}

// "if" expr "then" statement [ "else" statement ]
#[cycle(statement)]
fn if_statement(printer: &mut Printer, done: &Statement)
    ensures { IsIf (out-Statement done.now) → Prints estelle (rule grammar.statement)
        (node (view.a_statement done.now)) printer.old printer.new }
{
    if let Statement::If {
        condition,
        first,
        second,
        ..
    } = done
    {
        printer.word(ReservedWord::If);
        expr(printer, condition.get());
        printer.word(ReservedWord::Then);
        statement(printer, first.get());
        else_part(printer, second);
    }
}

// [ "else" statement ]
#[cycle(statement)]
fn else_part(printer: &mut Printer, other: &Option<Boxed<Statement>>)
    ensures { PrintsElse estelle grammar.else_part (view.else_part other.now)
        (view.else_part other.now) printer.old printer.new }
{
    match other {
        None => {}
        Some(other) => {
            printer.word(ReservedWord::Else);
            statement(printer, other.get());
        }
    }
}

// "case" expr "of" arm { ";" arm } "end"
#[cycle(statement)]
fn case_statement(printer: &mut Printer, items: &Arms, value: &Expr)
    ensures { Prints estelle grammar.case_statement (pair (node (view.an_expr value.now)) (pair
        (nodes (map view.an_arm items.now)) empty))
        printer.old printer.new }
{
    printer.word(ReservedWord::Case);
    expr(printer, value);
    printer.word(ReservedWord::Of);
    arms(printer, items);
    printer.word(ReservedWord::End);
}

// arm { ";" arm }
#[cycle(statement)]
fn arms(printer: &mut Printer, items: &Arms)
    ensures { PrintsClosed estelle grammar.arms (nodes (map view.an_arm items.now))
        (nodes (map view.an_arm items.now)) printer.old printer.new }
{
    if let Some((first, rest)) = items.as_slice().split_first() {
        arm(printer, first);
        for next in rest {
            printer.symbol(Symbol::Semicolon);
            arm(printer, next);
        }
    }
}

// arm = constant { "," constant } ":" statement .
#[cycle(statement)]
fn arm(printer: &mut Printer, choice: &Arm)
    ensures { Prints estelle (rule grammar.arm) (node (view.an_arm choice.now))
        printer.old printer.new }
{
    constants(printer, &choice.constants);
    printer.symbol(Symbol::Colon);
    statement(printer, &choice.turn);
}

// constant { "," constant }
fn constants(printer: &mut Printer, items: &Constants)
    ensures { Prints estelle (grammar.listed (rule grammar.constant))
        (nodes (map view.a_constant items.now)) printer.old printer.new }
{
    if let Some((first, rest)) = items.as_slice().split_first() {
        constant(printer, first);
        for next in rest {
            printer.symbol(Symbol::Comma);
            constant(printer, next);
        }
    }
}

// "while" expr "do" statement
#[cycle(statement)]
fn while_statement(printer: &mut Printer, turn: &Statement, condition: &Expr)
    ensures { Prints estelle grammar.while_statement (pair (node (view.an_expr condition.now))
        (node (view.a_statement turn.now)))
        printer.old printer.new }
{
    printer.word(ReservedWord::While);
    expr(printer, condition);
    printer.word(ReservedWord::Do);
    statement(printer, turn);
}

// "repeat" statements "until" expr
#[cycle(statement)]
fn repeat_statement(printer: &mut Printer, turn: &Statements, until: &Expr)
    ensures { Prints estelle grammar.repeat_statement (pair (nodes (map view.a_statement turn.now))
        (node (view.an_expr until.now)))
        printer.old printer.new }
{
    printer.word(ReservedWord::Repeat);
    statements(printer, turn);
    printer.word(ReservedWord::Until);
    expr(printer, until);
}

// "for" ident ":=" expr ( "to" | "downto" ) expr "do" statement
#[cycle(statement)]
fn for_statement(
    printer: &mut Printer,
    turn: &Statement,
    name: &Used,
    from: &Expr,
    down: bool,
    to: &Expr,
)
    ensures { Prints estelle grammar.for_statement (pair (used name.now) (pair (node (view.an_expr
        from.now)) (pair (view.direction down) (pair (node (view.an_expr to.now)) (node
        (view.a_statement turn.now))))))
        printer.old printer.new }
{
    printer.word(ReservedWord::For);
    printer.name(name);
    printer.symbol(Symbol::Assign);
    expr(printer, from);
    direction(printer, down);
    expr(printer, to);
    printer.word(ReservedWord::Do);
    statement(printer, turn);
}

// "to" | "downto"
fn direction(printer: &mut Printer, down: bool)
    ensures { Prints estelle grammar.direction (view.direction down)
        printer.old printer.new }
{
    if down {
        printer.word(ReservedWord::Downto);
    } else {
        printer.word(ReservedWord::To);
    }
}

// "all" ident ":" shorttype "do" statement
#[cycle(statement)]
fn all_statement(printer: &mut Printer, turn: &Statement, name: &Used, over: &TypeText)
    ensures { Prints estelle grammar.all_statement (pair (used name.now) (pair (node
        (view.a_short_type over.now)) (node (view.a_statement turn.now))))
        printer.old printer.new }
{
    printer.word(ReservedWord::All);
    printer.name(name);
    printer.symbol(Symbol::Colon);
    shorttype(printer, over);
    printer.word(ReservedWord::Do);
    statement(printer, turn);
}
