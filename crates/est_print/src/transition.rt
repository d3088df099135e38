//! Transitions (ISO 9074, transition-declaration).

ghost use Rattle.std.specs.Prelude.{map};
ghost use Rattle.text_reader.specs.Grammar.{rule, rep};
ghost use Rattle.text_reader.specs.Shown.{node, nodes, pair, first, second, given, empty};
ghost use Rattle.text_reader.specs.Going.{used};
ghost use Rattle.text_productions.specs.Productions as grammar;
ghost use Rattle.text_productions.specs.Nodes as view;
ghost use Rattle.text_printer.specs.Printing.{Prints};
ghost use Rattle.text_printer.specs.PlainNodes.{estelle};

use crate::block::block;
use est_lexer::kind::{ReservedWord, Symbol};
use est_syntax::constant::Constant;
use est_syntax::expression::{Access, Expr};
use est_syntax::name::{Used, UsedNames};
use est_syntax::transition::{Clause, Clauses, Group, Most, Transition, Transitions};
use est_syntax::type_text::VarDefs;
use text_printer::Printer;
use text_printer::access::access;
use text_printer::constant::constant;
use text_printer::declaration::params;
use text_printer::expression::expr;
use text_printer::names::idents;

/// transpart = "trans" transition { transition } .
pub fn transpart(printer: &mut Printer, group: &Group)
    ensures { Prints estelle (rule grammar.transpart) (node (view.a_group group.now))
        printer.old printer.new }
{
    printer.word(ReservedWord::Trans);
    transitions(printer, &group.transitions);
}

// transition { transition }
fn transitions(printer: &mut Printer, items: &Transitions)
    ensures { Prints estelle (grammar.several (rule grammar.transition))
        (nodes (map view.a_transition items.now)) printer.old printer.new }
{
    for next in items.as_slice() {
        transition(printer, next);
    }
}

// transition = { clause } [ "name" ident ":" ] block ";" .
fn transition(printer: &mut Printer, declared: &Transition)
    ensures { Prints estelle (rule grammar.transition) (node (view.a_transition declared.now))
        printer.old printer.new }
{
    clauses(printer, &declared.clauses);
    transition_name(printer, &declared.name);
    block(printer, &declared.block);
    printer.symbol(Symbol::Semicolon);
}

// [ "name" ident ":" ]
fn transition_name(printer: &mut Printer, given: &Option<Used>)
    ensures { Prints estelle grammar.transition_name (view.transition_name given.now)
        printer.old printer.new }
{
    match given {
        None => {}
        Some(name) => {
            printer.word(ReservedWord::Name);
            printer.name(name);
            printer.symbol(Symbol::Colon);
        }
    }
}

// { clause }
fn clauses(printer: &mut Printer, items: &Clauses)
    ensures { Prints estelle (rep (rule grammar.clause))
        (nodes (map view.a_clause items.now)) printer.old printer.new }
{
    for next in items.as_slice() {
        clause(printer, next);
    }
}

// clause = "from" idents | "to" .. | "when" .. | "provided" .. | "any" .. | "priority" .. |
// "delay" .. .
fn clause(printer: &mut Printer, part: &Clause)
    ensures { Prints estelle (rule grammar.clause) (node (view.a_clause part.now))
        printer.old printer.new }
{
    match part {
        Clause::From { states, .. } => from_clause(printer, states),
        Clause::To { state, .. } => to_clause(printer, state),
        Clause::When { at, signal, .. } => when_clause(printer, at, signal),
        Clause::Provided { condition, .. } => provided_clause(printer, condition.get()),
        Clause::Otherwise { .. } => otherwise_clause(printer),
        Clause::Any { names, .. } => any_clause(printer, names),
        Clause::Priority { value, .. } => priority_clause(printer, value),
        Clause::Delay { least, most, .. } => delay_clause(printer, least.get(), most),
    }
}

// "from" idents
fn from_clause(printer: &mut Printer, states: &UsedNames)
    ensures { Prints estelle grammar.from_clause (view.names states.now)
        printer.old printer.new }
{
    printer.word(ReservedWord::From);
    idents(printer, states);
}

// "to" ( ident | "same" )
fn to_clause(printer: &mut Printer, state: &Option<Used>)
    ensures { Prints estelle grammar.to_clause (view.next_state state.now)
        printer.old printer.new }
{
    printer.word(ReservedWord::To);
    next_state(printer, state);
}

// "when" access "." ident
fn when_clause(printer: &mut Printer, point: &Access, signal: &Used)
    ensures { Prints estelle grammar.when_clause
        (pair (node (view.an_access point.now)) (used signal.now)) printer.old printer.new }
{
    printer.word(ReservedWord::When);
    access(printer, point);
    printer.symbol(Symbol::Period);
    printer.name(signal);
}

// "provided" expr
fn provided_clause(printer: &mut Printer, condition: &Expr)
    ensures { Prints estelle grammar.provided_clause (first (node (view.an_expr condition.now)))
        printer.old printer.new }
{
    printer.word(ReservedWord::Provided);
    expr(printer, condition);
}

// "provided" "otherwise"
fn otherwise_clause(printer: &mut Printer)
    ensures { Prints estelle grammar.provided_clause (second empty) printer.old printer.new }
{
    printer.word(ReservedWord::Provided);
    printer.word(ReservedWord::Otherwise);
}

// "any" params "do"
fn any_clause(printer: &mut Printer, names: &VarDefs)
    ensures { Prints estelle grammar.any_clause
        (pair (nodes (map view.a_parameter names.now)) empty) printer.old printer.new }
{
    printer.word(ReservedWord::Any);
    params(printer, names);
    printer.word(ReservedWord::Do);
}

// "priority" constant
fn priority_clause(printer: &mut Printer, value: &Constant)
    ensures { Prints estelle grammar.priority_clause (node (view.a_constant value.now))
        printer.old printer.new }
{
    printer.word(ReservedWord::Priority);
    constant(printer, value);
}

// ident | "same"
fn next_state(printer: &mut Printer, given: &Option<Used>)
    ensures { Prints estelle grammar.next_state (view.next_state given.now)
        printer.old printer.new }
{
    match given {
        Some(state) => printer.name(state),
        None => printer.word(ReservedWord::Same),
    }
}

// "delay" "(" expr [ "," ( expr | "*" ) ] ")"
fn delay_clause(printer: &mut Printer, least: &Expr, most: &Most)
    ensures { Prints estelle grammar.delay_clause (pair (node (view.an_expr least.now)) (pair
        (view.most most.now) empty))
        printer.old printer.new }
{
    printer.word(ReservedWord::Delay);
    printer.symbol(Symbol::LeftParenthesis);
    expr(printer, least);
    later_bound(printer, most);
    printer.symbol(Symbol::RightParenthesis);
}

// [ "," ( expr | "*" ) ]
fn later_bound(printer: &mut Printer, most: &Most)
    ensures { Prints estelle grammar.later_bound (view.most most.now)
        printer.old printer.new }
{
    match most {
        Most::Same => {}
        Most::Value(bound) => value_bound(printer, bound.get()),
        Most::Never => no_bound(printer),
    }
}

// "," expr
fn value_bound(printer: &mut Printer, bound: &Expr)
    ensures { Prints estelle grammar.later_bound (given (first (node (view.an_expr bound.now))))
        printer.old printer.new }
{
    printer.symbol(Symbol::Comma);
    expr(printer, bound);
}

// "," "*"
fn no_bound(printer: &mut Printer)
    ensures { Prints estelle grammar.later_bound (given (second empty)) printer.old printer.new }
{
    printer.symbol(Symbol::Comma);
    printer.symbol(Symbol::Star);
}
