//! Expressions (ISO 7185, 6.7).

ghost use Rattle.std.specs.Prelude.{map};
ghost use Rattle.text_reader.specs.Grammar.{rule, opt, rep, alt};
ghost use Rattle.text_reader.specs.Shown.{node, nodes, pair, empty};
ghost use Rattle.text_productions.specs.Productions as grammar;
ghost use Rattle.text_productions.specs.Nodes as view;
ghost use Rattle.text_printer.specs.Printing.{Prints};
ghost use Rattle.text_printer.specs.PlainNodes.{estelle};

use crate::constant::plus_or_minus;
use crate::operator::{adding_operator, multiplying_operator, relational_operator};
use crate::printer::Printer;
use est_lexer::kind::{ReservedWord, Symbol};
use est_syntax::constant::Sign;
use est_syntax::expression::{
    Expr, Exprs, Factor, Member, Members, ProductStep, ProductSteps, Relation, Selector, Selectors,
    Simple, SumStep, SumSteps, Term,
};

/// expr = simple [ relational_operator simple ] .
#[cycle(expr)]
pub fn expr(printer: &mut Printer, value: &Expr)
    ensures { Prints estelle (rule grammar.expr) (node (view.an_expr value.now))
        printer.old printer.new }
{
    simple(printer, &value.left);
    relation(printer, &value.relation);
}

// [ relational_operator simple ]
#[cycle(expr)]
fn relation(printer: &mut Printer, given: &Option<Relation>)
    ensures { Prints estelle grammar.relation (view.relation given.now)
        printer.old printer.new }
{
    match given {
        None => {}
        Some(relation) => {
            relational_operator(printer, relation.operator);
            simple(printer, &relation.right);
        }
    }
}

// simple = [ "+" | "-" ] term { adding_operator term } .
#[cycle(expr)]
fn simple(printer: &mut Printer, sum: &Simple)
    ensures { Prints estelle (rule grammar.simple) (node (view.a_simple sum.now))
        printer.old printer.new }
{
    sign_given(printer, sum.sign);
    term(printer, &sum.first);
    sum_steps(printer, &sum.rest);
}

// [ "+" | "-" ]
fn sign_given(printer: &mut Printer, sign: Option<Sign>)
    ensures { Prints estelle (opt grammar.plus_or_minus) (view.sign sign)
        printer.old printer.new }
{
    match sign {
        None => {}
        Some(sign) => plus_or_minus(printer, sign),
    }
}

// { adding_operator term }
#[cycle(expr)]
fn sum_steps(printer: &mut Printer, items: &SumSteps)
    ensures { Prints estelle (rep grammar.sum_step)
        (nodes (map view.a_sum_step items.now)) printer.old printer.new }
{
    for next in items.as_slice() {
        sum_step(printer, next);
    }
}

// adding_operator term
#[cycle(expr)]
fn sum_step(printer: &mut Printer, step: &SumStep)
    ensures { Prints estelle grammar.sum_step (node (view.a_sum_step step.now))
        printer.old printer.new }
{
    adding_operator(printer, step.operator);
    term(printer, &step.right);
}

// term = factor { multiplying_operator factor } .
#[cycle(expr)]
fn term(printer: &mut Printer, product: &Term)
    ensures { Prints estelle (rule grammar.term) (node (view.a_term product.now))
        printer.old printer.new }
{
    factor(printer, &product.first);
    product_steps(printer, &product.rest);
}

// { multiplying_operator factor }
#[cycle(expr)]
fn product_steps(printer: &mut Printer, items: &ProductSteps)
    ensures { Prints estelle (rep grammar.product_step)
        (nodes (map view.a_product_step items.now)) printer.old printer.new }
{
    for next in items.as_slice() {
        product_step(printer, next);
    }
}

// multiplying_operator factor
#[cycle(expr)]
fn product_step(printer: &mut Printer, step: &ProductStep)
    ensures { Prints estelle grammar.product_step (node (view.a_product_step step.now))
        printer.old printer.new }
{
    multiplying_operator(printer, step.operator);
    factor(printer, &step.right);
}

// factor = number | character | "(" expr ")" | "not" factor
//     | set | ident ( called | { selector } ) .
#[cycle(expr)]
fn factor(printer: &mut Printer, operand: &Factor)
    ensures { Prints estelle (rule grammar.factor) (node (view.a_factor operand.now))
        printer.old printer.new }
{
    match operand {
        Factor::Number { number, .. } => printer.number(*number),
        Factor::Character { code, .. } => printer.character(*code),
        Factor::Group { of, .. } => group(printer, of.get()),
        Factor::Not { of, .. } => {
            printer.word(ReservedWord::Not);
            factor(printer, of.get());
        }
        Factor::Set { members, .. } => set(printer, members),
        Factor::Variable { name, path, .. } => {
            printer.name(name);
            selectors_given(printer, path);
        }
        Factor::Call {
            name,
            arguments,
            ..
        } => {
            printer.name(name);
            called(printer, arguments);
        }
    }
}

// "(" expr ")"
#[cycle(expr)]
fn group(printer: &mut Printer, value: &Expr)
    ensures { Prints estelle grammar.group (pair (node (view.an_expr value.now)) empty)
        printer.old printer.new }
{
    printer.symbol(Symbol::LeftParenthesis);
    expr(printer, value);
    printer.symbol(Symbol::RightParenthesis);
}

// "[" [ member { "," member } ] "]"
#[cycle(expr)]
fn set(printer: &mut Printer, items: &Members)
    ensures { Prints estelle grammar.set (pair (view.members items.now) empty)
        printer.old printer.new }
{
    printer.symbol(Symbol::LeftBracket);
    members_given(printer, items);
    printer.symbol(Symbol::RightBracket);
}

// [ member { "," member } ]
#[cycle(expr)]
fn members_given(printer: &mut Printer, items: &Members)
    ensures { Prints estelle (opt (grammar.listed (rule grammar.member))) (view.members items.now)
        printer.old printer.new }
{
    if items.len() > 0 {
        members(printer, items);
    }
}

// member { "," member }
#[cycle(expr)]
fn members(printer: &mut Printer, items: &Members)
    ensures { Prints estelle (grammar.listed (rule grammar.member))
        (nodes (map view.a_member items.now)) printer.old printer.new }
{
    if let Some((first, rest)) = items.as_slice().split_first() {
        member(printer, first);
        for next in rest {
            printer.symbol(Symbol::Comma);
            member(printer, next);
        }
    }
}

// member = expr [ ".." expr ] .
#[cycle(expr)]
fn member(printer: &mut Printer, part: &Member)
    ensures { Prints estelle (rule grammar.member) (node (view.a_member part.now))
        printer.old printer.new }
{
    expr(printer, &part.low);
    later_end(printer, &part.high);
}

// [ ".." expr ]
#[cycle(expr)]
fn later_end(printer: &mut Printer, given: &Option<Expr>)
    ensures { Prints estelle grammar.later_end (view.expr_given given.now)
        printer.old printer.new }
{
    match given {
        None => {}
        Some(high) => {
            printer.symbol(Symbol::DoublePeriod);
            expr(printer, high);
        }
    }
}

// { selector }
#[cycle(expr)]
fn selectors_given(printer: &mut Printer, items: &Selectors)
    ensures { Prints estelle (opt (alt grammar.called (grammar.several (rule grammar.selector))))
        (view.selectors items.now)
        printer.old printer.new }
{
    if items.len() > 0 {
        selectors(printer, items);
    }
}

/// selector { selector }
#[cycle(expr)]
pub fn selectors(printer: &mut Printer, items: &Selectors)
    ensures { Prints estelle (grammar.several (rule grammar.selector))
        (nodes (map view.a_selector items.now)) printer.old printer.new }
{
    for next in items.as_slice() {
        selector(printer, next);
    }
}

// selector = "." ident | "[" exprs "]" .
#[cycle(expr)]
fn selector(printer: &mut Printer, part: &Selector)
    ensures { Prints estelle (rule grammar.selector) (node (view.a_selector part.now))
        printer.old printer.new }
{
    match part {
        Selector::Field(name) => {
            printer.symbol(Symbol::Period);
            printer.name(name);
        }
        Selector::Index { exprs, .. } => subscripts(printer, exprs),
    }
}

/// "(" exprs ")"
#[cycle(expr)]
pub fn called(printer: &mut Printer, items: &Exprs)
    ensures { Prints estelle grammar.called (pair (nodes (map view.an_expr items.now)) empty)
        printer.old printer.new }
{
    printer.symbol(Symbol::LeftParenthesis);
    exprs(printer, items);
    printer.symbol(Symbol::RightParenthesis);
}

/// "[" exprs "]"
#[cycle(expr)]
pub fn subscripts(printer: &mut Printer, items: &Exprs)
    ensures { Prints estelle grammar.subscripts (pair (nodes (map view.an_expr items.now)) empty)
        printer.old printer.new }
{
    printer.symbol(Symbol::LeftBracket);
    exprs(printer, items);
    printer.symbol(Symbol::RightBracket);
}

/// exprs = expr { "," expr } .
#[cycle(expr)]
pub fn exprs(printer: &mut Printer, items: &Exprs)
    ensures { Prints estelle grammar.exprs
        (nodes (map view.an_expr items.now)) printer.old printer.new }
{
    if let Some((first, rest)) = items.as_slice().split_first() {
        expr(printer, first);
        for next in rest {
            printer.symbol(Symbol::Comma);
            expr(printer, next);
        }
    }
}
