//! The statements that only Estelle knows (ISO 9074).

ghost use Rattle.std.specs.Prelude.{map};
ghost use Rattle.text_reader.specs.Grammar.{rule};
ghost use Rattle.text_reader.specs.Shown.{node, nodes, pair};
ghost use Rattle.est_syntax.specs.declared.statement.Statement.{out-Statement};
ghost use Rattle.text_productions.specs.Productions as grammar;
ghost use Rattle.text_productions.specs.Nodes as view;
ghost use Rattle.text_printer.specs.Printing.{Prints};
ghost use Rattle.text_printer.specs.PlainNodes.{estelle};
ghost use Rattle.est_print.specs.inside.StatementKinds.{IsEstelle};

use est_lexer::kind::{ReservedWord, Symbol};
use est_syntax::expression::{Access, EndPoint, Exprs};
use est_syntax::name::Used;
use est_syntax::statement::{Sending, Sendings, Statement};
use text_printer::Printer;
use text_printer::access::{access, arguments, end_point};

/// A statement that only Estelle knows.
pub fn estelle_statement(printer: &mut Printer, done: &Statement)
    requires { IsEstelle (out-Statement done.now) }
    ensures { Prints estelle (rule grammar.statement) (node (view.a_statement done.now))
        printer.old printer.new }
{
    match done {
        Statement::Output { sendings, .. } => output_statement(printer, sendings),
        Statement::Init {
            target,
            body,
            arguments,
            ..
        } => init(printer, target, body, arguments),
        Statement::Release { target, .. } => release_statement(printer, target),
        Statement::Connect { one, other, .. } => connect_statement(printer, one, other),
        Statement::Disconnect { end, .. } => disconnect_statement(printer, end),
        Statement::Attach {
            own,
            child,
            point,
            ..
        } => attach_statement(printer, own, child, point),
        Statement::Detach { end, .. } => detach_statement(printer, end),
        _ => {}
    }
}

// "release" access
fn release_statement(printer: &mut Printer, target: &Access)
    ensures { Prints estelle grammar.release_statement (node (view.an_access target.now))
        printer.old printer.new }
{
    printer.word(ReservedWord::Release);
    access(printer, target);
}

// "disconnect" end_point
fn disconnect_statement(printer: &mut Printer, end: &EndPoint)
    ensures { Prints estelle grammar.disconnect_statement (node (view.an_end_point end.now))
        printer.old printer.new }
{
    printer.word(ReservedWord::Disconnect);
    end_point(printer, end);
}

// "detach" end_point
fn detach_statement(printer: &mut Printer, end: &EndPoint)
    ensures { Prints estelle grammar.detach_statement (node (view.an_end_point end.now))
        printer.old printer.new }
{
    printer.word(ReservedWord::Detach);
    end_point(printer, end);
}

// "output" sending { "," sending }
fn output_statement(printer: &mut Printer, items: &Sendings)
    ensures { Prints estelle grammar.output_statement (nodes (map view.a_sending items.now))
        printer.old printer.new }
{
    printer.word(ReservedWord::Output);
    sendings(printer, items);
}

// sending { "," sending }
fn sendings(printer: &mut Printer, items: &Sendings)
    ensures { Prints estelle (grammar.listed (rule grammar.sending))
        (nodes (map view.a_sending items.now)) printer.old printer.new }
{
    if let Some((first, rest)) = items.as_slice().split_first() {
        sending(printer, first);
        for next in rest {
            printer.symbol(Symbol::Comma);
            sending(printer, next);
        }
    }
}

// sending = access "." ident [ "(" exprs ")" ] .
fn sending(printer: &mut Printer, sent: &Sending)
    ensures { Prints estelle (rule grammar.sending) (node (view.a_sending sent.now))
        printer.old printer.new }
{
    access(printer, &sent.at);
    printer.symbol(Symbol::Period);
    printer.name(&sent.signal);
    arguments(printer, &sent.arguments);
}

/// init = "init" access "with" ident [ "(" exprs ")" ] .
pub fn init(printer: &mut Printer, target: &Access, body: &Used, items: &Exprs)
    ensures { Prints estelle (rule grammar.init) (view.init target.now body.now items.now)
        printer.old printer.new }
{
    printer.word(ReservedWord::Init);
    access(printer, target);
    printer.word(ReservedWord::With);
    printer.name(body);
    arguments(printer, items);
}

// "connect" end_point "to" end_point
fn connect_statement(printer: &mut Printer, one: &EndPoint, other: &EndPoint)
    ensures { Prints estelle grammar.connect_statement (pair (node (view.an_end_point one.now))
        (node (view.an_end_point other.now)))
        printer.old printer.new }
{
    printer.word(ReservedWord::Connect);
    end_point(printer, one);
    printer.word(ReservedWord::To);
    end_point(printer, other);
}

// "attach" access "to" access "." access
fn attach_statement(printer: &mut Printer, own: &Access, child: &Access, point: &Access)
    ensures { Prints estelle grammar.attach_statement (pair (node (view.an_access own.now)) (pair
        (node (view.an_access child.now)) (node (view.an_access point.now))))
        printer.old printer.new }
{
    printer.word(ReservedWord::Attach);
    access(printer, own);
    printer.word(ReservedWord::To);
    access(printer, child);
    printer.symbol(Symbol::Period);
    access(printer, point);
}
