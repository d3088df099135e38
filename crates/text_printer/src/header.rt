//! Module headers, interaction points and module variables (ISO 9074).

ghost use Rattle.std.specs.Prelude.{map};
ghost use Rattle.text_reader.specs.Grammar.{rule, opt};
ghost use Rattle.text_reader.specs.Shown.{node, nodes, empty};
ghost use Rattle.text_productions.specs.Productions as grammar;
ghost use Rattle.text_productions.specs.Nodes as view;
ghost use Rattle.est_lexer.specs.declared.kind.ReservedWord.TheVariants as words;
ghost use Rattle.est_lexer.specs.declared.kind.TokenKind.TheVariants as token;
ghost use Rattle.text_printer.specs.Printing.{Prints};
ghost use Rattle.text_printer.specs.Turns.{Section, Turns};
ghost use Rattle.text_printer.specs.PlainNodes.{estelle};

use crate::declaration::parameters;
use crate::names::idents;
use crate::printer::Printer;
use crate::type_text::shorttype;
use est_lexer::kind::{ReservedWord, Symbol};
use est_syntax::header::{Header, ModvarDef, ModvarDefs, Point, Points, Queue};
use est_syntax::type_text::{TypeTexts, VarDef, VarDefs};

/// header = "module" ident attribute [ "(" params ")" ] ";" [ "ip" .. ] [ "export" .. ] "end" ";" .
pub fn header(printer: &mut Printer, declared: &Header)
    ensures { Prints estelle (rule grammar.header) (node (view.a_header declared.now))
        printer.old printer.new }
{
    printer.word(ReservedWord::Module);
    printer.name(&declared.name);
    attribute(printer, declared.system);
    parameters(printer, &declared.params);
    printer.symbol(Symbol::Semicolon);
    points_section(printer, &declared.points);
    exports_section(printer, &declared.exports);
    printer.word(ReservedWord::End);
    printer.symbol(Symbol::Semicolon);
}

// "systemactivity" | "activity"
fn attribute(printer: &mut Printer, system: bool)
    ensures { Prints estelle grammar.attribute (view.attribute system)
        printer.old printer.new }
{
    if system {
        printer.word(ReservedWord::Systemactivity);
    } else {
        printer.word(ReservedWord::Activity);
    }
}

// [ "ip" point { point } ], the points of a header
fn points_section(printer: &mut Printer, items: &Points)
    ensures { Section estelle (token.Reserved words.Ip) (rule grammar.point)
        (map view.a_point items.now) printer.old printer.new }
{
    if items.len() > 0 {
        printer.word(ReservedWord::Ip);
        several_points(printer, items);
    }
}

/// "ip" point { point }
pub fn points(printer: &mut Printer, items: &Points)
    ensures { Prints estelle grammar.points (nodes (map view.a_point items.now))
        printer.old printer.new }
{
    printer.word(ReservedWord::Ip);
    several_points(printer, items);
}

// point { point }
fn several_points(printer: &mut Printer, items: &Points)
    ensures { Turns estelle (rule grammar.point) (map view.a_point items.now)
        printer.old printer.new }
{
    for next in items.as_slice() {
        point(printer, next);
    }
}

// point = idents ":" [ dims ] ident "(" ident ")" [ queue ] ";" .
fn point(printer: &mut Printer, declared: &Point)
    ensures { Prints estelle (rule grammar.point) (node (view.a_point declared.now))
        printer.old printer.new }
{
    idents(printer, &declared.names);
    printer.symbol(Symbol::Colon);
    dimensions(printer, &declared.dims, declared.place);
    printer.name(&declared.channel);
    printer.symbol(Symbol::LeftParenthesis);
    printer.name(&declared.role);
    printer.symbol(Symbol::RightParenthesis);
    queue_given(printer, declared.queue);
    printer.symbol(Symbol::Semicolon);
}

// [ "array" "[" shorttype { "," shorttype } "]" "of" ]
fn dimensions(printer: &mut Printer, items: &TypeTexts, place: u32)
    ensures { Prints estelle grammar.dimensions (view.dimensions place items.now)
        printer.old printer.new }
{
    if items.len() > 0 {
        printer.word(ReservedWord::Array);
        printer.symbol(Symbol::LeftBracket);
        shorttypes(printer, items);
        printer.symbol(Symbol::RightBracket);
        printer.word(ReservedWord::Of);
    }
}

// shorttype { "," shorttype }
fn shorttypes(printer: &mut Printer, items: &TypeTexts)
    ensures { Prints estelle (grammar.listed (rule grammar.shorttype))
        (nodes (map view.a_short_type items.now)) printer.old printer.new }
{
    if let Some((first, rest)) = items.as_slice().split_first() {
        shorttype(printer, first);
        for next in rest {
            printer.symbol(Symbol::Comma);
            shorttype(printer, next);
        }
    }
}

// [ queue ]
fn queue_given(printer: &mut Printer, given: Option<Queue>)
    ensures { Prints estelle (opt (rule grammar.queue)) (view.queue_given given)
        printer.old printer.new }
{
    match given {
        None => {}
        Some(kind) => queue(printer, kind),
    }
}

/// queue = ( "individual" | "common" ) "queue" .
pub fn queue(printer: &mut Printer, kind: Queue)
    ensures { Prints estelle (rule grammar.queue) (view.queue kind)
        printer.old printer.new }
{
    match kind {
        Queue::Individual => individual_queue(printer),
        Queue::Common => common_queue(printer),
    }
}

// "individual" "queue"
fn individual_queue(printer: &mut Printer)
    ensures { Prints estelle (grammar.said words.Individual (grammar.only words.Queue)) empty
        printer.old printer.new }
{
    printer.word(ReservedWord::Individual);
    printer.word(ReservedWord::Queue);
}

// "common" "queue"
fn common_queue(printer: &mut Printer)
    ensures { Prints estelle (grammar.said words.Common (grammar.only words.Queue)) empty
        printer.old printer.new }
{
    printer.word(ReservedWord::Common);
    printer.word(ReservedWord::Queue);
}

// [ "export" export { export } ], the exports of a header
fn exports_section(printer: &mut Printer, items: &VarDefs)
    ensures { Section estelle (token.Reserved words.Export) (rule grammar.export)
        (map view.an_export items.now) printer.old printer.new }
{
    if items.len() > 0 {
        printer.word(ReservedWord::Export);
        several_exports(printer, items);
    }
}

// export { export }
fn several_exports(printer: &mut Printer, items: &VarDefs)
    ensures { Turns estelle (rule grammar.export) (map view.an_export items.now)
        printer.old printer.new }
{
    for next in items.as_slice() {
        export(printer, next);
    }
}

// export = idents ":" shorttype ";" .
fn export(printer: &mut Printer, declared: &VarDef)
    ensures { Prints estelle (rule grammar.export) (node (view.an_export declared.now))
        printer.old printer.new }
{
    idents(printer, &declared.names);
    printer.symbol(Symbol::Colon);
    shorttype(printer, &declared.text);
    printer.symbol(Symbol::Semicolon);
}

/// "modvar" modvar { modvar }
pub fn modvars(printer: &mut Printer, items: &ModvarDefs)
    ensures { Prints estelle grammar.modvars (nodes (map view.a_module_variable items.now))
        printer.old printer.new }
{
    printer.word(ReservedWord::Modvar);
    several_modvars(printer, items);
}

// modvar { modvar }
fn several_modvars(printer: &mut Printer, items: &ModvarDefs)
    ensures { Prints estelle (grammar.several (rule grammar.modvar))
        (nodes (map view.a_module_variable items.now)) printer.old printer.new }
{
    for next in items.as_slice() {
        modvar(printer, next);
    }
}

// modvar = idents ":" [ dims ] ident ";" .
fn modvar(printer: &mut Printer, declared: &ModvarDef)
    ensures { Prints estelle (rule grammar.modvar) (node (view.a_module_variable declared.now))
        printer.old printer.new }
{
    idents(printer, &declared.names);
    printer.symbol(Symbol::Colon);
    dimensions(printer, &declared.dims, declared.place);
    printer.name(&declared.header);
    printer.symbol(Symbol::Semicolon);
}
