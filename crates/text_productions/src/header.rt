//! Module headers, interaction points and module variables (ISO 9074, module-header-definition).

ghost use Rattle.std.specs.Prelude.{◌≡◌, map};
ghost use Rattle.text_reader.specs.Grammar.{rule, rep, alt, opt};
ghost use Rattle.text_reader.specs.Shown.{node, nodes, pair, empty, sections};
ghost use Rattle.text_reader.specs.Going.{Goes, Adds};
ghost use Rattle.text_productions.specs.Productions as grammar;
ghost use Rattle.text_productions.specs.Nodes as view;
ghost use Rattle.text_productions.specs.inside.Structures.{declared_place};
ghost use Rattle.text_productions.specs.Syntax.{estelle};

use crate::declaration::parameters;
use crate::names::idents;
use crate::type_text::shorttype;
use est_lexer::kind::{ReservedWord, Symbol, TokenKind};
use est_syntax::header::{Header, ModvarDef, ModvarDefs, Point, Points, Queue};
use est_syntax::type_text::{TypeTexts, VarDef, VarDefs};
use text_reader::Reader;

/// header = "module" ident ( "systemactivity" | "activity" ) [ "(" params ")" ] ";"
///     { "ip" point { point } | "export" export { export } } "end" ";" .
pub fn header(reader: &mut Reader) -> Header
    ensures { Goes estelle (rule grammar.header) reader.old
        (node (view.a_header result)) reader.new }
{
    reader.word(ReservedWord::Module);
    let name = reader.name();
    let system = attribute(reader);
    let params = parameters(reader);
    reader.symbol(Symbol::Semicolon);
    let (points, exports) = sections(reader);
    reader.word(ReservedWord::End);
    reader.symbol(Symbol::Semicolon);
    Header {
        name,
        system,
        params,
        points,
        exports,
    }
}

// "systemactivity" | "activity"
fn attribute(reader: &mut Reader) -> bool
    ensures { Goes estelle grammar.attribute reader.old (view.attribute result) reader.new }
{
    if reader.sees(TokenKind::Reserved(ReservedWord::Activity)) {
        reader.word(ReservedWord::Activity);
        return false;
    }
    reader.word(ReservedWord::Systemactivity);
    true
}

// { "ip" point { point } | "export" export { export } }
fn sections(reader: &mut Reader) -> (Points, VarDefs)
    ensures { Goes estelle (rep (alt grammar.points grammar.exports)) reader.old
        (sections nodes nodes (map view.a_point result.0) (map view.an_export result.1))
        reader.new }
{
    let mut points = Points::new(reader.alloc);
    let mut exports = VarDefs::new(reader.alloc);
    loop {
        if reader.sees(TokenKind::Reserved(ReservedWord::Ip)) {
            points_section(reader, &mut points);
        } else if reader.sees(TokenKind::Reserved(ReservedWord::Export)) {
            exports_section(reader, &mut exports);
        } else {
            return (points, exports);
        }
    }
}

// "ip" point { point }, put last
fn points_section(reader: &mut Reader, items: &mut Points)
    ensures { Adds estelle grammar.points nodes view.a_point reader.old items.old items.new
        reader.new }
{
    reader.word(ReservedWord::Ip);
    more_points(reader, items);
}

// point { point }, put last
fn more_points(reader: &mut Reader, items: &mut Points)
    ensures { Adds estelle (grammar.several (rule grammar.point)) nodes view.a_point reader.old
        items.old items.new reader.new }
{
    let first = point(reader);
    reader.keep(items, first);
    while reader.sees(TokenKind::Identifier) {
        let next = point(reader);
        reader.keep(items, next);
    }
}

// "export" export { export }, put last
fn exports_section(reader: &mut Reader, items: &mut VarDefs)
    ensures { Adds estelle grammar.exports nodes view.an_export reader.old items.old items.new
        reader.new }
{
    reader.word(ReservedWord::Export);
    more_exports(reader, items);
}

// export { export }, put last
fn more_exports(reader: &mut Reader, items: &mut VarDefs)
    ensures { Adds estelle (grammar.several (rule grammar.export)) nodes view.an_export reader.old
        items.old items.new reader.new }
{
    let first = export(reader);
    reader.keep(items, first);
    while reader.sees(TokenKind::Identifier) {
        let next = export(reader);
        reader.keep(items, next);
    }
}

// export = idents ":" shorttype ";" .
fn export(reader: &mut Reader) -> VarDef
    ensures { Goes estelle (rule grammar.export) reader.old
        (node (view.an_export result)) reader.new }
{
    let names = idents(reader);
    reader.symbol(Symbol::Colon);
    let text = shorttype(reader);
    reader.symbol(Symbol::Semicolon);
    VarDef { names, text }
}

/// "ip" point { point }
pub fn points(reader: &mut Reader) -> Points
    ensures { Goes estelle grammar.points reader.old
        (nodes (map view.a_point result)) reader.new }
{
    let mut items = Points::new(reader.alloc);
    points_section(reader, &mut items);
    items
}

// point = idents ":" [ dims ] ident "(" ident ")" [ queue ] ";" .
fn point(reader: &mut Reader) -> Point
    ensures { Goes estelle (rule grammar.point) reader.old
        (node (view.a_point result)) reader.new }
{
    let first = reader.at;
    let names = idents(reader);
    reader.symbol(Symbol::Colon);
    let at = reader.at;
    let dims = dimensions(reader);
    let channel = reader.name();
    reader.symbol(Symbol::LeftParenthesis);
    let role = reader.name();
    reader.symbol(Symbol::RightParenthesis);
    let queue = queue_given(reader);
    reader.symbol(Symbol::Semicolon);
    let place = declared_at(&dims, first, at);
    Point {
        names,
        dims,
        channel,
        role,
        queue,
        place,
    }
}

// The place of a declaration: that of its dimensions, or of its first name where it has none.
fn declared_at(dims: &TypeTexts, first: u32, at: u32) -> u32
    ensures { result ≡ declared_place dims.now first at }
{
    if dims.len() == 0 { first } else { at }
}

// [ dims ]
fn dimensions(reader: &mut Reader) -> TypeTexts
    ensures { Goes estelle grammar.dimensions reader.old
        (view.dimensions reader.old.at result) reader.new }
{
    if reader.sees(TokenKind::Reserved(ReservedWord::Array)) {
        return dims(reader);
    }
    TypeTexts::new(reader.alloc)
}

// dims = "array" "[" shorttype { "," shorttype } "]" "of" .
fn dims(reader: &mut Reader) -> TypeTexts
    ensures { Goes estelle (rule grammar.dims) reader.old
        (pair (nodes (map view.a_short_type result)) empty) reader.new }
{
    reader.word(ReservedWord::Array);
    reader.symbol(Symbol::LeftBracket);
    let index = shorttypes(reader);
    reader.symbol(Symbol::RightBracket);
    reader.word(ReservedWord::Of);
    index
}

// shorttype { "," shorttype }
fn shorttypes(reader: &mut Reader) -> TypeTexts
    ensures { Goes estelle (grammar.listed (rule grammar.shorttype)) reader.old
        (nodes (map view.a_short_type result)) reader.new }
{
    let first = shorttype(reader);
    let mut items = TypeTexts::new(reader.alloc);
    reader.keep(&mut items, first);
    while reader.sees(TokenKind::Symbol(Symbol::Comma)) {
        reader.symbol(Symbol::Comma);
        let next = shorttype(reader);
        reader.keep(&mut items, next);
    }
    items
}

// [ queue ]
fn queue_given(reader: &mut Reader) -> Option<Queue>
    ensures { Goes estelle (opt (rule grammar.queue)) reader.old
        (view.queue_given result) reader.new }
{
    if reader.sees(TokenKind::Reserved(ReservedWord::Individual)) {
        return Some(queue(reader));
    }
    if reader.sees(TokenKind::Reserved(ReservedWord::Common)) {
        return Some(queue(reader));
    }
    None
}

/// queue = ( "individual" | "common" ) "queue" .
pub fn queue(reader: &mut Reader) -> Queue
    ensures { Goes estelle (rule grammar.queue) reader.old (view.queue result) reader.new }
{
    if reader.sees(TokenKind::Reserved(ReservedWord::Common)) {
        reader.word(ReservedWord::Common);
        reader.word(ReservedWord::Queue);
        return Queue::Common;
    }
    reader.word(ReservedWord::Individual);
    reader.word(ReservedWord::Queue);
    Queue::Individual
}

/// "modvar" modvar { modvar }
pub fn modvars(reader: &mut Reader) -> ModvarDefs
    ensures { Goes estelle grammar.modvars reader.old
        (nodes (map view.a_module_variable result)) reader.new }
{
    reader.word(ReservedWord::Modvar);
    several_modvars(reader)
}

// modvar { modvar }
fn several_modvars(reader: &mut Reader) -> ModvarDefs
    ensures { Goes estelle (grammar.several (rule grammar.modvar)) reader.old
        (nodes (map view.a_module_variable result)) reader.new }
{
    let first = modvar(reader);
    let mut items = ModvarDefs::new(reader.alloc);
    reader.keep(&mut items, first);
    while reader.sees(TokenKind::Identifier) {
        let next = modvar(reader);
        reader.keep(&mut items, next);
    }
    items
}

// modvar = idents ":" [ dims ] ident ";" .
fn modvar(reader: &mut Reader) -> ModvarDef
    ensures { Goes estelle (rule grammar.modvar) reader.old
        (node (view.a_module_variable result)) reader.new }
{
    let first = reader.at;
    let names = idents(reader);
    reader.symbol(Symbol::Colon);
    let at = reader.at;
    let dims = dimensions(reader);
    let header = reader.name();
    reader.symbol(Symbol::Semicolon);
    let place = declared_at(&dims, first, at);
    ModvarDef {
        names,
        dims,
        header,
        place,
    }
}
