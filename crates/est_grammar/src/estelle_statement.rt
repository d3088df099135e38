//! The statements that only Estelle knows (ISO 9074).

ghost use Rattle.std.specs.Prelude.{true, map};
ghost use Rattle.text_reader.specs.Grammar.{rule};
ghost use Rattle.text_reader.specs.Shown.{node, nodes};
ghost use Rattle.est_lexer.specs.declared.kind.ReservedWord.TheVariants as words;
ghost use Rattle.est_lexer.specs.declared.kind.TokenKind.TheVariants.{Reserved};
ghost use Rattle.text_reader.specs.Going.{Goes};
ghost use Rattle.text_reader.specs.Moving.{Sees, NoneSeen};
ghost use Rattle.text_reader.specs.Tests.{kind};
ghost use Rattle.text_productions.specs.Productions as grammar;
ghost use Rattle.text_productions.specs.Nodes as view;
ghost use Rattle.text_productions.specs.Syntax.{estelle};
ghost use Rattle.text_productions.specs.Tokens.{pascal_tokens, unlinked_tokens};
ghost use Rattle.est_grammar.specs.inside.Initialized.{Initializes};

use est_lexer::kind::{ReservedWord, Symbol, TokenKind};
use est_syntax::statement::{Sending, Sendings, Statement};
use text_productions::access::{access, arguments, end_point};
use text_reader::Reader;

/// "output" .. | init | "release" .. | "connect" .. | "disconnect" .. | "attach" .. | "detach" ..,
/// or no statement
pub fn estelle_statement(reader: &mut Reader) -> Statement
    requires { NoneSeen reader.old pascal_tokens }
    ensures { Goes estelle (rule grammar.statement) reader.old
        (node (view.a_statement result)) reader.new }
{
    if reader.sees(TokenKind::Reserved(ReservedWord::Output)) {
        return output_statement(reader);
    }
    if reader.sees(TokenKind::Reserved(ReservedWord::Init)) {
        return init_statement(reader);
    }
    if reader.sees(TokenKind::Reserved(ReservedWord::Release)) {
        return release_statement(reader);
    }
    link_statement(reader)
}

// "connect" .. | "disconnect" .. | "attach" .. | "detach" .., or no statement
fn link_statement(reader: &mut Reader) -> Statement
    requires { NoneSeen reader.old unlinked_tokens }
    ensures { Goes estelle (rule grammar.statement) reader.old
        (node (view.a_statement result)) reader.new }
{
    if reader.sees(TokenKind::Reserved(ReservedWord::Connect)) {
        return connect_statement(reader);
    }
    if reader.sees(TokenKind::Reserved(ReservedWord::Disconnect)) {
        return disconnect_statement(reader);
    }
    if reader.sees(TokenKind::Reserved(ReservedWord::Attach)) {
        return attach_statement(reader);
    }
    if reader.sees(TokenKind::Reserved(ReservedWord::Detach)) {
        return detach_statement(reader);
    }
    Statement::Empty { place: reader.at }
}

// "output" sending { "," sending }
fn output_statement(reader: &mut Reader) -> Statement
    requires { Sees reader.old (kind (Reserved words.Output)) true }
    ensures { Goes estelle (rule grammar.statement) reader.old
        (node (view.a_statement result)) reader.new }
{
    let place = reader.at;
    reader.word(ReservedWord::Output);
    let sendings = sendings(reader);
    Statement::Output { sendings, place }
}

// sending { "," sending }
fn sendings(reader: &mut Reader) -> Sendings
    ensures { Goes estelle (grammar.listed (rule grammar.sending)) reader.old
        (nodes (map view.a_sending result)) reader.new }
{
    let first = sending(reader);
    let mut items = Sendings::new(reader.alloc);
    reader.keep(&mut items, first);
    while reader.sees(TokenKind::Symbol(Symbol::Comma)) {
        reader.symbol(Symbol::Comma);
        let next = sending(reader);
        reader.keep(&mut items, next);
    }
    items
}

// sending = access "." ident [ "(" exprs ")" ] .
fn sending(reader: &mut Reader) -> Sending
    ensures { Goes estelle (rule grammar.sending) reader.old
        (node (view.a_sending result)) reader.new }
{
    let at = access(reader);
    reader.symbol(Symbol::Period);
    let signal = reader.name();
    let arguments = arguments(reader);
    Sending {
        at,
        signal,
        arguments,
    }
}

// init, a statement
fn init_statement(reader: &mut Reader) -> Statement
    requires { Sees reader.old (kind (Reserved words.Init)) true }
    ensures { Goes estelle (rule grammar.statement) reader.old
        (node (view.a_statement result)) reader.new }
{
    init(reader)
}

/// init = "init" access "with" ident [ "(" exprs ")" ] .
pub fn init(reader: &mut Reader) -> Statement
    ensures { Initializes reader.old result reader.new }
{
    let place = reader.at;
    reader.word(ReservedWord::Init);
    let target = access(reader);
    reader.word(ReservedWord::With);
    let body = reader.name();
    let arguments = arguments(reader);
    Statement::Init {
        target,
        body,
        arguments,
        place,
    }
}

// "release" access
fn release_statement(reader: &mut Reader) -> Statement
    requires { Sees reader.old (kind (Reserved words.Release)) true }
    ensures { Goes estelle (rule grammar.statement) reader.old
        (node (view.a_statement result)) reader.new }
{
    let place = reader.at;
    reader.word(ReservedWord::Release);
    let target = access(reader);
    Statement::Release { target, place }
}

// "connect" end "to" end
fn connect_statement(reader: &mut Reader) -> Statement
    requires { Sees reader.old (kind (Reserved words.Connect)) true }
    ensures { Goes estelle (rule grammar.statement) reader.old
        (node (view.a_statement result)) reader.new }
{
    let place = reader.at;
    reader.word(ReservedWord::Connect);
    let one = end_point(reader);
    reader.word(ReservedWord::To);
    let other = end_point(reader);
    Statement::Connect { one, other, place }
}

// "disconnect" end
fn disconnect_statement(reader: &mut Reader) -> Statement
    requires { Sees reader.old (kind (Reserved words.Disconnect)) true }
    ensures { Goes estelle (rule grammar.statement) reader.old
        (node (view.a_statement result)) reader.new }
{
    let place = reader.at;
    reader.word(ReservedWord::Disconnect);
    let end = end_point(reader);
    Statement::Disconnect { end, place }
}

// "attach" access "to" access "." access
fn attach_statement(reader: &mut Reader) -> Statement
    requires { Sees reader.old (kind (Reserved words.Attach)) true }
    ensures { Goes estelle (rule grammar.statement) reader.old
        (node (view.a_statement result)) reader.new }
{
    let place = reader.at;
    reader.word(ReservedWord::Attach);
    let own = access(reader);
    reader.word(ReservedWord::To);
    let child = access(reader);
    reader.symbol(Symbol::Period);
    let point = access(reader);
    Statement::Attach {
        own,
        child,
        point,
        place,
    }
}

// "detach" end
fn detach_statement(reader: &mut Reader) -> Statement
    requires { Sees reader.old (kind (Reserved words.Detach)) true }
    ensures { Goes estelle (rule grammar.statement) reader.old
        (node (view.a_statement result)) reader.new }
{
    let place = reader.at;
    reader.word(ReservedWord::Detach);
    let end = end_point(reader);
    Statement::Detach { end, place }
}
