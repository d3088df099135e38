//! Modules that are started (ISO 9074, init-statement).
#![tactic(auto, using(rule_scope::proofs::LeastLaws::least_append))]

ghost use Rattle.std.specs.Prelude.{◌≡◌};
ghost use Rattle.rule_scope.specs.LeastSoFar.{least_with};
ghost use Rattle.rule_scope.specs.Outline.{entry_at};
ghost use Rattle.rule_statements.specs.Modules.{section_faults, started_by};
ghost use Rattle.rule_declares.specs.LookUps.{header_at};
ghost use Rattle.rule_statements.specs.Modules.{started_faults, header_faults, body_faults};
ghost use Rattle.rule_statements.specs.Modules.{parameters_of, init_faults};
ghost use Rattle.rule_declares.specs.LookUps.{started_header};

use est_syntax::expression::{Access, Expr};
use est_syntax::name::Used;
use est_syntax::rule::Rule;
use est_syntax::statement::Statement;
use rule_declares::lookups::{header_at, header_in};
use rule_expressions::accesses::check_access;
use rule_expressions::expressions::check_taken;
use rule_expressions::receivers::Receiver;
use rule_scope::declaration::{Section, Sort};
use rule_scope::least::Least;
use rule_scope::outline::Outline;

// Notes the name of an `all`, which gets no module.
fn check_section(section: Section, place: u32, least: &mut Least)
    ensures { least.new.at ≡ least_with least.old.at (section_faults section place) }
{
    match section {
        Section::All => least.note(place, Rule::NotWritable),
        _ => (),
    }
}

// The same of what is declared at a place.
fn check_entry(outline: &Outline, declared: u32, place: u32, least: &mut Least)
    ensures { least.new.at
        ≡ least_with least.old.at (started_by (entry_at outline.now declared) place) }
{
    match outline.entry(declared) {
        None => (),
        Some(entry) => check_section(entry.section, place, least),
    }
}

// The same of a module variable that is to get a module.
fn check_started(outline: &Outline, declared: Option<u32>, place: u32, least: &mut Least)
    ensures { least.new.at
        ≡ least_with least.old.at (started_faults outline.now declared place) }
{
    if let Some(declared) = declared {
        check_entry(outline, declared, place, least);
    }
}

// Notes a body for another header than that of the module variable.
fn check_header(header: Option<u32>, other: Option<u32>, place: u32, least: &mut Least)
    ensures { least.new.at ≡ least_with least.old.at (header_faults header other place) }
{
    match (header, other) {
        (Some(header), Some(other)) => least.note_if(header != other, place, Rule::WrongBody),
        _ => (),
    }
}

// Notes a body whose text has not ended, or which is for another header.
fn check_body(
    outline: &Outline,
    header: Option<u32>,
    body: Option<u32>,
    place: u32,
    least: &mut Least,
)
    ensures { least.new.at
        ≡ least_with least.old.at (body_faults outline.now header body place) }
{
    if let Some(body) = body {
        if outline.lies_in(place, body) {
            least.note(place, Rule::WrongBody);
        } else {
            check_header(header, header_in(outline, body), place, least);
        }
    }
}

// What takes the arguments for a body: its header.
fn parameters_of(header: Option<u32>) -> Option<Receiver>
    ensures { result ≡ parameters_of header }
{
    match header {
        None => None,
        Some(header) => Some(Receiver::Parameters(header)),
    }
}

/// An `init`.
pub fn check_init(
    outline: &Outline,
    target: &Access,
    body: &Used,
    arguments: &[Expr],
    least: &mut Least,
)
    ensures { least.new.at ≡ least_with least.old.at
        (init_faults outline.now target.now body.now arguments.now) }
{
    let variable = outline.declaration_of(Sort::ModuleVariable, &target.name);
    let declared = outline.declaration_of(Sort::Body, body);
    check_access(outline, Sort::ModuleVariable, target, least);
    check_started(outline, variable, target.name.place, least);
    outline.check_use(Sort::Body, body, least);
    check_body(
        outline,
        header_at(outline, variable),
        declared,
        body.place,
        least,
    );
    let receiver = parameters_of(header_at(outline, declared));
    check_taken(outline, receiver, body.place, arguments, least);
}
