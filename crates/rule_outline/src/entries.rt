//! What is known of each sort of declaration.

ghost use Rattle.std.specs.Prelude.{◌≡◌};
ghost use Rattle.rule_declares.specs.Entries.{plain, typed, constant, ordinal_of, numbered, point};
ghost use Rattle.rule_declares.specs.Entries.{module_variable, state_set, header};
ghost use Rattle.rule_declares.specs.Declares.{has_exports};

use est_syntax::header::{Header, Queue};
use est_syntax::kind::MAXINT;
use est_syntax::type_text::VarDef;
use rule_declares::rule_kinds::value::Valued;
use rule_declares::rule_scope::declaration::{
    Declared, Entry, Measured, SharedKinds, SharedPlaces, Side, Sort, Within,
};

/// A type or a variable.
pub fn typed(within: &Within, sort: Sort, kind: Option<Measured>) -> Entry
    ensures { result ≡ typed within.now sort kind }
{
    Entry {
        declared: Declared {
            sort,
            body: within.body,
        },
        section: within.section,
        kind,
        ordinal: None,
        dims: None,
        elements: 0,
        side: None,
        queue: None,
        states: None,
        header: None,
        closed: false,
        system: false,
        exports: false,
    }
}

/// A declaration that has no kind.
pub fn plain(within: &Within, sort: Sort) -> Entry
    ensures { result ≡ plain within.now sort }
{
    typed(within, sort, None)
}

/// A constant, by its value.
pub fn constant(within: &Within, value: Option<Valued>) -> Entry
    ensures { result ≡ constant within.now value }
{
    match value {
        None => plain(within, Sort::Constant),
        Some(Valued { host, ordinal }) => Entry {
            declared: Declared {
                sort: Sort::Constant,
                body: within.body,
            },
            section: within.section,
            kind: Some(Measured {
                kind: host,
                scalars: 1,
                levels: 0,
            }),
            ordinal: Some(ordinal),
            dims: None,
            elements: 0,
            side: None,
            queue: None,
            states: None,
            header: None,
            closed: false,
            system: false,
            exports: false,
        },
    }
}

// The ordinal of a number.
fn ordinal_of(number: usize) -> Option<i32>
    ensures { result ≡ ordinal_of number }
{
    if number as u64 <= MAXINT as u64 {
        Some(number as i32)
    } else {
        None
    }
}

/// The constant of an enumeration with this number, whose kind is not known yet.
pub fn numbered(within: &Within, number: usize) -> Entry
    ensures { result ≡ numbered within.now number }
{
    Entry {
        declared: Declared {
            sort: Sort::Constant,
            body: within.body,
        },
        section: within.section,
        kind: None,
        ordinal: ordinal_of(number),
        dims: None,
        elements: 0,
        side: None,
        queue: None,
        states: None,
        header: None,
        closed: false,
        system: false,
        exports: false,
    }
}

/// An interaction point, of so many elements.
pub fn point(
    within: &Within,
    dims: Option<SharedKinds>,
    elements: u64,
    side: Option<Side>,
    queue: Option<Queue>,
) -> Entry
    ensures { result ≡ point within.now dims elements side queue }
{
    Entry {
        declared: Declared {
            sort: Sort::Point,
            body: within.body,
        },
        section: within.section,
        kind: None,
        ordinal: None,
        dims,
        elements,
        side,
        queue,
        states: None,
        header: None,
        closed: false,
        system: false,
        exports: false,
    }
}

/// A module variable, of a header.
pub fn module_variable(within: &Within, dims: Option<SharedKinds>, header: Option<u32>) -> Entry
    ensures { result ≡ module_variable within.now dims header }
{
    Entry {
        declared: Declared {
            sort: Sort::ModuleVariable,
            body: within.body,
        },
        section: within.section,
        kind: None,
        ordinal: None,
        dims,
        elements: 0,
        side: None,
        queue: None,
        states: None,
        header,
        closed: false,
        system: false,
        exports: false,
    }
}

/// A state set, of these states.
pub fn state_set(within: &Within, states: SharedPlaces) -> Entry
    ensures { result ≡ state_set within.now states }
{
    Entry {
        declared: Declared {
            sort: Sort::StateSet,
            body: within.body,
        },
        section: within.section,
        kind: None,
        ordinal: None,
        dims: None,
        elements: 0,
        side: None,
        queue: None,
        states: Some(states),
        header: None,
        closed: false,
        system: false,
        exports: false,
    }
}

// Whether there are exports.
fn has_exports(exports: &[VarDef]) -> bool
    ensures { result ≡ has_exports exports.now }
{
    !exports.is_empty()
}

/// A module header, with its attribute, and whether it has exports.
pub fn header(within: &Within, item: &Header) -> Entry
    ensures { result ≡ header within.now item.now.system (has_exports item.now.exports) }
{
    Entry {
        declared: Declared {
            sort: Sort::Header,
            body: within.body,
        },
        section: within.section,
        kind: None,
        ordinal: None,
        dims: None,
        elements: 0,
        side: None,
        queue: None,
        states: None,
        header: None,
        closed: false,
        system: item.system,
        exports: has_exports(item.exports.as_slice()),
    }
}
