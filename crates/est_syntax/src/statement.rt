//! Statements (ISO 7185, 6.8, and ISO 9074, statements).

use crate::constant::Constants;
use crate::expression::{Access, EndPoint, Expr, Exprs, Selectors};
use crate::name::Used;
use crate::type_text::TypeText;
use est_items::{Boxed, Items};

/// A choice of a `case` (ISO 7185, case-list-element): its constants and its statement.
#[cycle(statement)]
#[derive(Drop)]
pub struct Arm {
    pub constants: Constants,
    pub turn: Statement,
}

/// Choices in the order of the text.
pub type Arms = Items<Arm>;

/// An interaction that an output sends, and at which interaction point.
#[derive(Drop)]
pub struct Sending {
    pub at: Access,
    pub signal: Used,
    pub arguments: Exprs,
}

/// Sendings in the order of the text.
pub type Sendings = Items<Sending>;

/// A statement (ISO 7185 and ISO 9074, statement). The place is that of its first token; that of
/// `Empty` is the token after it.
#[cycle(statement)]
#[derive(Drop)]
pub enum Statement {
    Empty {
        place: u32,
    },
    /// The statements between `begin` and `end`.
    Compound {
        turn: Statements,
        place: u32,
    },
    Assign {
        target: Used,
        path: Selectors,
        value: Boxed<Expr>,
        place: u32,
    },
    /// A procedure with its arguments.
    Call {
        name: Used,
        arguments: Exprs,
        place: u32,
    },
    /// What is done where the condition holds, and what else, if anything.
    If {
        condition: Boxed<Expr>,
        first: Boxed<Statement>,
        second: Option<Boxed<Statement>>,
        place: u32,
    },
    Case {
        value: Boxed<Expr>,
        arms: Arms,
        place: u32,
    },
    While {
        condition: Boxed<Expr>,
        turn: Boxed<Statement>,
        place: u32,
    },
    Repeat {
        turn: Statements,
        until: Boxed<Expr>,
        place: u32,
    },
    /// A loop from `first` up to `last`, or down to it.
    For {
        name: Used,
        first: Boxed<Expr>,
        down: bool,
        last: Boxed<Expr>,
        turn: Boxed<Statement>,
        place: u32,
    },
    /// A turn for each value of an ordinal type, or for each module of a header.
    All {
        name: Used,
        over: Boxed<TypeText>,
        turn: Boxed<Statement>,
        place: u32,
    },
    Output {
        sendings: Sendings,
        place: u32,
    },
    Init {
        target: Access,
        body: Used,
        arguments: Exprs,
        place: u32,
    },
    Release {
        target: Access,
        place: u32,
    },
    Connect {
        one: EndPoint,
        other: EndPoint,
        place: u32,
    },
    Disconnect {
        end: EndPoint,
        place: u32,
    },
    /// An own interaction point, a module variable, and an interaction point of that module.
    Attach {
        own: Access,
        child: Access,
        point: Access,
        place: u32,
    },
    Detach {
        end: EndPoint,
        place: u32,
    },
}

/// Statements in the order of the text.
pub type Statements = Items<Statement>;
