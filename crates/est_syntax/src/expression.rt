//! Expressions (ISO 7185, 6.7), variables and interaction points (ISO 9074).
//!
//! Sums and products are a first operand and a list, so a tree is as deep as its brackets.

use crate::constant::Sign;
use crate::name::Used;
use est_items::{Boxed, Items};

/// An operator of an expression.
#[derive(Clone, Copy, PartialEq, Eq)]
pub enum Operator {
    Equal,
    Unequal,
    Below,
    AtMost,
    Above,
    AtLeast,
    Within,
    Plus,
    Minus,
    Or,
    Times,
    Div,
    Mod,
    And,
}

/// What follows the name of a variable: subscripts in one pair of brackets, at the place of `[`, or
/// a field (ISO 7185, component-variable).
#[cycle(expression)]
#[derive(Drop)]
pub enum Selector {
    Index { exprs: Exprs, place: u32 },
    Field(Used),
}

/// Selectors in the order of the text.
pub type Selectors = Items<Selector>;

/// A member of a set, or the members from one to another (ISO 7185, member-designator).
#[cycle(expression)]
#[derive(Drop)]
pub struct Member {
    pub low: Expr,
    pub high: Option<Expr>,
}

/// Members in the order of the text.
pub type Members = Items<Member>;

/// An operand of a product (ISO 7185, factor). The place is that of its first token: the number,
/// the character, `(`, `not`, `[` or the name.
#[cycle(expression)]
#[derive(Drop)]
pub enum Factor {
    Number {
        number: u64,
        place: u32,
    },
    Character {
        code: u8,
        place: u32,
    },
    /// An expression in brackets.
    Group {
        of: Boxed<Expr>,
        place: u32,
    },
    Not {
        of: Boxed<Factor>,
        place: u32,
    },
    Set {
        members: Members,
        place: u32,
    },
    /// A variable, a constant, or a function without arguments.
    Variable {
        name: Used,
        path: Selectors,
        place: u32,
    },
    /// A function with arguments (function-designator).
    Call {
        name: Used,
        arguments: Exprs,
        place: u32,
    },
}

/// An operator of a product and the operand after it.
#[cycle(expression)]
#[derive(Drop)]
pub struct ProductStep {
    pub operator: Operator,
    pub right: Factor,
}

/// The steps of a product in the order of the text.
pub type ProductSteps = Items<ProductStep>;

/// A product (ISO 7185, term).
#[cycle(expression)]
#[derive(Drop)]
pub struct Term {
    pub first: Factor,
    pub rest: ProductSteps,
}

/// An operator of a sum and the operand after it.
#[cycle(expression)]
#[derive(Drop)]
pub struct SumStep {
    pub operator: Operator,
    pub right: Term,
}

/// The steps of a sum in the order of the text.
pub type SumSteps = Items<SumStep>;

/// A sum (ISO 7185, simple-expression). `sign` is the sign before its first operand, where one is
/// written.
#[cycle(expression)]
#[derive(Drop)]
pub struct Simple {
    pub sign: Option<Sign>,
    pub first: Term,
    pub rest: SumSteps,
}

/// A relational operator and the sum after it.
#[cycle(expression)]
#[derive(Drop)]
pub struct Relation {
    pub operator: Operator,
    pub right: Simple,
}

/// An expression (ISO 7185, expression). The place is that of its first token.
#[cycle(expression)]
#[derive(Drop)]
pub struct Expr {
    pub left: Simple,
    pub relation: Option<Relation>,
    pub place: u32,
}

/// Expressions in the order of the text.
pub type Exprs = Items<Expr>;

/// A name with subscripts (ISO 9074, interaction-point-access and module-variable). The place of
/// `name` is that of the first token.
#[derive(Drop)]
pub struct Access {
    pub name: Used,
    pub index: Exprs,
}

/// An end of a link (ISO 9074, connect-ip): an own interaction point or a module variable alone, or
/// a module variable and an interaction point of that module.
#[derive(Drop)]
pub struct EndPoint {
    pub first: Access,
    pub second: Option<Access>,
}
