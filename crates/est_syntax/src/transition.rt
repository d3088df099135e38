//! Transitions (ISO 9074, transition-declaration).

ghost use Rattle.std.specs.Prelude.{◌≡◌};
ghost use Rattle.est_syntax.specs.Clauses.{clause_place};

use crate::body::Block;
use crate::constant::Constant;
use crate::expression::{Access, Expr};
use crate::name::{Used, UsedNames};
use crate::type_text::VarDefs;
use est_items::{Boxed, Items};

/// The later bound of a delay: that of the first one, another, or none (`*`).
#[derive(Drop)]
pub enum Most {
    Same,
    Value(Boxed<Expr>),
    Never,
}

/// A clause of a transition (ISO 9074, clause). The place is that of its first token. Expressions
/// stand in boxes, since most clauses have none and all are of one size.
#[derive(Drop)]
pub enum Clause {
    From {
        states: UsedNames,
        place: u32,
    },
    /// The next state, or none for `same`.
    To {
        state: Option<Used>,
        place: u32,
    },
    When {
        at: Access,
        signal: Used,
        place: u32,
    },
    Provided {
        condition: Boxed<Expr>,
        place: u32,
    },
    /// `provided otherwise`.
    Otherwise {
        place: u32,
    },
    Any {
        names: VarDefs,
        place: u32,
    },
    Priority {
        value: Constant,
        place: u32,
    },
    Delay {
        least: Boxed<Expr>,
        most: Most,
        place: u32,
    },
}

impl Clause {
    /// The place of its first token.
    pub fn place(&self) -> u32
        ensures { result ≡ clause_place self.now }
    {
        match self {
            Clause::From { place, .. } => *place,
            Clause::To { place, .. } => *place,
            Clause::When { place, .. } => *place,
            Clause::Provided { place, .. } => *place,
            Clause::Otherwise { place } => *place,
            Clause::Any { place, .. } => *place,
            Clause::Priority { place, .. } => *place,
            Clause::Delay { place, .. } => *place,
        }
    }
}

/// The clauses of a transition in the order of the text.
pub type Clauses = Items<Clause>;

/// A transition (ISO 9074, transition-declaration): its clauses, its name where it has one, and its
/// block.
#[cycle(part)]
#[derive(Drop)]
pub struct Transition {
    pub clauses: Clauses,
    pub name: Option<Used>,
    pub block: Block,
}

/// Transitions in the order of the text.
pub type Transitions = Items<Transition>;

/// The transitions after one `trans` (ISO 9074, transition-group).
#[cycle(part)]
#[derive(Drop)]
pub struct Group {
    pub transitions: Transitions,
}

/// Groups of transitions in the order of the text.
pub type Groups = Items<Group>;
