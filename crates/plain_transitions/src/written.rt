//! Transitions with all their clauses, each of which was looked up once.

use est_syntax::body::Block;
use est_syntax::est_items::Items;
use est_syntax::expression::{Access, Expr};
use est_syntax::kind::Kind;
use est_syntax::name::Used;
use est_syntax::transition::Most;
use plain_names::plain_declared::declared::Places;

/// The interaction that a `when` awaits, and at which interaction point.
#[derive(Clone, Copy)]
pub struct Awaits<'t> {
    pub at: &'t Access,
    pub signal: &'t Used,
}

/// Where the interaction point and the interaction are declared that a `when` awaits whose
/// subscripts never pass their limit.
#[derive(Clone, Copy)]
pub struct Fixed {
    pub point: u32,
    pub signal: u32,
}

/// The bounds of a `delay`.
#[derive(Clone, Copy)]
pub struct Bounds<'t> {
    pub least: &'t Expr,
    pub most: &'t Most,
}

/// What is provided: nothing, a condition, or that none of these holds.
#[derive(Drop)]
pub enum Provision<'t> {
    Always,
    Provided(&'t Expr),
    Otherwise(Vec<&'t Expr>),
}

/// A transition with all its clauses.
#[derive(Drop)]
pub struct Written<'t> {
    /// The places of the states that its `from` stands for.
    pub states: Option<Items<u32>>,
    pub awaits: Option<Awaits<'t>>,
    /// What its `when` awaits, where no subscript of that ever passes its limit and both names are
    /// declared.
    pub fixed: Option<Fixed>,
    /// The places of the parameters of that interaction, in the order of the text.
    pub parameters: Places,
    /// The places of its `any` variables, in the order of the text.
    pub variables: Places,
    /// The kinds of those of them that have one.
    pub kinds: Vec<&'t Kind>,
    pub condition: Provision<'t>,
    pub delay: Option<Bounds<'t>>,
    pub priority: Option<i32>,
    /// The state that its `to` names.
    pub next_state: Option<u32>,
    pub block: &'t Block,
    /// The places of the variables of its block, in the order of the text.
    pub own: Places,
}
