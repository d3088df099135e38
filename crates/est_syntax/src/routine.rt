//! Procedures and functions (ISO 7185, 6.6).

use crate::body::Block;
use crate::name::{Used, UsedNames};
use est_items::Items;

/// Parameters declared together (ISO 7185, formal-parameter-section). `by_place` says that they are
/// `var` parameters.
#[derive(Drop)]
pub struct Formal {
    pub by_place: bool,
    pub names: UsedNames,
    pub kind: Used,
}

/// Parameters in the order of the text.
pub type Formals = Items<Formal>;

/// A procedure, or a function with the type of its result (ISO 7185, procedure-declaration and
/// function-declaration).
#[cycle(part)]
#[derive(Drop)]
pub struct Routine {
    pub name: Used,
    pub formals: Formals,
    pub result: Option<Used>,
    pub block: Block,
}
