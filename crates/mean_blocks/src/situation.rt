//! What situations are made of.

use crate::frame::Frame;
use est_syntax::est_items::{Items, Shared};
use est_syntax::kind::Ordinals;
use est_values::value::Values;

/// An interaction point: its instance, where its name is declared, and its subscripts.
#[derive(Drop)]
pub struct InteractionPoint {
    pub instance: u32,
    pub declared: u32,
    pub index: Ordinals,
}

/// An interaction, by the place where it is declared, with the interaction point that it belongs
/// to.
#[derive(Drop)]
pub struct Item {
    pub at: InteractionPoint,
    pub signal: u32,
    pub values: Values,
}

/// An element of a module variable: where its name is declared, and its subscripts.
#[derive(Drop)]
pub struct Element {
    pub declared: u32,
    pub index: Ordinals,
}

/// An element with the number of the instance that it was given last, if it was given one.
#[derive(Drop)]
pub struct Holding {
    pub element: Element,
    pub number: Option<u32>,
}

/// Elements in the order of the text and of their subscripts.
pub type Holdings = Items<Holding>;

/// A living instance: its number, that of its parent (0 for the root), its body and its state by
/// their places, its parameters, exported variables and variables, and its module variables.
#[derive(Drop)]
pub struct Row {
    pub number: u32,
    pub parent: u32,
    pub body: u32,
    pub state: Option<u32>,
    pub variables: Frame,
    pub children: Shared<Holdings>,
}
