//! Variables, and what holds them.

use est_syntax::est_items::Items;
use est_values::Chunks;
use est_values::value::Value;

/// What has variables: a frame, by its number from the outermost one, or a module instance.
#[derive(Clone, Copy, PartialEq, Eq)]
pub enum Holder {
    Frame(usize),
    Instance(u32),
}

/// Numbers of components of arrays and records, counted from 0, from the outermost one in.
pub type Path = Items<u32>;

/// The place of a variable or of a part of one: what holds it, where its name is declared, and
/// which part it is.
#[derive(Drop)]
pub struct Place {
    pub holder: Holder,
    pub declared: u32,
    pub path: Path,
}

/// What stands under a name: a value; the place that a `var` parameter stands for; or the instance
/// that the name of an `all` stands for.
#[derive(Drop)]
pub enum Slot {
    Value(Value),
    Place(Place),
    Instance(u32),
}

/// A name, by the place where it is declared, and what stands under it.
#[derive(Drop)]
pub struct Binding {
    pub declared: u32,
    pub slot: Slot,
}

/// Names that were declared together.
pub type Frame = Chunks<Binding>;
