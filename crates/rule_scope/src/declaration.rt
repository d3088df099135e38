//! What is declared at a place.

use crate::predeclared::PredeclaredName;
use est_syntax::channel::Role;
use est_syntax::est_items::{Items, Shared};
use est_syntax::header::Queue;
use est_syntax::kind::{Kind, Kinds};

/// The sort of thing that a declaration makes of a name.
#[derive(Clone, Copy, PartialEq, Eq)]
pub enum Sort {
    Constant,
    TypeName,
    Channel,
    Header,
    Body,
    /// A variable, parameter or export, or a name of an `any`, a `when` or an `all`.
    Variable,
    /// A module variable, or the name of an `all` over a header.
    ModuleVariable,
    Point,
    State,
    StateSet,
    Procedure,
    Function,
}

/// What declares a name, beside its sort.
#[derive(Clone, Copy)]
pub enum Section {
    /// A declaration part of a specification or a module body.
    Body,
    /// A declaration part of the block of a routine, a transition or an initialize part.
    Block,
    /// The parameters of a header.
    Parameter,
    /// The interaction points and the exports of a header.
    Header,
    /// The formals of a routine that are given a value.
    Value,
    /// The formals of a routine that are given a variable.
    Place,
    /// The parameters of an interaction.
    Interaction,
    /// An `any` of a transition.
    Any,
    /// An `all`.
    All,
}

/// A declaration: its sort, and the place of the name of the body that holds it, 0 for the
/// specification.
#[derive(Clone, Copy)]
pub struct Declared {
    pub sort: Sort,
    pub body: u32,
}

/// A kind, with the number of its scalars and of its levels of arrays and records.
#[derive(Drop)]
pub struct Measured {
    pub kind: Kind,
    pub scalars: u64,
    pub levels: u64,
}

/// The channel of an interaction point, by the place of its name, and its role there.
#[derive(Clone, Copy)]
pub struct Side {
    pub channel: u32,
    pub role: Role,
}

/// The kinds of subscripts, which all names of one declaration share.
pub type SharedKinds = Shared<Kinds>;

/// Places of declarations, which several owners may have.
pub type SharedPlaces = Shared<Items<u32>>;

/// What is known of a declaration. `kind` is that of a constant, a type, a variable or the result
/// of a function, where it has one, and `ordinal` the value of a constant. `dims` are the kinds of
/// the subscripts of an interaction point or a module variable; an interaction point has so many
/// `elements`, the `side`, and the `queue` that its declaration names, where it names one. `states`
/// are the places of the states that a state set names, in the order of the text. `header` is the
/// place of the name of the header of a module variable or a body, where it has one. `closed` says
/// of a routine that nested bodies see it, `system` of a header that it is a `systemactivity`, and
/// `exports` that it has exported variables.
#[derive(Drop)]
pub struct Entry {
    pub declared: Declared,
    pub section: Section,
    pub kind: Option<Measured>,
    pub ordinal: Option<i32>,
    pub dims: Option<SharedKinds>,
    pub elements: u64,
    pub side: Option<Side>,
    pub queue: Option<Queue>,
    pub states: Option<SharedPlaces>,
    pub header: Option<u32>,
    pub closed: bool,
    pub system: bool,
    pub exports: bool,
}

/// Which roles of a channel may send an interaction.
#[derive(Clone, Copy)]
pub struct Senders {
    pub first: bool,
    pub second: bool,
}

/// What a name of a channel or a record stands for.
#[derive(Clone, Copy)]
pub enum Member {
    Role(Role),
    Interaction(Senders),
    Field,
}

/// Where a name of a region stands, and the last place where it is not yet in force.
#[derive(Clone, Copy)]
pub struct Standing {
    pub place: u32,
    pub last: u32,
}

/// Regions by the places of their owners, the innermost first.
pub type Regions = Items<u32>;

/// Regions with several owners.
pub type SharedRegions = Shared<Regions>;

/// From this place on, the text lies in these regions: those of the innermost body, and those
/// around it.
#[derive(Drop)]
pub struct Extent {
    pub from: u32,
    pub own: SharedRegions,
    pub around: SharedRegions,
}

/// Where a part of the text stands: in the body of this place, declaring in this region by this
/// section, which has the names of that header too, within these regions.
#[derive(Drop)]
pub struct Within {
    pub body: u32,
    pub region: u32,
    pub section: Section,
    pub header: Option<u32>,
    pub own: SharedRegions,
    pub around: SharedRegions,
}

/// What a name means at a place, with the place of its declaration: nothing, something predeclared,
/// something of a body around that a nested body does not see, or this.
#[derive(Clone, Copy, PartialEq, Eq)]
pub enum Meant {
    Nothing,
    Predeclared(PredeclaredName),
    Unseen(u32),
    Seen(u32),
}
