//! Kinds, the resolved types (ISO 7185, 6.4).

use crate::name::Name;
use est_items::{Items, Shared};

/// The greatest integer, in absolute value too (ISO 7185, 6.4.2.2 and 6.7.2.2).
pub const MAXINT: u32 = 2147483647;

/// Names in order.
pub type Names = Items<Name>;

/// A kind with several owners.
pub type SharedKind = Shared<Kind>;

/// A field of a record.
#[cycle(kind)]
#[derive(Drop)]
pub struct FieldKind {
    pub name: Name,
    pub kind: Kind,
}

/// The fields of a record in order.
pub type FieldKinds = Items<FieldKind>;

/// A resolved type. A copy shares what the kind is made of, so that the kind of a large type is
/// there once, however many types are made of it.
#[cycle(kind)]
#[derive(Drop)]
pub enum Kind {
    Integer,
    Boolean,
    Char,
    /// An enumeration, by the place of its declaration, and its constants.
    Enumeration {
        declared: u32,
        names: Shared<Names>,
    },
    /// The ordinals of a host from one to another.
    Part {
        host: SharedKind,
        low: i32,
        high: i32,
    },
    SetOf(SharedKind),
    ArrayOf {
        index: SharedKind,
        of: SharedKind,
    },
    Fields(Shared<FieldKinds>),
}

/// Kinds in order.
pub type Kinds = Items<Kind>;

/// Ordinals in order.
pub type Ordinals = Items<i32>;
