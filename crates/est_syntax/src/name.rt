//! Names and their uses.

use est_items::Items;

/// The bytes of a name.
pub type Bytes = Items<u8>;

/// An identifier in lower case.
#[derive(Drop)]
pub struct Name {
    pub bytes: Bytes,
}

/// A name and the number of its token, counted from 0.
#[derive(Drop)]
pub struct Used {
    pub name: Name,
    pub place: u32,
}

/// Names in the order of the text.
pub type UsedNames = Items<Used>;
