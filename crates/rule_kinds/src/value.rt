//! What constants and records are made of.

ghost use Rattle.std.specs.Prelude.{◌≡◌, IfOk};

use est_syntax::kind::{FieldKinds, Kind};
use rule_scope::declaration::Measured;
use std::alloc::AllocError;

/// An ordinal of a host: the value of a constant.
#[derive(Drop)]
pub struct Valued {
    pub host: Kind,
    pub ordinal: i32,
}

/// The fields of a record so far, with the number of their scalars and their greatest level.
#[derive(Drop)]
pub struct Gathered {
    pub kinds: FieldKinds,
    pub scalars: u64,
    pub levels: u64,
}

/// An equal kind with the same sizes, which shares what the kind is made of.
pub fn copy_measured(measured: &Measured) -> Result<Measured, AllocError>
    ensures { IfOk result (λ m. m ≡ measured.now) }
{
    Ok(Measured {
        kind: measured.kind.copy()?,
        scalars: measured.scalars,
        levels: measured.levels,
    })
}

/// An equal kind with the same sizes, if there is one.
pub fn copy_kind(kind: &Option<Measured>) -> Result<Option<Measured>, AllocError>
    ensures { IfOk result (λ m. m ≡ kind.now) }
{
    match kind {
        None => Ok(None),
        Some(measured) => Ok(Some(copy_measured(measured)?)),
    }
}
